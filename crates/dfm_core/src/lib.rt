// The check of a part on plain number slices, in two halves: what is found of it, and its report.
#![tactic(auto)]

pub mod answer;
mod find;
pub mod halves;
