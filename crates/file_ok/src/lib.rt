// When a part file is turned back: refusals 1 to 7.
#![tactic(auto)]

pub mod rules;
pub mod verdict;
