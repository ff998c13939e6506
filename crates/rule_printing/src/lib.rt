// The faults of printing, put as rows.
#![tactic(auto)]

pub mod closed;
pub mod hollows;
pub mod overhang;
pub mod printing;
pub mod small_holes;
