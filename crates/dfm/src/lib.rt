// The check of a part: from a part file to its report, or to the number of a refusal.
#![tactic(auto)]

pub mod check;

// Passed on to the crates above.
pub use dfm_core;
