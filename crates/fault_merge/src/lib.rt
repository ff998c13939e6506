// Which faults share a line.
#![tactic(auto)]

pub mod merge;
mod recall;
pub mod rule;
pub mod same;

// Passed on to the crates above.
pub use fault_text;
