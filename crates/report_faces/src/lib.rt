// The faces of a line: its only fault's as they are, or those of all its faults in the order of their ids.
#![tactic(auto)]

pub mod faces;
mod ids;
pub mod links;
pub mod marks;
pub mod named;
mod search;

// Passed on to the crates above.
pub use fault_merge;
pub use fault_merge::fault_text;
