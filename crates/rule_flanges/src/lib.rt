// The flanges of a sheet: the flat faces that run on from its bends, and those that are too short.
#![tactic(auto)]

pub mod flanges;
pub mod legs;
pub mod reach;

// Passed on to the crates above.
pub use fault_text;
