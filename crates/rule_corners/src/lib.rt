// Inside corners between flat faces (dfm.rs's `corners`), by their pairs of faces, in the lent scratch.
#![tactic(auto)]

pub mod corner;
mod segment;
pub mod sharp;

// Passed on to the crates above.
pub use fault_text;
