// The part file: leaf functions that read it.
#![tactic(auto)]

pub mod corner;
pub mod read;

// Passed on to the crates above.
pub use file_job::{file_field, math};
