// Fields of a part file: what is read at a place, and the tests of a single field.
#![tactic(auto)]

pub mod read;
pub mod test;

// Passed on to the crates above.
pub use math;
