// The volumes of the bodies of a part.
#![tactic(auto)]

pub mod volume;

// Passed on to the crates above.
pub use solid_bodies;
pub use solid_bodies::solid_segments;
