// How far a point is from a segment.
#![tactic(auto)]

pub mod kept;
pub mod segment;
