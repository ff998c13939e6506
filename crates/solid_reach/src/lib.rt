// Boxes around segments that are kept: a box that is too far from a point spares the distances from its segments.
#![tactic(auto)]

pub mod reach;
