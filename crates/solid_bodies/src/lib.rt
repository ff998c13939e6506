// The bodies of a part, which are the sets of polygons that chains of touching polygons join.
#![tactic(auto)]

mod corner;
mod forest;
pub mod label;
mod table;

// Passed on to the crates above.
pub use solid_segments;
