// solid.rs's polygon: its plane, its area, its centroid.
#![tactic(auto)]

pub mod polygon;

// Passed on to the crates above.
pub use file_part;
