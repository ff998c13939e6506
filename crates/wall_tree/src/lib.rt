// The nearest polygon that a ray strikes, by a tree of boxes (dfm.rs's `raycast` and `open_towards`).
#![tactic(auto)]

pub mod aim;
pub mod attempt;
pub mod raycast;
pub mod walk;

// Passed on to the crates above.
pub use wall_ray;
