// A cylindrical face about its axis: its frame, its extent along the axis, the votes of its polygons, and whether its vertices go round
// (dfm.rs's `round`).
#![tactic(auto)]

pub mod bore;
pub mod extent;
pub mod frame;
pub mod measure;
pub mod votes;
