// The faces of a part, the planes and areas of its polygons, and refusals 8 and 9.
#![tactic(auto)]

pub mod areas;
pub mod faces;
pub mod verdict;
