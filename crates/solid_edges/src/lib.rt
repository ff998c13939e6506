// The edges between faces, side by side, from what `shared_segments` and `faces` left in the lent slices: three cells a side, and the face of each
// polygon with the first polygon of each face after them.
#![tactic(auto)]

pub mod edge;
