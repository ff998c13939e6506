// Boxes around the polygons of a part, and a tree of them in lent slices.
#![tactic(auto)]

pub mod bounds;
pub mod boxes;
pub mod order;
pub mod own;
pub mod starts;
pub mod tree;
