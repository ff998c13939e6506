// Holes by directions in whole numbers (document 01, replacement 3, as document 02, item 6, changes it).
#![tactic(auto)]

pub mod cells;
pub mod direction;
pub mod hole;
pub mod offsets;
