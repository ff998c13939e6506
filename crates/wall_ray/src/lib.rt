// Rays through a part, by trying every polygon.
#![tactic(auto)]

pub mod attempt;
pub mod scan;
pub mod slab;
pub mod strike;
