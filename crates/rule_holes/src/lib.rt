// The holes of a sheet: those that are too small, and those too close to an edge, a bend or another hole.
#![tactic(auto)]

pub mod holes;
mod name;
pub mod nearest;
