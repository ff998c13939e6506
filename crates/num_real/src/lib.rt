// What Rust's f64 has and Rattle lacks.
#![tactic(auto)]

pub mod bits;
pub mod rounding;
pub mod select;
