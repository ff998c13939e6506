// For tests alone: Rust's roundings, casts and choices, the sine table, the roots of many numbers, text at a place of a slice; many rays through a part,
// its tree of boxes, and its thickness readings as lists of numbers.
#![tactic(auto)]

mod cast;
mod open;
mod rays;
mod reals;
mod roots;
mod samples;
mod texts;
mod tree;
