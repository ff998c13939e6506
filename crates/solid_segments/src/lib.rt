// The shared segments of a part.
#![tactic(auto)]

pub mod key;
mod pack;
pub mod shared;
