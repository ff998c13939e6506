// Text into a lent slice of bytes: bytes, whole numbers, decimals.
#![tactic(auto)]

pub mod decimal;
mod digits;
mod number;
pub mod text;
