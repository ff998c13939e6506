// The fields of a line of OBJ text as numbers.
#![tactic(auto)]

pub mod cut;
pub mod decimal;
pub mod whole;
