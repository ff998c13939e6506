// The lines of OBJ text.
#![tactic(auto)]

pub mod field;
pub mod line;
