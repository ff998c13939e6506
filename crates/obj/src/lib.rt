// OBJ text as a part file.
#![tactic(auto)]

pub mod convert;
pub mod write;
