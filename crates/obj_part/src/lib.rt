// The part file of OBJ text.
#![tactic(auto)]

pub mod bytes;
