// OBJ text, read in passes over its lines.
#![tactic(auto)]

pub mod judge;
