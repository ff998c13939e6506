// The second pass over OBJ text, where it defines more vertices than a table has places.
#![tactic(auto)]

pub mod fill;
pub mod window;
