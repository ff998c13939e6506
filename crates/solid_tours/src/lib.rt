// The edges of each face, sorted by face and by the face that they lead to, in the lent scratch: no question about a face looks at all sides.
#![tactic(auto)]

pub mod boxes;
pub mod order;
pub mod pack;
pub mod tour;
