// The lent scratch: its regions, and the body of a part put there.
#![tactic(auto)]

pub mod body;
pub mod regions;
pub mod tree;
pub mod verdict;
