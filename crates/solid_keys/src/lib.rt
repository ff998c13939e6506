// Which sides have one key: each is paired with the first of its key, by hash chains in the lent slice.
#![tactic(auto)]

pub mod chains;
