// Laws on square roots and on lengths of vectors; this crate has no functions. proofs/Lib.antt lists the laws.
#![tactic(auto)]

// Passed on to the crates above.
pub use num_root;
