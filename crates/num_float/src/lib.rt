// Laws on f64 alone; this crate has no functions. proofs/Lib.antt lists the laws.
#![tactic(auto)]
