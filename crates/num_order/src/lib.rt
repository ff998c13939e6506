// Laws on the order of f64 under addition and multiplication; this crate has no functions. proofs/Lib.antt lists the laws.
#![tactic(auto)]
