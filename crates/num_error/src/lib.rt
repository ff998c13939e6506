// Laws on exact values of f64 and on how far rounded results are off; this crate has no functions. proofs/Lib.antt lists the laws.
#![tactic(auto)]
