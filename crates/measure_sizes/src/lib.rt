// Laws on the sizes of the readings and rounds of a part; this crate has no functions. proofs/Lib.antt lists the laws.
#![tactic(auto)]
