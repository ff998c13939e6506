// What the part file of OBJ text says, as theorems about the meanings: proofs/. This crate has no functions.
#![tactic(auto)]
