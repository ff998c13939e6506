// The readings at the edge, as theorems about the meanings: proofs/Readings.antt. This crate has no functions.
#![tactic(auto)]
