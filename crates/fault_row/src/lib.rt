// What a fault is called, the row that keeps one, on lent slices of numbers, and what is found beside faults.
#![tactic(auto)]

pub mod fault;
pub mod flaw;
pub mod row;
pub mod summary;
