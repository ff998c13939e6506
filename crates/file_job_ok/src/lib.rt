// When a job is within its rules: refusal 5.
#![tactic(auto)]

pub mod rules;
