// Thickness readings (dfm.rs's `thickness_samples`), in the lent scratch.
#![tactic(auto)]

pub mod cast;
pub mod sample;
pub mod store;
