// The faults of sheet metal, put as rows.
#![tactic(auto)]

pub mod material;
pub mod ready;
pub mod sheet;
pub mod tight;
