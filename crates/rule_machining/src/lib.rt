// The faults of machining, put as rows.
#![tactic(auto)]

pub mod machining;
pub mod rounds;
pub mod walls;

use scratch::regions::Regions;
use wall_pairs::Counts;

// What a rule is given of a part that stands in the scratch: where, how many faces and readings it has, and how many faults came before.
#[derive(Clone, Copy)]
pub struct Given {
    pub at: Regions,
    pub counts: Counts,
    pub from: usize,
}
