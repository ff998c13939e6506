// The rounds of a part: its cylindrical faces seen about their axes (dfm.rs's `round`), kept in the scratch.
#![tactic(auto)]

pub mod round;
