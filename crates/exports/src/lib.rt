// What Rust and C call: the product. No function has a condition: whatever is passed, the contract says what comes back.
#![tactic(auto)]

mod checks;
mod objs;
mod roots;
mod texts;
