// What a flaw is told as: the message of each kind.
#![tactic(auto)]

pub mod job;
pub mod machining;
pub mod message;
pub mod printing;
pub mod sheet;
pub mod text;
