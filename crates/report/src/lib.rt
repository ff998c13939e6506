// The report of a part's faults: its lines in their order, and the first line.
#![tactic(auto)]

mod head;
mod line;
mod order;
pub mod report;

// Passed on to the crates above.
pub use report_faces;
pub use report_faces::fault_text;
