// What slots have: edges between them, and phases, both worked a row at a time.
#![tactic(auto)]

pub mod links;
pub mod phases;
