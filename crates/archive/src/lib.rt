// Questions for amplitudes.
#![tactic(auto)]

pub mod answer;
pub mod line;
