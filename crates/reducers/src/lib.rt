// The three rules as code, and the reduction of a working diagram by them.
#![tactic(auto)]

pub mod complement;
pub mod pivot;
pub mod reduce;
pub mod removal;
mod spots;
