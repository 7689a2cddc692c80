// Loading: a source's items become a working diagram, or a refusal.
#![tactic(auto)]

mod given;
pub mod load;
mod loading;
