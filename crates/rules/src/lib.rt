// Rules of rewriting, steps by a rule, and runs of steps.
#![tactic(auto)]

pub mod choice;
pub mod rule;
pub mod run;
