// The vocabulary: what a diagram is made of, what gives it item by item, and why a call refuses.
#![tactic(auto)]

pub mod items;
pub mod power;
pub mod source;
