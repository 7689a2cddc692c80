// Open legs by number, and the scalar of a diagram.
#![tactic(auto)]

pub mod leg;
pub mod legs;
pub mod scalar;
