// Circuits: gates and the items that they give, and circuit text as a source.
#![tactic(auto)]

mod cursor;
pub mod gates;
mod lines;
pub mod text;
mod tokens;
mod wiring;
