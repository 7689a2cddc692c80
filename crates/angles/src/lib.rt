// Angles in two units that are never mixed by accident: quarter turns for spiders, eighth turns for scalars.
#![tactic(auto)]

pub mod angle;

pub use angle::{Phase, Turn};
