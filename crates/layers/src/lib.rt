// Layers: sources over a source, which change its items as they pass.
#![tactic(auto)]

pub mod adjoint;
pub mod hold;
pub mod settings;
