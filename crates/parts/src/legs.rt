// The open legs of a diagram, by number, and how many they are.
ghost use Rattle.std.specs.Prelude.{◌≡◌};
ghost use Rattle.parts.specs.Tables.{opened};

use crate::leg::{LEGS, OpenLeg};

pub mod methods;

// A table of fixed memory, since there is no heap. The count is kept beside it, so that a diagram that has no open leg is
// told in one step, and `counted` ties the two.
#[derive(Clone, Copy)]
pub struct Legs {
    table: [Option<OpenLeg>; LEGS],
    count: usize,
    ghost counted: { count ≡ opened table },
}
