// An open leg, and the number under which it was given: below 64.
ghost use Rattle.std.specs.Prelude.{◌≡◌, ◌+◌};

use diagrams::items::{Kind, Side};
use rows::slot::{Below, Slot};

// How many legs there may be, and the first slot of those that are kept for spiders that hold a leg.
pub const LEGS: usize = 64;

pub const HOLDERS: usize = 256;

pub type LegNumber = Below<LEGS>;

// The slot of the spider that holds a leg once it is closed.
pub fn holder(leg: LegNumber) -> Slot
    ensures { result.number ≡ 256 + leg.number }
{
    Slot::of(leg.number() + HOLDERS)
}

// On which side of the diagram it is, on the spider of which slot, and of which kind.
#[derive(Clone, Copy, Debug, PartialEq, Eq)]
pub struct OpenLeg {
    pub side: Side,
    pub slot: Slot,
    pub kind: Kind,
}
