// What a loading keeps of each spider that it was given.
ghost use Rattle.std.specs.Prelude.{◌≡◌, map};
ghost use Rattle.amplitudes.specs.Items.{at_end};
ghost use Rattle.loader.specs.Givens.{moved};

use diagrams::items::{Colour, Kind};
use rows::slot::Slot;

// Its colour, and the slot in which it now is.
#[derive(Clone, Copy)]
pub(crate) struct Given {
    pub(crate) colour: Colour,
    pub(crate) slot: Slot,
}

// What stands in the places of spiders that are yet to come.
impl Default for Given {
    fn default() -> Given {
        Given {
            colour: Colour::Z,
            slot: Slot::of(0),
        }
    }
}

impl Given {
    // A kind changed over at an X end.
    pub(crate) fn at_end(self, kind: Kind) -> Kind
        ensures { result ≡ at_end self.colour kind }
    {
        match (self.colour, kind) {
            (Colour::Z, kind) => kind,
            (Colour::X, Kind::Plain) => Kind::Hadamard,
            (Colour::X, Kind::Hadamard) => Kind::Plain,
        }
    }
}

// The spiders of slot b are in slot a.
pub(crate) fn relabel(spiders: &mut [Given], a: Slot, b: Slot)
    ensures { spiders.new ≡ map (moved a b) spiders.old }
{
    for spider in spiders.iter_mut() {
        if spider.slot == b {
            spider.slot = a;
        }
    }
}
