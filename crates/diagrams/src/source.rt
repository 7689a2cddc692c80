// A source gives a diagram item by item; and the simplest source, a slice of items.
ghost use Rattle.std.specs.Prelude.{◌≡◌};
ghost use Rattle.std.specs.Slice.Iter.{iter_rest};
ghost use Rattle.diagrams.specs.Streams.{Stream, answer, after, listed};

use crate::items::Item;
use refusals::Fault;
use std::slice;

// A source means the items still to come, and after them an end or a fault. Asking takes off the
// first item and leaves the rest; after the last it gives the end or the fault, every time.
pub trait Source {
    ghost rest: { Self → Stream };

    fn next(&mut self) -> Result<Option<Item>, Fault>
        ensures gives { result ≡ answer (rest self.old) }
        ensures leaves { rest self.new ≡ after (rest self.old) };
}

// The items of a slice, in order, and then the end.
#[derive(Drop)]
pub struct Listed<'a> {
    items: slice::Iter<'a, Item>,
}

impl<'a> Listed<'a> {
    pub fn new(items: &'a [Item]) -> Listed<'a>
        ensures { ⟦<Listed<'a> as Source>⟧.rest result ≡ listed items.now 0 }
    {
        Listed {
            items: items.iter(),
        }
    }
}

impl<'a> Source for Listed<'a> {
    ghost rest = { λ s. listed (iter_rest s.items) 0 };

    fn next(&mut self) -> Result<Option<Item>, Fault> {
        Ok(self.items.next().copied())
    }
}
