// How a number below a bound is made and read.
ghost use Rattle.std.specs.Prelude.{◌≡◌, ◌%◌, ◌<◌, ◌≤◌, MatchOption};

use super::{Below, SLOTS, Slot};
use std::fmt;

impl<const N: usize> Below<N> {
    // The number, or none where it is not below the bound.
    pub fn new(number: usize) -> Option<Self>
        ensures { MatchOption result (N ≤ number) (λ s. (s.number ≡ number) × (number < N)) }
    {
        if number < N {
            Some(Below { number })
        } else {
            None
        }
    }

    pub fn number(self) -> usize
        ensures value { result ≡ self.entry.number }
        ensures bound { result < N }
    {
        self.number
    }
}

impl Slot {
    // The slot of that number, counted round and round.
    pub fn of(number: usize) -> Slot
        ensures { result.number ≡ number % 320 }
    {
        Slot {
            number: number % SLOTS,
        }
    }
}

// By hand, since a derived one would say the same of a slot and of a leg's number, which is below 64.
impl<const N: usize> fmt::Debug for Below<N> {
    fn fmt<W: fmt::Write>(&self, f: &mut fmt::Formatter<W>) -> fmt::Result {
        let name = match N {
            SLOTS => "Slot",
            64 => "LegNumber",
            _ => "Below",
        };
        f.debug_struct(name).field("number", &self.number).finish()
    }
}
