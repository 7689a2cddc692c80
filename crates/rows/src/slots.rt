// The slots of a set, one by one.
ghost use Rattle.std.specs.Prelude.{◌≡◌, ℕ, MatchOption};
ghost use Rattle.std.specs.Iterator.{at_most};
ghost use Rattle.graphs.specs.Counts.{bit, total};
ghost use Rattle.rows.specs.Rows.{has, IsBare, TakesLowest};

use crate::row::Row;
use crate::slot::Slot;

// The slots that are still to come, the lowest first.
#[derive(Clone, Drop)]
pub struct Slots {
    left: Row,
}

impl Slots {
    pub(crate) fn of(left: Row) -> Slots
        ensures { result.left ≡ left }
    {
        Slots { left }
    }
}

impl<'a> IntoIterator for &'a Row {
    type Item = Slot;

    type IntoIter = Slots;

    ghost into_iter_gives = { λ row slots. slots.left ≡ row.now };

    fn into_iter(self) -> Slots {
        self.iter()
    }
}

impl Iterator for Slots {
    type Item = Slot;

    // The lowest comes, and is no longer left; or none is left.
    ghost next_gives = { λ s r t. MatchOption r (IsBare s.left × IsBare t.left) (λ slot. TakesLowest s.left slot.number t.left) };

    ghost remaining = { λ s. at_most (total 320 (λ k. bit (has s.left k))) };

    fn next(&mut self) -> Option<Slot> {
        let slot = self.left.first()?;
        self.left.remove(slot);
        Some(slot)
    }
}
