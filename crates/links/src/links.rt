// The edges between slots, a row of neighbours for each slot.
ghost use Rattle.std.specs.Prelude.{◌≡◌, ℕ, false, not, ◌&&◌, ◌||◌, ◌==◌};
ghost use Rattle.graphs.specs.Rules.{xor};
ghost use Rattle.rows.specs.Rows.{has};
ghost use Rattle.links.specs.Links.{linked, Toggled};

use rows::row::Row;
use rows::slot::{SLOTS, Slot};

#[derive(Clone, Copy)]
pub struct Links {
    rows: [Row; SLOTS],
}

impl Links {
    // No edge at all.
    pub fn empty() -> Links
        ensures { (s t : ℕ) → linked result s t ≡ false }
    {
        let row = Row::empty();
        Links { rows: [row; SLOTS] }
    }

    // The slots that a slot is joined to.
    pub fn neighbours(&self, slot: Slot) -> Row
        ensures { (t : ℕ) → has result t ≡ linked self.now slot.number t }
    {
        self.rows[slot.number()]
    }

    // Toggles what a slot is joined to, one way.
    fn toggle_row(&mut self, slot: Slot, others: &Row)
        ensures { Toggled self.old self.new (λ s t. s == slot.number && has others.now t) }
    {
        let number = slot.number();
        let mut row = self.rows[number];
        row.toggle_all(others);
        self.rows[number] = row;
    }

    // Toggles, one way, what each slot of a set is joined to.
    fn toggle_rows(&mut self, set: &Row, others: &Row)
        ensures { Toggled self.old self.new (λ s t. has set.now s && has others.now t) }
    {
        for slot in set {
            self.toggle_row(slot, others);
        }
    }

    // Toggles the edge between two slots; a slot and itself have none.
    pub fn toggle(&mut self, a: Slot, b: Slot)
        ensures { Toggled self.old self.new (λ s t. xor (s == a.number && t == b.number) (s == b.number && t == a.number)) }
    {
        self.toggle_row(a, &Row::only(b));
        self.toggle_row(b, &Row::only(a));
    }

    // Toggles the edges between two sets: of s and t where s is in the first and t in the second, or the
    // other way round, but not both.
    pub fn cross(&mut self, first: &Row, second: &Row)
        ensures { Toggled self.old self.new (λ s t. xor (has first.now s && has second.now t) (has second.now s && has first.now t)) }
    {
        self.toggle_rows(first, second);
        self.toggle_rows(second, first);
    }

    // Toggles the edge between every two slots of a set.
    pub fn complement(&mut self, set: &Row)
        ensures { Toggled self.old self.new (λ s t. not (s == t) && (has set.now s && has set.now t)) }
    {
        // The walk of `toggle_rows` is one line, and a closure for the others would be longer than both.
        for slot in set {
            let mut others = *set;
            others.remove(slot);
            self.toggle_row(slot, &others);
        }
    }
}
