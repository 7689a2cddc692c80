// What can be asked of a working diagram, and how it is changed.
ghost use Rattle.std.specs.Prelude.{◌≡◌, ℕ, ◌%◌, ◌≤◌, if◌then◌else◌, ◌==◌};
ghost use Rattle.models.specs.Models.{carries, open_count, leg_limit};
ghost use Rattle.models.specs.Edits.{blank, placed, can_place, removed, can_remove, gained, toggled, can_join, complemented_around, crossed};
ghost use Rattle.models.specs.Edits.{fused, can_fuse, attached, can_attach, detached, scaled, can_scale, zeroed, held_if, hold_pays};
ghost use Rattle.rows.specs.Rows.{has};
ghost use Rattle.parts.specs.Tables.{open_leg, maybe_leg};
ghost use Rattle.parts.specs.Scales.{scale_of};
ghost use Rattle.graphlike.specs.Diagrams.{model};

use super::Diagram;
use crate::table::{Table, half_turn};
use angles::{Phase, Turn};
use diagrams::items::Kind;
use parts::leg::{LegNumber, OpenLeg, holder};
use parts::scalar::Scalar;
use rows::row::Row;
use rows::slot::Slot;

impl Diagram {
    // A diagram of nothing, whose amplitude is 1.
    pub fn new() -> Diagram
        ensures { model result ≡ blank }
    {
        Diagram {
            table: Table::blank(),
        }
    }

    // The slots in which a spider stands.
    pub fn spiders(&self) -> Row
        ensures { (s : ℕ) → has result s ≡ (model self.now).graph.stands s }
    {
        self.table.standing
    }

    // The slots of odd phase.
    pub fn odd(&self) -> Row
        ensures { (s : ℕ) → has result s ≡ ((model self.now).graph.phase s % 2 == 1) }
    {
        self.table.phases.odd()
    }

    // The slots that have an open leg.
    pub fn boundary(&self) -> Row
        ensures { (s : ℕ) → has result s ≡ carries (model self.now) s }
    {
        self.table.legs.boundary()
    }

    // The slots that a slot is joined to.
    pub fn neighbours(&self, slot: Slot) -> Row
        ensures { (t : ℕ) → has result t ≡ (model self.now).graph.edge slot.number t }
    {
        self.table.links.neighbours(slot)
    }

    pub fn phase(&self, slot: Slot) -> Phase
        ensures { result.parts ≡ (model self.now).graph.phase slot.number }
    {
        self.table.phases.at(slot)
    }

    // The leg of that number, if it is open.
    pub fn leg(&self, leg: LegNumber) -> Option<OpenLeg>
        ensures { maybe_leg result ≡ (model self.now).leg leg.number }
    {
        self.table.legs.get(leg)
    }

    // How many legs are open.
    pub fn open_legs(&self) -> usize
        ensures value { result ≡ open_count (model self.now) }
        ensures bound { result ≤ leg_limit }
    {
        self.table.legs.count()
    }

    pub fn scalar(&self) -> Scalar
        ensures { scale_of result ≡ (model self.now).scalar }
    {
        self.table.scalar
    }

    // Puts a spider into an empty slot that is not kept for an open leg. Whether it was done, as a set's own `insert`
    // answers, there being no more to tell: otherwise nothing changed. So it is with every change below that answers.
    // (One call that took the test and the change as closures would owe the invariants of a diagram for every change
    // that there is.)
    pub fn place(&mut self, slot: Slot, phase: Phase) -> bool
        ensures done { result ≡ can_place slot.number (model self.old) }
        ensures after { model self.new ≡ (if result then placed slot.number phase.parts (model self.old) else model self.old) }
    {
        let done = self.table.can_place(slot);
        if done {
            self.table.place(slot, phase);
        }
        done
    }

    // Takes a spider that has no open leg out, and its edges with it.
    pub fn remove(&mut self, slot: Slot) -> bool
        ensures done { result ≡ can_remove slot.number (model self.old) }
        ensures after { model self.new ≡ (if result then removed slot.number (model self.old) else model self.old) }
    {
        let done = !self.table.legs.boundary().holds(slot);
        if done {
            self.table.remove(slot);
        }
        done
    }

    // Turns every spider of a set of slots.
    pub fn turn(&mut self, set: &Row, phase: Phase)
        ensures { model self.new ≡ gained (has set.now) phase.parts (model self.old) }
    {
        self.table.turn(set, phase);
    }

    // Toggles the edge between two spiders.
    pub fn toggle(&mut self, a: Slot, b: Slot) -> bool
        ensures done { result ≡ can_join a.number b.number (model self.old) }
        ensures after { model self.new ≡ (if result then toggled a.number b.number (model self.old) else model self.old) }
    {
        let done = self.table.can_join(a, b);
        if done {
            self.table.toggle(a, b);
        }
        done
    }

    // Toggles the edge between every two neighbours of a slot.
    pub fn complement(&mut self, slot: Slot)
        ensures { model self.new ≡ complemented_around slot.number (model self.old) }
    {
        self.table.complement(slot);
    }

    // Toggles the edges between the neighbours of one slot and those of another.
    pub fn cross(&mut self, u: Slot, v: Slot)
        ensures { model self.new ≡ crossed u.number v.number (model self.old) }
    {
        self.table.cross(u, v);
    }

    // Fuses the spider of slot b into that of slot a.
    pub fn fuse(&mut self, a: Slot, b: Slot) -> bool
        ensures done { result ≡ can_fuse a.number b.number (model self.old) }
        ensures after { model self.new ≡ (if result then fused a.number b.number (model self.old) else model self.old) }
    {
        let done = self.table.can_join(a, b);
        if done {
            self.table.fuse(a, b);
        }
        done
    }

    // Opens a leg under a number that is free.
    pub fn attach(&mut self, leg: LegNumber, open: OpenLeg) -> bool
        ensures done { result ≡ can_attach leg.number (open_leg «open») (model self.old) }
        ensures after { model self.new ≡ (if result then attached leg.number (open_leg «open») (model self.old) else model self.old) }
    {
        let done = self.table.can_attach(leg, open);
        if done {
            self.table.legs.set(leg, Some(open));
        }
        done
    }

    // The leg of that number is open no more.
    pub fn detach(&mut self, leg: LegNumber)
        ensures { model self.new ≡ detached leg.number (model self.old) }
    {
        self.table.legs.set(leg, None);
    }

    // Multiplies by √2^k·w^m, where the power stays in reach. Zero stays zero.
    pub fn scale(&mut self, k: i32, m: Turn) -> bool
        ensures done { result ≡ can_scale k m.parts (model self.old) }
        ensures after { model self.new ≡ (if result then scaled k m.parts (model self.old) else model self.old) }
    {
        let Some(scalar) = self.table.scaled(k, m) else {
            return false;
        };
        self.table.scalar = scalar;
        true
    }

    // Makes the whole zero.
    pub fn make_zero(&mut self)
        ensures { model self.new ≡ zeroed (model self.old) }
    {
        self.table.scalar = Scalar::Zero;
    }

    // Holds a slot at a bit, as by a leg of a kind: through a Hadamard box by a half turn at 1, and straight by a
    // spider in the leg's own slot, joined to it, at half the amount. Whether the amount could be halved.
    pub fn hold(&mut self, slot: Slot, kind: Kind, leg: LegNumber, bit: bool) -> bool
        ensures done { result ≡ hold_pays slot.number kind leg.number bit (model self.old) }
        ensures after { model self.new ≡ held_if slot.number kind leg.number bit (model self.old) }
    {
        let phase = half_turn(bit);
        match kind {
            Kind::Hadamard => {
                self.turn(&Row::only(slot), phase);
                true
            }
            Kind::Plain => {
                let holder = holder(leg);
                let _ = self.place(holder, phase);
                let _ = self.toggle(holder, slot);
                self.scale(-2, Turn::of(0))
            }
        }
    }
}
