// What a working diagram holds, without what holds of it; and its changes, one call each, so that a diagram is
// sound before and after.
ghost use Rattle.std.specs.Prelude.{◌≡◌, ◌+◌, ◌*◌, ◌^◌, ◌<◌, true, false, MatchOption, ◌≢◌, nat_le};
ghost use Rattle.graphs.specs.Counts.{bit};
ghost use Rattle.rows.specs.Rows.{has};
ghost use Rattle.models.specs.Models.{Sound, size, standing, open_count, reach_limit};
ghost use Rattle.models.specs.Edits.{blank, reserved, product, can_place, can_join, can_attach, can_scale};
ghost use Rattle.models.specs.Edits.{placed, removed, gained, toggled, complemented_around, crossed, fused};
ghost use Rattle.parts.specs.Scales.{scale_of};
ghost use Rattle.parts.specs.Tables.{open_leg};
ghost use Rattle.graphlike.specs.Shapes.{shape};

use angles::{Phase, Turn};
use links::links::Links;
use links::phases::Phases;
use parts::leg::{HOLDERS, LegNumber, OpenLeg, holder};
use parts::legs::Legs;
use parts::scalar::{REACH, Scalar};
use rows::row::Row;
use rows::slot::Slot;
use std::ops::Add;

pub mod diagram;

#[derive(Clone, Copy)]
pub struct Table {
    links: Links,
    standing: Row,
    phases: Phases,
    legs: Legs,
    scalar: Scalar,
}

// A half turn, or none.
fn half_turn(whether: bool) -> Phase
    ensures { result.parts ≡ 2 * bit whether }
{
    if whether { Phase::of(2) } else { Phase::of(0) }
}

impl Table {
    fn blank() -> Table
        ensures { shape result ≡ blank }
    {
        Table {
            links: Links::empty(),
            standing: Row::empty(),
            phases: Phases::none(),
            legs: Legs::none(),
            scalar: Scalar::Root(0, Turn::of(0)),
        }
    }

    // What the power of the root of two may still come to, from that of a scalar. (`usize` has no `From<u32>`.)
    fn reach(&self, scalar: Scalar) -> usize
        ensures value { result ≡ size (scale_of scalar) + 2 * standing (shape self.now) + 4 * open_count (shape self.now) }
        ensures bound { result < 2 ^ 33 }
    {
        scalar.size() as usize + 2 * self.standing.len() + 4 * self.legs.count()
    }

    // Whether the power of a scalar stays in reach with some more to come, as for a spider or a leg.
    fn has_room(&self, scalar: Scalar, more: usize) -> bool
        requires { more < 2 ^ 33 }
        ensures { result ≡ nat_le (size (scale_of scalar) + 2 * standing (shape self.now) + 4 * open_count (shape self.now) + more) reach_limit }
    {
        // (`usize` has no `From<u32>`)
        self.reach(scalar) + more <= REACH as usize
    }

    // Whether a slot is kept for the spider that will hold a leg, which is open.
    fn is_reserved(&self, slot: Slot) -> bool
        ensures { result ≡ reserved (shape self.now) slot.number }
    {
        slot.number()
            .checked_sub(HOLDERS)
            .and_then(LegNumber::new)
            .is_some_and(|leg| self.legs.get(leg).is_some())
    }

    fn can_place(&self, slot: Slot) -> bool
        ensures { result ≡ can_place slot.number (shape self.now) }
    {
        let room = self.has_room(self.scalar, 2);
        !self.standing.holds(slot) && !self.is_reserved(slot) && room
    }

    fn can_join(&self, a: Slot, b: Slot) -> bool
        ensures { result ≡ can_join a.number b.number (shape self.now) }
    {
        a != b && self.standing.holds(a) && self.standing.holds(b)
    }

    fn can_attach(&self, leg: LegNumber, open: OpenLeg) -> bool
        ensures { result ≡ can_attach leg.number (open_leg «open») (shape self.now) }
    {
        let room = self.has_room(self.scalar, 4);
        let taken = self.legs.get(leg).is_some();
        !taken && self.standing.holds(open.slot) && !self.standing.holds(holder(leg)) && room
    }

    // The scalar times √2^k·w^m, where its power stays in reach.
    fn scaled(&self, k: i32, m: Turn) -> Option<Scalar>
        ensures { MatchOption result (can_scale k m.parts (shape self.now) ≡ false) (λ s. (can_scale k m.parts (shape self.now) ≡ true) × (scale_of s ≡ product k m.parts (shape self.now).scalar)) }
    {
        let scalar = self.scalar.times(k, m)?;
        self.has_room(scalar, 0).then_some(scalar)
    }

    fn place(&mut self, slot: Slot, phase: Phase)
        ensures { shape self.new ≡ placed slot.number phase.parts (shape self.old) }
    {
        self.standing.insert(slot);
        self.phases.set(slot, phase);
    }

    fn remove(&mut self, slot: Slot)
        requires { Sound (shape self.old) }
        ensures { shape self.new ≡ removed slot.number (shape self.old) }
    {
        let neighbours = self.links.neighbours(slot);
        self.links.cross(&Row::only(slot), &neighbours);
        self.phases.set(slot, Phase::of(0));
        self.standing.remove(slot);
    }

    fn turn(&mut self, set: &Row, phase: Phase)
        ensures { shape self.new ≡ gained (has set.now) phase.parts (shape self.old) }
    {
        let mut spiders = *set;
        spiders.intersect(&self.standing);
        self.phases.turn(&spiders, phase);
    }

    fn toggle(&mut self, a: Slot, b: Slot)
        requires { a.number ≢ b.number }
        ensures { shape self.new ≡ toggled a.number b.number (shape self.old) }
    {
        self.links.toggle(a, b);
    }

    fn complement(&mut self, slot: Slot)
        ensures { shape self.new ≡ complemented_around slot.number (shape self.old) }
    {
        let neighbours = self.links.neighbours(slot);
        self.links.complement(&neighbours);
    }

    fn cross(&mut self, u: Slot, v: Slot)
        ensures { shape self.new ≡ crossed u.number v.number (shape self.old) }
    {
        let of_u = self.links.neighbours(u);
        let of_v = self.links.neighbours(v);
        self.links.cross(&of_u, &of_v);
    }

    fn fuse(&mut self, a: Slot, b: Slot)
        requires sound { Sound (shape self.old) }
        requires apart { a.number ≢ b.number }
        ensures { shape self.new ≡ fused a.number b.number (shape self.old) }
    {
        let of_b = self.links.neighbours(b);
        let between = half_turn(of_b.holds(a));
        let mut others = of_b;
        others.remove(a);
        self.links.cross(&Row::only(a), &others);
        self.links.cross(&Row::only(b), &of_b);
        let phase = self.phases.at(a) + self.phases.at(b) + between;
        self.phases.set(a, phase);
        self.phases.set(b, Phase::of(0));
        self.legs.lead(a, b);
        self.standing.remove(b);
    }
}
