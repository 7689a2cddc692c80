// The phases of slots: which are odd, and which have a half turn.
ghost use Rattle.std.specs.Prelude.{◌≡◌, ℕ, ◌+◌, ◌*◌, ◌%◌, if◌then◌else◌, nat_eq};
ghost use Rattle.graphs.specs.Counts.{bit};
ghost use Rattle.rows.specs.Rows.{has};
ghost use Rattle.links.specs.Links.{phase_at, odd_at};

use angles::Phase;
use rows::row::Row;
use rows::slot::Slot;

// (Two rows of bits and no table of phases, so that a whole set is turned a word at a time.)
#[derive(Clone, Copy)]
pub struct Phases {
    odd: Row,
    half: Row,
}

// Whether a phase is odd, and whether it has a half turn.
fn flags(phase: Phase) -> (bool, bool)
    ensures { bit result.0 + 2 * bit result.1 ≡ phase.parts }
{
    let quarters = phase.quarters();
    (quarters % 2 == 1, quarters >= 2)
}

impl Phases {
    // No slot is turned.
    pub fn none() -> Phases
        ensures { (s : ℕ) → phase_at result s ≡ 0 }
    {
        let none = Row::empty();
        Phases {
            odd: none,
            half: none,
        }
    }

    pub fn at(&self, slot: Slot) -> Phase
        ensures { result.parts ≡ phase_at self.now slot.number }
    {
        let odd = self.odd.holds(slot);
        let half = self.half.holds(slot);
        Phase::of(u8::from(odd) + 2 * u8::from(half))
    }

    // The slots of odd phase.
    pub fn odd(&self) -> Row
        ensures { (s : ℕ) → has result s ≡ odd_at (phase_at self.now s) }
    {
        self.odd
    }

    // Turns every slot of a set.
    pub fn turn(&mut self, set: &Row, phase: Phase)
        ensures { (s : ℕ) → phase_at self.new s ≡ (if has set.now s then (phase_at self.old s + phase.parts) % 4 else phase_at self.old s) }
    {
        let (odd, half) = flags(phase);
        if odd {
            let mut carry = *set;
            carry.intersect(&self.odd);
            self.half.toggle_all(&carry);
            self.odd.toggle_all(set);
        }
        if half {
            self.half.toggle_all(set);
        }
    }

    // Sets the phase of one slot.
    pub fn set(&mut self, slot: Slot, phase: Phase)
        ensures { (s : ℕ) → phase_at self.new s ≡ (if nat_eq s slot.number then phase.parts else phase_at self.old s) }
    {
        let (odd, half) = flags(phase);
        self.odd.put(slot, odd);
        self.half.put(slot, half);
    }
}
