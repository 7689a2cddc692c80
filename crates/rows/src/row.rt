// A set of slots as five words of bits.
ghost use Rattle.std.specs.Prelude.{◌≡◌, ℕ, ◌<◌, ◌≤◌, true, false, not, ◌&&◌, if◌then◌else◌, IsTrue, ◌↔◌, MatchOption, ◌==◌, nat_eq, length, slice_index};
ghost use Rattle.graphs.specs.Counts.{bit, total};
ghost use Rattle.graphs.specs.Rules.{xor};
ghost use Rattle.rows.specs.Rows.{has, bits_in, IsBare, IsLowest};

use crate::slot::Slot;
use crate::slots::Slots;

#[derive(Clone, Copy, PartialEq, Eq)]
pub struct Row {
    words: [u64; 5],
}

// How many bits of a word are set.
fn ones(word: u64) -> usize
    ensures value { result ≡ bits_in word }
    ensures bound { result ≤ 64 }
{
    word.count_ones() as usize
}

impl Row {
    pub fn empty() -> Row
        ensures { IsBare result }
    {
        Row { words: [0; 5] }
    }

    // The slot alone.
    pub fn only(slot: Slot) -> Row
        ensures { (i : ℕ) → has result i ≡ (i == slot.number) }
    {
        let mut row = Row::empty();
        row.insert(slot);
        row
    }

    // Whether the slot is in the set.
    pub fn holds(&self, slot: Slot) -> bool
        ensures { result ≡ has self.now slot.number }
    {
        (self.words[slot.number() / 64] >> (slot.number() % 64) as u32) & 1 == 1
    }

    // The slot of that number, if it is in the set.
    pub fn slot(&self, number: usize) -> Option<Slot>
        ensures { MatchOption result (has self.now number ≡ false) (λ s. (s.number ≡ number) × (has self.now number ≡ true)) }
    {
        Slot::new(number).filter(|slot| self.holds(*slot))
    }

    // Puts the slot in where it was not, and takes it out where it was.
    pub fn toggle(&mut self, slot: Slot)
        ensures { (i : ℕ) → has self.new i ≡ xor (has self.old i) (i == slot.number) }
    {
        let number = slot.number();
        self.words[number / 64] ^= 1 << (number % 64) as u32;
    }

    // Works each word with that of the other set, by its place: through a `zip` the proof does not see the words.
    fn combine<F: Fn(u64, u64) -> u64>(&mut self, other: &Row, work: F)
        requires { F.IsAlwaysCallable work }
        ensures long { length self.new.words ≡ 5 }
        ensures each { (k : ℕ) → k < 5 → F.post work (slice_index self.old.words k) (slice_index other.now.words k) (slice_index self.new.words k) }
    {
        for (place, word) in self.words.iter_mut().enumerate() {
            *word = work(*word, other.words[place]);
        }
    }

    // Toggles every slot of the other set.
    pub fn toggle_all(&mut self, other: &Row)
        ensures { (i : ℕ) → has self.new i ≡ xor (has self.old i) (has other.now i) }
    {
        self.combine(other, |mine, others| mine ^ others);
    }

    // Leaves only what is in the other set too.
    pub fn intersect(&mut self, other: &Row)
        ensures { (i : ℕ) → has self.new i ≡ has self.old i && has other.now i }
    {
        self.combine(other, |mine, others| mine & others);
    }

    // Takes out what is in the other set.
    pub fn subtract(&mut self, other: &Row)
        ensures { (i : ℕ) → has self.new i ≡ has self.old i && not (has other.now i) }
    {
        self.combine(other, |mine, others| mine ^ (mine & others));
    }

    // Puts the slot in or takes it out, where it is not so yet.
    pub fn put(&mut self, slot: Slot, inside: bool)
        ensures { (i : ℕ) → has self.new i ≡ (if nat_eq i slot.number then inside else has self.old i) }
    {
        if self.holds(slot) != inside {
            self.toggle(slot);
        }
    }

    // Puts the slot in, if it is not.
    pub fn insert(&mut self, slot: Slot)
        ensures { (i : ℕ) → has self.new i ≡ (if nat_eq i slot.number then true else has self.old i) }
    {
        self.put(slot, true);
    }

    // Takes the slot out, if it is in.
    pub fn remove(&mut self, slot: Slot)
        ensures { (i : ℕ) → has self.new i ≡ (if nat_eq i slot.number then false else has self.old i) }
    {
        self.put(slot, false);
    }

    // Whether no slot is in the set.
    pub fn is_empty(&self) -> bool
        ensures { IsTrue result ↔ IsBare self.now }
    {
        self.first().is_none()
    }

    // How many slots are in the set.
    pub fn len(&self) -> usize
        ensures { result ≡ total 320 (λ i. bit (has self.now i)) }
    {
        self.words.iter().map(|word| ones(*word)).sum()
    }

    // The slots of the set, the lowest first.
    pub fn iter(&self) -> Slots
        ensures { result.left ≡ self.now }
    {
        Slots::of(*self)
    }

    // The lowest slot of the set.
    pub fn first(&self) -> Option<Slot>
        ensures { MatchOption result (IsBare self.now) (λ s. IsLowest self.now s.number) }
    {
        for (index, word) in self.words.iter().enumerate() {
            if *word != 0 {
                return Slot::new(64 * index + word.trailing_zeros() as usize);
            }
        }
        None
    }
}
