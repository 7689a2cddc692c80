// How far a circuit is wired, and the items that its gates give.
ghost use Rattle.std.specs.Prelude.{◌≡◌, ◌+◌, ◌≤◌, slice_set};
ghost use Rattle.std.specs.List.{slice_get};
ghost use Rattle.circuits.specs.Gates.{gate_items, wired, fresh, opening, closing, last_of, single_spider, single_kind, second_colour, between_kind, spiders_of};

use crate::gates::{Double, Gate, Single};
use angles::{Phase, Turn};
use diagrams::items::{Colour, Item, Kind, Setting, Side};
use diagrams::power::Power;

// The last spider of each qubit, and how many spiders there are. (That these are few is asked by two
// functions, and is no invariant of a model: tried, and the check does not cover how a value is dropped
// that holds a reference beside a struct with a model.)
#[derive(Clone, Copy)]
pub struct Wiring {
    last: [u16; 16],
    spiders: u16,
}

fn single_spider(gate: Single) -> Item
    ensures { result ≡ single_spider gate }
{
    match gate {
        Single::Hadamard => Item::spider(Colour::Z, Phase::of(0)),
        Single::S => Item::spider(Colour::Z, Phase::of(1)),
        Single::SInverse => Item::spider(Colour::Z, Phase::of(3)),
        Single::PauliX => Item::spider(Colour::X, Phase::of(2)),
        Single::PauliZ => Item::spider(Colour::Z, Phase::of(2)),
    }
}

fn single_kind(gate: Single) -> Kind
    ensures { result ≡ single_kind gate }
{
    match gate {
        Single::Hadamard => Kind::Hadamard,
        Single::S | Single::SInverse | Single::PauliX | Single::PauliZ => Kind::Plain,
    }
}

fn second_colour(gate: Double) -> Colour
    ensures { result ≡ second_colour gate }
{
    match gate {
        Double::ControlledX => Colour::X,
        Double::ControlledZ => Colour::Z,
    }
}

fn between_kind(gate: Double) -> Kind
    ensures { result ≡ between_kind gate }
{
    match gate {
        Double::ControlledX => Kind::Plain,
        Double::ControlledZ => Kind::Hadamard,
    }
}

impl Wiring {
    // Before any gate, each qubit ends at the spider of its own number.
    pub(crate) fn fresh(qubits: u8) -> Wiring
        ensures { result ≡ fresh qubits }
    {
        Wiring {
            last: [0, 1, 2, 3, 4, 5, 6, 7, 8, 9, 10, 11, 12, 13, 14, 15],
            spiders: u16::from(qubits),
        }
    }

    fn last_of(&self, qubit: u8) -> u16
        ensures { result ≡ last_of self.now qubit }
    {
        self.last.get(usize::from(qubit)).copied().unwrap_or(0)
    }

    // The item of that number, from 0, that the gate gives. (A match on the number: an array of a gate's items, tried,
    // makes all of them for each one that is asked, which is 1.4 times the instructions of a text of controlled gates.)
    pub(crate) fn gate_item(&self, gate: Gate, step: usize) -> Option<Item>
        requires { self.now.spiders ≤ 65000 }
        ensures { result ≡ slice_get (gate_items self.now gate) step }
    {
        let one = self.spiders;
        let other = self.spiders + 1;
        match gate {
            Gate::One(single, qubit) => match step {
                0 => Some(single_spider(single)),
                1 => Some(Item::wire(self.last_of(qubit), one, single_kind(single))),
                _ => None,
            },
            Gate::Two(double, first, second) => match step {
                0 => Some(Item::spider(Colour::Z, Phase::of(0))),
                1 => Some(Item::spider(second_colour(double), Phase::of(0))),
                2 => Some(Item::wire(self.last_of(first), one, Kind::Plain)),
                3 => Some(Item::wire(self.last_of(second), other, Kind::Plain)),
                4 => Some(Item::wire(one, other, between_kind(double))),
                5 => Some(Item::factor(Power::of(1), Turn::of(0))),
                _ => None,
            },
        }
    }

    // The item of that number that the first line gives.
    #[tactic(auto, using(crate::proofs::Legs::opening_legs))]
    pub(crate) fn opening_item(qubits: u8, step: usize) -> Option<Item>
        ensures { result ≡ slice_get (opening 0 qubits) step }
    {
        let qubit = step / 2;
        if qubit >= usize::from(qubits) {
            None
        } else if step % 2 == 0 {
            Some(Item::spider(Colour::Z, Phase::of(0)))
        } else {
            Some(Item::leg(Side::Input, qubit as u16, Kind::Plain, Setting::Open))
        }
    }

    // The item of that number that the end of the circuit gives.
    #[tactic(auto, using(crate::proofs::Legs::closing_legs))]
    pub(crate) fn closing_item(&self, qubits: u8, step: usize) -> Option<Item>
        ensures { result ≡ slice_get (closing qubits self.now) step }
    {
        if step >= usize::from(qubits) {
            return None;
        }
        Some(Item::leg(
            Side::Output,
            self.last_of(step as u8),
            Kind::Plain,
            Setting::Open,
        ))
    }

    // A test and an index: with `get_mut` the proof did not close.
    #[tactic(auto, using(std::proofs::lemmas::List::set_past))]
    fn set_last(&mut self, qubit: u8, spider: u16)
        ensures last { self.new.last ≡ slice_set self.old.last qubit spider }
        ensures spiders { self.new.spiders ≡ self.old.spiders }
    {
        let at = usize::from(qubit);
        if at < self.last.len() {
            self.last[at] = spider;
        }
    }

    // Goes on past the gate.
    pub(crate) fn add(&mut self, gate: Gate)
        requires { self.old.spiders ≤ 65000 }
        ensures { self.new ≡ wired self.old gate }
    {
        let one = self.spiders;
        match gate {
            Gate::One(_, qubit) => {
                self.set_last(qubit, one);
                self.spiders = one + 1;
            }
            Gate::Two(_, first, second) => {
                self.set_last(first, one);
                self.set_last(second, one + 1);
                self.spiders = one + 2;
            }
        }
    }
}
