// What a source gave, counted.
ghost use Rattle.std.specs.Prelude.{◌≡◌, Some, Ok, MatchResult};
ghost use Rattle.diagrams.specs.Streams.{finish, broken, only};
ghost use Rattle.deposits.specs.Tallies.{counted, tally_of};

use diagrams::items::{Item, Side};
use diagrams::source::Source;
use refusals::Fault;
use std::fmt;

// How many items of each sort there were, each count up to the largest number of its type. A
// circuit has an input leg for each qubit.
#[derive(Clone, Copy, Debug, Default, PartialEq, Eq)]
pub struct Tally {
    pub qubits: u64,
    pub spiders: u64,
    pub wires: u64,
    pub legs: u64,
}

impl Tally {
    fn counted(mut self, item: Item) -> Tally
        ensures { result ≡ counted self item }
    {
        match item {
            Item::Spider(_) => self.spiders = self.spiders.saturating_add(1),
            Item::Wire(_) => self.wires = self.wires.saturating_add(1),
            Item::Leg(leg) => {
                self.legs = self.legs.saturating_add(1);
                if leg.side == Side::Input {
                    self.qubits = self.qubits.saturating_add(1);
                }
            }
            Item::Factor(_) | Item::Zero => {}
        }
        self
    }
}

// Asks the source up to its end, or up to its fault.
pub fn tally_all<S: Source>(source: &mut S) -> Result<Tally, Fault>
    ensures cases { MatchResult result (λ t. ((S.Source.rest source.old).ending ≡ finish) × (t ≡ tally_of (S.Source.rest source.old).items)) (λ f. (S.Source.rest source.old).ending ≡ broken f) }
    ensures left { S.Source.rest source.new ≡ only (S.Source.rest source.old).ending }
{
    let mut tally = Tally::default();
    while let Some(item) = source.next()? {
        tally = tally.counted(item);
    }
    Ok(tally)
}

impl fmt::Display for Tally {
    ghost use Rattle.deposits.specs.Reports.{line_of};

    ghost output = { λ tally. Some (line_of (Ok tally)) };

    fn fmt<W: fmt::Write>(&self, f: &mut fmt::Formatter<W>) -> fmt::Result {
        let Tally {
            qubits,
            spiders,
            wires,
            legs,
        } = *self;
        write!(
            f,
            "accepted {qubits} qubits, {spiders} spiders, {wires} wires, {legs} legs"
        )
    }
}
