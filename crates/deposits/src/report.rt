// What the program says of a deposit, on one line.
ghost use Rattle.std.specs.Prelude.{◌≡◌, Some, Err};
ghost use Rattle.deposits.specs.declared.report.Refusal.TheVariants.{Unreadable};
ghost use Rattle.deposits.specs.Reports.{report, line_of};

pub use crate::input::INPUT_LIMIT;
use crate::input::circuit_part;
use crate::tally::{Tally, tally_all};
use circuits::text::CircuitText;
use refusals::Fault;
use std::fmt;

// Why a deposit is not accepted.
#[derive(Clone, Copy, Debug, PartialEq, Eq)]
pub enum Refusal {
    // more bytes than the program takes
    Long,
    // the circuit has this fault
    Unreadable(Fault),
}

impl From<Fault> for Refusal {
    ghost from_gives = { λ fault refusal. refusal ≡ Unreadable fault };

    fn from(fault: Fault) -> Refusal {
        Refusal::Unreadable(fault)
    }
}

// Reads a deposit's circuit to its end.
pub fn examine(input: &[u8]) -> Result<Tally, Refusal>
    ensures { result ≡ report input.now }
{
    if input.len() > INPUT_LIMIT {
        return Err(Refusal::Long);
    }
    let mut source = CircuitText::new(circuit_part(input));
    Ok(tally_all(&mut source)?)
}

impl fmt::Display for Refusal {
    ghost output = { λ refusal. Some (line_of (Err refusal)) };

    fn fmt<W: fmt::Write>(&self, f: &mut fmt::Formatter<W>) -> fmt::Result {
        match *self {
            Refusal::Long => f.write_str("long"),
            Refusal::Unreadable(fault) => fault.fmt(f),
        }
    }
}

// What there is to say of a deposit: what its circuit has, or why it is not accepted.
#[derive(Clone, Copy, Debug, PartialEq, Eq)]
pub struct Report {
    pub found: Result<Tally, Refusal>,
}

impl fmt::Display for Report {
    ghost output = { λ report. Some (line_of report.found) };

    fn fmt<W: fmt::Write>(&self, f: &mut fmt::Formatter<W>) -> fmt::Result {
        match self.found {
            Ok(tally) => tally.fmt(f),
            Err(refusal) => refusal.fmt(f),
        }
    }
}
