// What the program says of a deposit, on one line.
ghost use Rattle.std.specs.Prelude.{◌≡◌, Some, Err};
ghost use Rattle.replies.specs.declared.report.Refusal.TheVariants.{Unloaded, Unasked};
ghost use Rattle.replies.specs.Reports.{reply, reply_of, report_line};
ghost use Rattle.replies.specs.Laws.{RightReply};

use crate::question::ask;
use archive::answer::Answer;
use circuits::text::CircuitText;
pub use deposits::input::INPUT_LIMIT;
use deposits::input::{circuit_part, row_part};
use graphlike::Diagram;
use loader::load::load;
use refusals::{AskRefusal, LoadRefusal};
use std::fmt;

// Why a deposit is not answered.
#[derive(Clone, Copy, Debug, PartialEq, Eq)]
pub enum Refusal {
    // more bytes than the program takes
    Long,
    // the circuit is refused
    Unloaded(LoadRefusal),
    // the row is refused
    Unasked(AskRefusal),
}

impl From<LoadRefusal> for Refusal {
    ghost from_gives = { λ why refusal. refusal ≡ Unloaded why };

    fn from(why: LoadRefusal) -> Refusal {
        Refusal::Unloaded(why)
    }
}

impl From<AskRefusal> for Refusal {
    ghost from_gives = { λ why refusal. refusal ≡ Unasked why };

    fn from(why: AskRefusal) -> Refusal {
        Refusal::Unasked(why)
    }
}

// Loads a deposit's circuit, and asks for its amplitude at the row.
pub fn respond(input: &[u8]) -> Result<Answer, Refusal>
    ensures value { reply_of result ≡ reply input.now }
    ensures right { RightReply input.now (reply_of result) }
{
    if input.len() > INPUT_LIMIT {
        return Err(Refusal::Long);
    }
    let mut diagram = Diagram::new();
    let mut source = CircuitText::new(circuit_part(input));
    load(&mut diagram, &mut source)?;
    Ok(ask(&diagram, row_part(input))?)
}

impl fmt::Display for Refusal {
    ghost output = { λ refusal. Some (report_line (Err refusal)) };

    fn fmt<W: fmt::Write>(&self, f: &mut fmt::Formatter<W>) -> fmt::Result {
        match *self {
            Refusal::Long => f.write_str("long"),
            Refusal::Unloaded(why) => why.fmt(f),
            Refusal::Unasked(why) => why.fmt(f),
        }
    }
}

// What there is to say to a deposit: the amplitude of its circuit at its row, or why it is not answered.
#[derive(Clone, Copy, Debug, PartialEq, Eq)]
pub struct Report {
    pub found: Result<Answer, Refusal>,
}

impl fmt::Display for Report {
    ghost output = { λ report. Some (report_line report.found) };

    fn fmt<W: fmt::Write>(&self, f: &mut fmt::Formatter<W>) -> fmt::Result {
        match self.found {
            Ok(answer) => answer.fmt(f),
            Err(refusal) => refusal.fmt(f),
        }
    }
}
