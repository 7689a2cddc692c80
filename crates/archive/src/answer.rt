// The amplitude of a diagram at a row.
ghost use Rattle.std.specs.Prelude.{◌≡◌, ℕ, ◌+◌, ◌<◌, Some, Ok, Err, MatchResult, nat_lt, position};
ghost use Rattle.std.specs.Slice.Iter.{iter_rest};
ghost use Rattle.models.specs.Edits.{blank};
ghost use Rattle.reductions.specs.Answers.{closed, closed_from, closed_leg, Right};
ghost use Rattle.parts.specs.Tables.{open_leg};
ghost use Rattle.graphlike.specs.Diagrams.{model};
ghost use Rattle.archive.specs.Questions.{bits, judged_row, asked, answer_is};

use graphlike::Diagram;
use parts::leg::{LEGS, LegNumber, OpenLeg};
use parts::scalar::Scalar;
use reducers::reduce::reduce;
use refusals::AskRefusal;
use rows::slot::SLOTS;
use std::slice::Iter;

// The amplitude, zero or √2^k·w^m, and the steps that it took.
#[derive(Clone, Copy, Debug, PartialEq, Eq)]
pub struct Answer {
    pub scalar: Scalar,
    pub steps: usize,
}

// The place of the first byte that is no bit.
fn first_bad(row: &[u8]) -> Option<usize>
    ensures { result ≡ position (λ b. nat_lt 1 b) row.now }
{
    row.iter().position(|byte| *byte > 1)
}

// Closes an open leg at a bit.
fn close(work: &mut Diagram, leg: LegNumber, open: OpenLeg, bit: bool)
    requires { (model work.old).leg leg.number ≡ Some (open_leg «open») }
    ensures { model work.new ≡ closed_leg leg.number (open_leg «open») bit (model work.old) }
{
    work.detach(leg);
    let _ = work.hold(open.slot, open.kind, leg, bit);
}

// Closes the leg of a number, if it is open, at the bit that the next byte of a row gives, or at 0 past its end.
fn close_number(work: &mut Diagram, number: usize, bytes: &mut Iter<'_, u8>)
    ensures { number < 64 → (n : ℕ) → closed_from (n + 1) number (bits (iter_rest bytes.old)) (model work.old) ≡ closed_from n (number + 1) (bits (iter_rest bytes.new)) (model work.new) }
{
    let Some(leg) = LegNumber::new(number) else {
        return;
    };
    if let Some(open) = work.leg(leg) {
        let bit = bytes.next().copied() == Some(1);
        close(work, leg, open, bit);
    }
}

// Closes every open leg at its bit of a row, in the order of the legs' numbers, which are what is walked here.
fn close_all(work: &mut Diagram, row: &[u8])
    ensures { model work.new ≡ closed (bits row.now) (model work.old) }
{
    let mut bytes = row.iter();
    for number in 0..LEGS {
        close_number(work, number, &mut bytes);
    }
}

// Refuses a row of another length than the open legs, and one with a byte that is no bit.
fn judge(diagram: &Diagram, row: &[u8]) -> Result<(), AskRefusal>
    ensures { result ≡ judged_row row.now (model diagram.now) }
{
    if row.len() != diagram.open_legs() {
        return Err(AskRefusal::RowLength);
    }
    if let Some(place) = first_bad(row) {
        return Err(AskRefusal::RowByte(place));
    }
    Ok(())
}

// The amplitude of a diagram at a row of one byte for each open leg, 0 or 1. The diagram stays as it is, and the
// work diagram is left with nothing.
pub fn amplitude(diagram: &Diagram, row: &[u8], work: &mut Diagram) -> Result<Answer, AskRefusal>
    ensures value { MatchResult result (λ a. asked row.now (model diagram.now) ≡ Ok (answer_is a)) (λ e. asked row.now (model diagram.now) ≡ Err e) }
    ensures right { MatchResult result (λ a. Right (model diagram.now) (bits row.now) (answer_is a)) (λ _. 0 < 1) }
    ensures after { model work.new ≡ blank }
{
    *work = Diagram::new();
    judge(diagram, row)?;
    *work = *diagram;
    close_all(work, row);
    let ran = reduce(work, SLOTS);
    let scalar = work.scalar();
    *work = Diagram::new();
    Ok(Answer {
        scalar,
        steps: ran.steps,
    })
}
