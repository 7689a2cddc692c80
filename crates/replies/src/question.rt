// The row of a deposit as a question.
ghost use Rattle.std.specs.Prelude.{◌≡◌, ℕ, ◌<◌, take, Ok, Err, MatchResult};
ghost use Rattle.reductions.specs.Answers.{Right};
ghost use Rattle.graphlike.specs.Diagrams.{model};
ghost use Rattle.archive.specs.Questions.{asked, answer_is, bits};
ghost use Rattle.replies.specs.Input.{row_byte, row_bytes};

use archive::answer::{Answer, amplitude};
use arrayvec::ArrayVec;
use graphlike::Diagram;
use refusals::AskRefusal;

// One more than the legs that there may be: a longer row is too long all the same.
const ROW: usize = 65;

// A character of the row as a byte: 0 and 1 are bits, and any other counts as 2. (A number for what is no bit: so it
// is with the bytes of a row, whose place is then told.)
fn row_byte(character: u8) -> u8
    ensures { result ≡ row_byte character }
{
    match character {
        b'0' => 0,
        b'1' => 1,
        _ => 2,
    }
}

// The first characters of a line as the bytes of a row.
fn row_bytes(line: &[u8]) -> ArrayVec<u8, ROW>
    ensures { result.items ≡ row_bytes (take 65 line.now) }
{
    let line = &line[..ROW.min(line.len())];
    let mut row = ArrayVec::new();
    for character in line {
        row.push(row_byte(*character));
    }
    row
}

// Asks for the amplitude at the row that a line spells.
pub(crate) fn ask(diagram: &Diagram, line: &[u8]) -> Result<Answer, AskRefusal>
    ensures value { MatchResult result (λ a. asked (row_bytes line.now) (model diagram.now) ≡ Ok (answer_is a)) (λ e. asked (row_bytes line.now) (model diagram.now) ≡ Err e) }
    ensures right { MatchResult result (λ a. Right (model diagram.now) (bits (row_bytes line.now)) (answer_is a)) (λ _. 0 < 1) }
{
    let mut work = Diagram::new();
    amplitude(diagram, row_bytes(line).as_slice(), &mut work)
}
