// Circuit text as a source. It borrows the text and copies none of it.
ghost use Rattle.std.specs.Prelude.{◌+◌, ◌*◌, ◌≤◌};
ghost use Rattle.circuits.specs.Circuits.{spiders_before};

use crate::cursor::Cursor;
use crate::gates::Gate;
use crate::wiring::Wiring;

pub mod source;

// What is being given: nothing yet, the qubits of the first line, the gate of a line with the
// wiring that it found, or the ends of the qubits. (It is told in data: a closure that gave it
// would have to be boxed, and kept from call to call.)
#[derive(Clone, Copy)]
pub enum Part {
    Unread,
    Opening,
    Placed(Gate, Wiring),
    Closing,
}

#[derive(Drop)]
pub struct CircuitText<'a> {
    // none where the text is too long
    short: Option<ShortText<'a>>,
}

// A text that is not too long, and how far it is read and given.
#[derive(Drop)]
struct ShortText<'a> {
    // where the next line begins
    cursor: Cursor<'a>,
    qubits: u8,
    wiring: Wiring,
    part: Part,
    // how many items of the part are given: a source is asked for one at a time, so that no loop can count them
    given: usize,
    ghost narrow: { qubits ≤ 16 },
    ghost few: { 2 * wiring.spiders ≤ 32 + cursor.at },
    ghost fewer: { 2 * spiders_before part ≤ 32 + cursor.at },
}
