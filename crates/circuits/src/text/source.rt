// How circuit text is read: the items of a line only when the line is whole.
ghost use Rattle.std.specs.Prelude.{◌≡◌, ℕ, List, [], ◌∷◌, MatchOption};
ghost use Rattle.std.specs.List.{slice_get};
ghost use Rattle.diagrams.specs.Streams.{finish, ◌▸◌};
ghost use Rattle.circuits.specs.declared.gates.Gate.{Gate};
ghost use Rattle.circuits.specs.Gates.{circuit_items};
ghost use Rattle.circuits.specs.Spelling.{Spells, Spelling};
ghost use Rattle.circuits.specs.Lines.{head_from};
ghost use Rattle.circuits.specs.Circuits.{circuit, part_items, headed, scripted, gates_from};
ghost use Rattle.circuits.specs.Sources.{left, still, Spent, Went};

use super::{CircuitText, Part, ShortText};
use crate::cursor::Cursor;
use crate::wiring::Wiring;
use diagrams::items::Item;
use diagrams::source::Source;
use refusals::Fault;

impl<'a> CircuitText<'a> {
    // Every text has its meaning; one that spells a circuit gives its items and then the end, and
    // no other text comes to the end.
    pub fn new(text: &'a [u8]) -> CircuitText<'a>
        ensures rest { still result ≡ circuit text.now }
        ensures spelled { (n : ℕ) (gs : List Gate) → Spells n gs text.now → still result ≡ circuit_items n gs finish }
        ensures accepted { (still result).ending ≡ finish → Spelling text.now }
    {
        let Some(cursor) = Cursor::new(text) else {
            return CircuitText { short: None };
        };
        CircuitText {
            short: Some(ShortText {
                cursor,
                qubits: 0,
                wiring: Wiring::fresh(0),
                part: Part::Unread,
                given: 0,
            }),
        }
    }
}

impl<'a> ShortText<'a> {
    // The next item of the part, if one is left.
    fn item(&self) -> Option<Item>
        ensures { result ≡ slice_get (part_items self.now.qubits self.now.wiring self.now.part) self.now.given }
    {
        match self.part {
            Part::Unread => None,
            Part::Opening => Wiring::opening_item(self.qubits, self.given),
            Part::Placed(gate, before) => before.gate_item(gate, self.given),
            Part::Closing => self.wiring.closing_item(self.qubits, self.given),
        }
    }

    // Takes the next item of the part, if one is left.
    #[tactic(auto, using(crate::proofs::Readings::given_few, crate::proofs::Readings::taken, crate::proofs::Readings::none_left), unfolding(crate::specs::Sources::left))]
    fn take(&mut self) -> Option<Item>
        ensures { MatchOption result (Spent self.old × Spent self.new × (left self.new ≡ left self.old)) (λ x. left self.old ≡ x ∷ [] ▸ left self.new) }
    {
        let item = self.item()?;
        self.given += 1;
        Some(item)
    }

    // Reads the first line.
    fn open(&mut self) -> Result<(), Fault>
        ensures { Went (headed self.old.cursor.text.now (head_from self.old.cursor.text.now self.old.cursor.at)) self.old result self.new }
    {
        let mut cursor = self.cursor;
        let qubits = cursor.first_line()?;
        *self = ShortText {
            cursor,
            qubits,
            wiring: Wiring::fresh(qubits),
            part: Part::Opening,
            given: 0,
        };
        Ok(())
    }

    // Reads the next line, or comes to the end.
    fn go_on(&mut self) -> Result<(), Fault>
        ensures { Went (scripted self.old.qubits self.old.wiring (gates_from self.old.qubits self.old.cursor.text.now self.old.cursor.at)) self.old result self.new }
    {
        let mut cursor = self.cursor;
        if cursor.is_at_end() {
            self.part = Part::Closing;
            self.given = 0;
            return Ok(());
        }
        let gate = cursor.gate(self.qubits)?;
        let before = self.wiring;
        let mut after = before;
        after.add(gate);
        self.cursor = cursor;
        self.wiring = after;
        self.part = Part::Placed(gate, before);
        self.given = 0;
        Ok(())
    }

    // Goes on to the next part once all items of this one are given.
    #[tactic(auto, using(crate::proofs::Readings::all_taken))]
    fn advance(&mut self) -> Result<(), Fault>
        requires { Spent self.old }
        ensures { Went (left self.old) self.old result self.new }
    {
        match self.part {
            Part::Unread => self.open(),
            Part::Opening | Part::Placed(_, _) => self.go_on(),
            Part::Closing => Ok(()),
        }
    }
}

impl<'a> Source for ShortText<'a> {
    ghost rest = { left };

    fn next(&mut self) -> Result<Option<Item>, Fault> {
        if let Some(item) = self.take() {
            return Ok(Some(item));
        }
        self.advance()?;
        Ok(self.take())
    }
}

impl<'a> Source for CircuitText<'a> {
    ghost rest = { still };

    fn next(&mut self) -> Result<Option<Item>, Fault> {
        match &mut self.short {
            Some(text) => text.next(),
            None => Err(Fault::TextTooLong),
        }
    }
}
