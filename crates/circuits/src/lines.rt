// The lines of circuit text, read whole: the first line, and a gate with its qubits.
ghost use Rattle.circuits.specs.Lines.{name_at, qubit_at, other_at, count_at, operands_at, gate_at, head_from};

use crate::cursor::Cursor;
use crate::gates::{Double, Gate, Single};
use refusals::Fault;

// What a letter names: a gate on one qubit or on two.
#[derive(Clone, Copy)]
pub enum Name {
    OneQubit(Single),
    TwoQubits(Double),
}

// A letter that names no gate.
#[derive(Clone, Copy, Debug, PartialEq, Eq)]
pub struct NoGate;

impl TryFrom<char> for Name {
    type Error = NoGate;

    ghost use Rattle.circuits.specs.Naming.{Names};

    ghost try_from_gives = { Names };

    fn try_from(letter: char) -> Result<Name, NoGate> {
        match letter {
            'h' => Ok(Name::OneQubit(Single::Hadamard)),
            's' => Ok(Name::OneQubit(Single::S)),
            'd' => Ok(Name::OneQubit(Single::SInverse)),
            'x' => Ok(Name::OneQubit(Single::PauliX)),
            'z' => Ok(Name::OneQubit(Single::PauliZ)),
            'c' => Ok(Name::TwoQubits(Double::ControlledX)),
            'e' => Ok(Name::TwoQubits(Double::ControlledZ)),
            _ => Err(NoGate),
        }
    }
}

impl<'a> Cursor<'a> {
    ghost use Rattle.circuits.specs.Reads.{Reads};

    // The gate that the letter there names.
    fn name(&mut self) -> Result<Name, Fault>
        ensures { Reads name_at self.old result self.new }
    {
        let token = self.letter()?;
        let letter = token.letter().ok_or(Fault::NotALetter(self.at))?;
        let name = Name::try_from(letter).map_err(|_| Fault::NotALetter(self.at))?;
        self.at += 1;
        Ok(name)
    }

    // A qubit below the count.
    fn qubit(&mut self, qubits: u8) -> Result<u8, Fault>
        ensures { Reads (qubit_at qubits) self.old result self.new }
    {
        self.number_in(0..qubits)
    }

    // A qubit below the count that is not the first one.
    fn other_qubit(&mut self, qubits: u8, first: u8) -> Result<u8, Fault>
        ensures { Reads (other_at qubits first) self.old result self.new }
    {
        let space = self.at;
        let second = self.qubit(qubits)?;
        if second == first {
            return Err(Fault::EqualQubits(space + 1));
        }
        Ok(second)
    }

    // A count of qubits, 1 to 16.
    fn count(&mut self) -> Result<u8, Fault>
        ensures { Reads count_at self.old result self.new }
    {
        self.number_in(1..17)
    }

    // The qubits of a gate and the end of its line.
    fn operands(&mut self, qubits: u8, name: Name) -> Result<Gate, Fault>
        ensures { Reads (λ bs p. operands_at qubits bs p name) self.old result self.new }
    {
        match name {
            Name::OneQubit(single) => {
                let only = self.qubit(qubits)?;
                self.end_line()?;
                Ok(Gate::One(single, only))
            }
            Name::TwoQubits(double) => {
                let first = self.qubit(qubits)?;
                let second = self.other_qubit(qubits, first)?;
                self.end_line()?;
                Ok(Gate::Two(double, first, second))
            }
        }
    }

    // The gate of the line there.
    pub(crate) fn gate(&mut self, qubits: u8) -> Result<Gate, Fault>
        ensures { Reads (gate_at qubits) self.old result self.new }
    {
        let name = self.name()?;
        self.operands(qubits, name)
    }

    // The count of qubits of the line there, the first one.
    pub(crate) fn first_line(&mut self) -> Result<u8, Fault>
        ensures { Reads head_from self.old result self.new }
    {
        if self.letter()?.letter() != Some('n') {
            return Err(Fault::NotALetter(self.at));
        }
        self.at += 1;
        let qubits = self.count()?;
        self.end_line()?;
        Ok(qubits)
    }
}
