// The gates of a stabilizer circuit.

// A gate on one qubit.
#[derive(Clone, Copy, Debug, PartialEq, Eq)]
pub enum Single {
    Hadamard,
    S,
    SInverse,
    PauliX,
    PauliZ,
}

// A gate on two qubits.
#[derive(Clone, Copy, Debug, PartialEq, Eq)]
pub enum Double {
    ControlledX,
    ControlledZ,
}

// A gate on its qubits, of a controlled one the control first.
#[derive(Clone, Copy, Debug, PartialEq, Eq)]
pub enum Gate {
    One(Single, u8),
    Two(Double, u8, u8),
}
