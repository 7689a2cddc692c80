// Circuits are the matrices of their gates.
// Each function stands for the theorem that its contract states.
#![tactic(auto)]

ghost use Rattle.matrices.specs.Matrices.{CircuitsAreMatrices, TextsAreMatrices, AcceptedTextsAreMatrices};

// The items of a circuit of at most 16 qubits have the amplitude that its gates' matrices give, at every row
// of inputs and outputs.
pub fn circuits_are_their_matrices()
    ensures { CircuitsAreMatrices }
{}

// So have the items that a text which spells a circuit gives, and every text that ends without a fault
// spells one.
pub fn texts_are_their_matrices()
    ensures spelled { TextsAreMatrices }
    ensures accepted { AcceptedTextsAreMatrices }
{}
