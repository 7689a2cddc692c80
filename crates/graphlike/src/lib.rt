// The working diagram: a graph of Z spiders and Hadamard edges with open legs and a scalar. Every call is
// total, and pinned by an equation with its meaning.
#![tactic(auto)]

mod table;

pub use table::diagram::Diagram;
