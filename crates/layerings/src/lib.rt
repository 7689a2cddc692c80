// The laws of the layers: what they do to amplitudes, whatever the source below gives.
// Each function with an empty body stands for the theorems that its contract states.
#![tactic(auto)]

ghost use Rattle.std.specs.Prelude.{◌≡◌, ℕ};
ghost use Rattle.amounts.specs.Eighths.{number, coefficients};
ghost use Rattle.amounts.specs.Scalars.{scalar};
ghost use Rattle.layerings.specs.Conjugates.{conj, Conjugation, ConjugateScalar, ConjugateNone, ConjugateSame};
ghost use Rattle.layerings.specs.Layerings.{AdjointConjugates, HoldFillsTheRow, OpenLegs};
ghost use Rattle.layerings.specs.Piles.{Piles, ShortPiles};

use angles::Turn;

// Conjugation keeps sums, products and √2, and turns every power of w back.
pub fn conjugation_is_an_automorphism()
    ensures laws { Conjugation }
    ensures scalar { ConjugateScalar }
    ensures none { ConjugateNone }
    ensures same { ConjugateSame }
{}

// The coefficients of the conjugate of a + b·w + c·w² + d·w³.
pub fn conjugate_coefficients(a: i32, b: i32, c: i32, d: i32) -> [i64; 4]
    ensures { result ≡ coefficients (conj (number a b c d)) }
{
    let (a, b, c, d) = (i64::from(a), i64::from(b), i64::from(c), i64::from(d));
    [a, -d, -c, -b]
}

// The turns of the conjugate of √2^a·w^m, whatever a is.
pub fn conjugate_turns(m: Turn) -> Turn
    ensures { (a : ℕ) → scalar a result.parts ≡ conj (scalar a m.parts) }
{
    -m
}

// The adjoint of any items has the conjugate of their amplitude at every row.
pub fn adjoint_conjugates()
    ensures { AdjointConjugates }
{}

// Items whose open legs are held have, at every row, the amplitude of the items below at the row that their
// settings and the row make.
pub fn hold_fills_the_row()
    ensures { HoldFillsTheRow }
{}

// How many legs are open above each layer, and that a full row has one bit for each that is open below.
pub fn open_legs_are_counted()
    ensures { OpenLegs }
{}

// A pile of any height: its amplitude is what its layers do, one after another, and some piles are equal.
pub fn piles_go_layer_by_layer()
    ensures any { Piles }
    ensures short { ShortPiles }
{}
