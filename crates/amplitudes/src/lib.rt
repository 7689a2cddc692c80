// What the amplitude of a list of items is: the definitions are in specs/, and each function here stands
// for the theorem that its contract states.
#![tactic(auto)]

ghost use Rattle.amounts.specs.Amounts.{amounts_of};
ghost use Rattle.amplitudes.specs.Exponents.{TermsArePowers};
ghost use Rattle.amplitudes.specs.Worked.{WorkedAmounts};

use amounts::system::AmountSystem;

// In every system of amounts, the term of a list of items, a product with a factor for each spider, wire
// and leg, is zero or i to the power of its quarter turns.
pub fn terms_are_powers<S: AmountSystem>()
    ensures { TermsArePowers (amounts_of S S.operations) }
{}

// The amplitudes of some small diagrams and circuits, in ℤ[w].
pub fn worked_amounts()
    ensures { WorkedAmounts }
{}
