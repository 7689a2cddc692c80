// Graphs and their sums: why the rewriting rules keep the amount, in every lawful system of amounts.
// Each function stands for the theorems that its contract states.
#![tactic(auto)]

ghost use Rattle.amounts.specs.Amounts.{amounts_of};
ghost use Rattle.amounts.specs.Eighths.{eighths};
ghost use Rattle.graphs.specs.Rules.{ComplementSound, PivotSound, DropSound};
ghost use Rattle.graphs.specs.Literal.{TurnsAreLiteral};
ghost use Rattle.graphs.specs.Sorts.{BySorts, PivotIsThreeComplements};

use amounts::system::AmountSystem;

// In every system of amounts: local complementation pays √2·w at phase 1 and √2·w⁷ at phase 3, pivoting
// at phases 2a and 2b pays √2²·w^(4ab), and the removal of an isolated spider pays √2², or makes all zero.
pub fn rules_keep_the_sum<S: AmountSystem>()
    ensures complement { ComplementSound (amounts_of S S.operations) }
    ensures pivot { PivotSound (amounts_of S S.operations) }
    ensures removal { DropSound (amounts_of S S.operations) }
{}

// The same in ℤ[w], the numbers that the archive answers with. It is no instance of the one above: no type of the
// language has all numbers of ℤ[w] for its values, so none can be an `AmountSystem` that is ℤ[w].
pub fn rules_keep_the_exact_sum()
    ensures complement { ComplementSound eighths }
    ensures pivot { PivotSound eighths }
    ensures removal { DropSound eighths }
{}

// The sums above are sums of plain products: i^p for each slot of phase p that is set, and -1 for each
// edge between two that are.
pub fn terms_are_products<S: AmountSystem>()
    ensures { TurnsAreLiteral (amounts_of S S.operations) }
{}

// A pivot toggles the edges between neighbours of different sorts, and no others, and its phases go by
// sorts too.
pub fn pivot_goes_by_sorts()
    ensures { BySorts }
{}

// A pivot is three local complementations, at u, at v and at u, seen from all other slots.
pub fn pivot_is_three_complements()
    ensures { PivotIsThreeComplements }
{}
