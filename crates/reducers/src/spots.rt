// The slots of interior spiders, by their phases, and the lowest slot of a set.
ghost use Rattle.std.specs.Prelude.{◌≡◌, ℕ, not, ◌&&◌};
ghost use Rattle.rows.specs.Rows.{has};
ghost use Rattle.graphlike.specs.Diagrams.{model};
ghost use Rattle.reductions.specs.Rules.{interior, odd};
ghost use Rattle.reductions.specs.Runs.{first_from};

use graphlike::Diagram;
use rows::row::Row;

// The number of the lowest slot of a set.
pub(crate) fn first_number(row: &Row) -> Option<usize>
    ensures { result ≡ first_from 320 0 (has row.now) }
{
    row.first().map(|slot| slot.number())
}

// The slots of spiders without an open leg.
pub(crate) fn interior(diagram: &Diagram) -> Row
    ensures { (s : ℕ) → has result s ≡ interior (model diagram.now) s }
{
    let mut row = diagram.spiders();
    row.subtract(&diagram.boundary());
    row
}

// Those of odd phase. (These and those of even phase differ in the method that they call, and a parameter for it would
// be longer than the line that it saves.)
pub(crate) fn interior_odd(diagram: &Diagram) -> Row
    ensures { (s : ℕ) → has result s ≡ interior (model diagram.now) s && odd (model diagram.now) s }
{
    let mut row = interior(diagram);
    row.intersect(&diagram.odd());
    row
}

// Those of even phase.
pub(crate) fn interior_even(diagram: &Diagram) -> Row
    ensures { (s : ℕ) → has result s ≡ interior (model diagram.now) s && not (odd (model diagram.now) s) }
{
    let mut row = interior(diagram);
    row.subtract(&diagram.odd());
    row
}
