// Pivoting at two joined interior spiders of even phases, as a rule.
ghost use Rattle.std.specs.Prelude.{◌≡◌, ℕ, ◌*◌, ◌%◌, true, ◌&&◌};
ghost use Rattle.rows.specs.Rows.{has};
ghost use Rattle.graphlike.specs.Diagrams.{model};
ghost use Rattle.reductions.specs.Rules.{pivot_fits, pivoted};
ghost use Rattle.reductions.specs.Runs.{first_pivot, first_from};
ghost use Rattle.reductions.proofs.Pivoting.{pivot_kept};
ghost use Rattle.reductions.proofs.Fits.{pivot_at};
ghost use Rattle.models.specs.Models.{slots};
ghost use Rattle.reductions.proofs.Runs.{first_found, first_pair_found, first_pair_none};
ghost use Rattle.reducers.specs.Finding.{none_fits};
ghost use Rattle.std.proofs.Common.{arith};

use crate::spots::interior_even;
use angles::{Phase, Turn};
use graphlike::Diagram;
use reductions::Pair;
use refusals::AskRefusal;
use rows::row::Row;
use rows::slot::Slot;
use rules::rule::Rule;

#[derive(Clone, Copy)]
pub struct Pivot;

// The neighbours of a slot that are in a set.
fn partners(diagram: &Diagram, set: &Row, slot: Slot) -> Row
    ensures { (t : ℕ) → has result t ≡ (model diagram.now).graph.edge slot.number t && has set.now t }
{
    let mut row = diagram.neighbours(slot);
    row.intersect(set);
    row
}

// The turn that a pivot leaves: a half turn where both phases are 2, and else none.
fn half_turns(a: Phase, b: Phase) -> Turn
    ensures { result.parts ≡ a.parts * b.parts % 8 }
{
    Turn::of(a.quarters() * b.quarters())
}

// Pivoting at two slots where it fits: each neighbour of the one turns by the phase of the other, and the
// neighbours of both by a half turn more.
fn pivot_at(diagram: &mut Diagram, u: Slot, v: Slot)
    requires { pivot_fits (model diagram.old) u.number v.number ≡ true }
    ensures { model diagram.new ≡ pivoted u.number v.number (model diagram.old) }
{
    let of_u = diagram.neighbours(u);
    let of_v = diagram.neighbours(v);
    let mut both = of_u;
    both.intersect(&of_v);
    let phase_u = diagram.phase(u);
    let phase_v = diagram.phase(v);
    diagram.cross(u, v);
    diagram.turn(&of_u, phase_v);
    diagram.turn(&of_v, phase_u);
    diagram.turn(&both, Phase::of(2));
    let _ = diagram.remove(u);
    let _ = diagram.remove(v);
    let _ = diagram.scale(2, half_turns(phase_u, phase_v));
}

impl Rule for Pivot {
    type Spot = Pair;

    ghost fits = { λ _ m p. pivot_fits m p.first p.second };

    ghost does = { λ _ m p. pivoted p.first p.second m };

    ghost finds = { λ _ m. first_pivot m };

    ghost keeps = { λ r m p good e. pivot_kept m p.first p.second good (pivot_at m p.first p.second good e) };

    ghost found = { λ r m p good e. (first_found slots 0 (pivot_fits m p.first) p.second (first_pair_found slots 0 (λ u. first_from slots 0 (pivot_fits m u)) p e).gives).passes };

    ghost none = { λ r m good e p.
        none_fits m good (pivot_fits m p.first) p.second
        (λ h.
        let at = pivot_at m p.first p.second good h in
        (at.second.here.stood, first_pair_none slots 0 (λ u. first_from slots 0 (pivot_fits m u)) e p.first (omega arith) (good.inside p.first at.first.here.stood))) };

    fn find(&self, diagram: &Diagram) -> Option<Pair> {
        let even = interior_even(diagram);
        // (two searches left by a label: a rule of the project)
        'found: {
            for u in even.iter() {
                let partners = partners(diagram, &even, u);
                for v in partners.iter() {
                    if u.number() < v.number() {
                        break 'found Some(Pair {
                            first: u.number(),
                            second: v.number(),
                        });
                    }
                }
            }
            None
        }
    }

    fn apply(&self, diagram: &mut Diagram, spot: Pair) -> Result<(), AskRefusal> {
        let even = interior_even(diagram);
        let u = even.slot(spot.first).ok_or(AskRefusal::NoFit)?;
        let v = even.slot(spot.second).ok_or(AskRefusal::NoFit)?;
        if spot.first >= spot.second || !diagram.neighbours(u).holds(v) {
            return Err(AskRefusal::NoFit);
        }
        pivot_at(diagram, u, v);
        Ok(())
    }
}
