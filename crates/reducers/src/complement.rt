// Local complementation at an interior spider of odd phase, as a rule.
ghost use Rattle.std.specs.Prelude.{◌≡◌, true};
ghost use Rattle.graphs.specs.Graphs.{odd_turn};
ghost use Rattle.graphlike.specs.Diagrams.{model};
ghost use Rattle.reductions.specs.Rules.{complement_fits, complemented};
ghost use Rattle.reductions.specs.Runs.{first_complement};
ghost use Rattle.reductions.proofs.Complementing.{complement_kept};
ghost use Rattle.reductions.proofs.Fits.{complement_at};
ghost use Rattle.models.specs.Models.{slots};
ghost use Rattle.reductions.proofs.Runs.{first_found};
ghost use Rattle.reducers.specs.Finding.{none_fits};

use crate::spots::{first_number, interior_odd};
use angles::{Phase, Turn};
use graphlike::Diagram;
use refusals::AskRefusal;
use rows::slot::Slot;
use rules::rule::Rule;
use std::ops::Neg;

#[derive(Clone, Copy)]
pub struct Complement;

// The turn that a complementation leaves: an eighth at phase 1, and seven at phase 3.
fn odd_turn(phase: Phase) -> Turn
    ensures { result.parts ≡ odd_turn phase.parts }
{
    if phase.quarters() == 1 {
        Turn::of(1)
    } else {
        Turn::of(7)
    }
}

// Local complementation at a slot where it fits: each neighbour turns back by the phase.
fn complement_at(diagram: &mut Diagram, slot: Slot)
    requires { complement_fits (model diagram.old) slot.number ≡ true }
    ensures { model diagram.new ≡ complemented slot.number (model diagram.old) }
{
    let phase = diagram.phase(slot);
    let neighbours = diagram.neighbours(slot);
    diagram.complement(slot);
    diagram.turn(&neighbours, -phase);
    let _ = diagram.remove(slot);
    let _ = diagram.scale(1, odd_turn(phase));
}

impl Rule for Complement {
    type Spot = usize;

    ghost fits = { λ _ m u. complement_fits m u };

    ghost does = { λ _ m u. complemented u m };

    ghost finds = { λ _ m. first_complement m };

    ghost keeps = { λ r m u good e. complement_kept m u good (complement_at m u good e) };

    ghost found = { λ r m u good e. (first_found slots 0 (complement_fits m) u e).passes };

    ghost none = { λ r m good e u. none_fits m good (complement_fits m) u (λ h. ((complement_at m u good h).here.stood, e)) };

    fn find(&self, diagram: &Diagram) -> Option<usize> {
        first_number(&interior_odd(diagram))
    }

    fn apply(&self, diagram: &mut Diagram, spot: usize) -> Result<(), AskRefusal> {
        let slot = interior_odd(diagram).slot(spot).ok_or(AskRefusal::NoFit)?;
        complement_at(diagram, slot);
        Ok(())
    }
}
