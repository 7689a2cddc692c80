// The removal of an interior spider of even phase that has no neighbour, as a rule.
ghost use Rattle.std.specs.Prelude.{◌≡◌, true, ◌==◌};
ghost use Rattle.graphlike.specs.Diagrams.{model};
ghost use Rattle.reductions.specs.Rules.{degree, drop_fits, dropped};
ghost use Rattle.reductions.specs.Runs.{first_drop};
ghost use Rattle.reductions.proofs.Removing.{removal_kept};
ghost use Rattle.reductions.proofs.Fits.{drop_at};
ghost use Rattle.models.specs.Models.{slots};
ghost use Rattle.reductions.proofs.Runs.{first_found};
ghost use Rattle.reducers.specs.Finding.{none_fits};

use crate::spots::interior_even;
use angles::Turn;
use graphlike::Diagram;
use refusals::AskRefusal;
use rows::slot::Slot;
use rules::rule::Rule;

#[derive(Clone, Copy)]
pub struct Removal;

// Whether a slot has no neighbour.
fn is_isolated(diagram: &Diagram, slot: Slot) -> bool
    ensures { result ≡ (degree (model diagram.now) slot.number == 0) }
{
    diagram.neighbours(slot).is_empty()
}

// Removal at a slot where it fits: at phase 0 it leaves a factor 2, and at phase 2 all is zero.
fn remove_at(diagram: &mut Diagram, slot: Slot)
    requires { drop_fits (model diagram.old) slot.number ≡ true }
    ensures { model diagram.new ≡ dropped slot.number (model diagram.old) }
{
    let phase = diagram.phase(slot);
    let _ = diagram.remove(slot);
    if phase.quarters() == 0 {
        let _ = diagram.scale(2, Turn::of(0));
    } else {
        diagram.make_zero();
    }
}

impl Rule for Removal {
    type Spot = usize;

    ghost fits = { λ _ m u. drop_fits m u };

    ghost does = { λ _ m u. dropped u m };

    ghost finds = { λ _ m. first_drop m };

    ghost keeps = { λ r m u good e. removal_kept m u good (drop_at m u good e) };

    ghost found = { λ r m u good e. (first_found slots 0 (drop_fits m) u e).passes };

    ghost none = { λ r m good e u. none_fits m good (drop_fits m) u (λ h. ((drop_at m u good h).even.here.stood, e)) };

    fn find(&self, diagram: &Diagram) -> Option<usize> {
        let even = interior_even(diagram);
        even.iter()
            .find(|slot| is_isolated(diagram, *slot))
            .map(|slot| slot.number())
    }

    fn apply(&self, diagram: &mut Diagram, spot: usize) -> Result<(), AskRefusal> {
        let slot = interior_even(diagram).slot(spot).ok_or(AskRefusal::NoFit)?;
        if !is_isolated(diagram, slot) {
            return Err(AskRefusal::NoFit);
        }
        remove_at(diagram, slot);
        Ok(())
    }
}
