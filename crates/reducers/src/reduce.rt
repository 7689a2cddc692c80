// Reduction of a working diagram: complementing where it fits, else pivoting, else removing.
ghost use Rattle.std.specs.Prelude.{◌≡◌};
ghost use Rattle.graphlike.specs.Diagrams.{model};
ghost use Rattle.reductions.specs.Runs.{reduced};
ghost use Rattle.rules.specs.Steps.{KeptByRun};

use crate::complement::Complement;
use crate::pivot::Pivot;
use crate::removal::Removal;
use graphlike::Diagram;
use rules::choice::OrElse;
use rules::run::{Ran, run};

// Steps by the three rules while one fits and the budget lasts.
pub fn reduce(diagram: &mut Diagram, budget: usize) -> Ran
    ensures steps { result.steps ≡ (reduced budget (model diagram.old)).steps }
    ensures finished { result.finished ≡ (reduced budget (model diagram.old)).finished }
    ensures after { model diagram.new ≡ (reduced budget (model diagram.old)).model }
    ensures kept { KeptByRun (model diagram.old) result.steps (model diagram.new) }
{
    let rule = OrElse {
        first: Complement,
        second: OrElse {
            first: Pivot,
            second: Removal,
        },
    };
    run(&rule, diagram, budget)
}
