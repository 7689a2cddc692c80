// One step by a rule, and runs of steps with a budget.
ghost use Rattle.std.specs.Prelude.{◌≡◌, if◌then◌else◌, Ok, Err};
ghost use Rattle.refusals.specs.declared.AskRefusal.TheVariants.{NoFit};
ghost use Rattle.reductions.specs.Runs.{ran};
ghost use Rattle.graphlike.specs.Diagrams.{model};
ghost use Rattle.rules.specs.Steps.{next_by, KeptByRun};

use crate::rule::Rule;
use graphlike::Diagram;
use refusals::AskRefusal;

// How many steps were made, and whether none is left. Every run has both, so neither is a flag for the other.
#[derive(Clone, Copy, Debug, PartialEq, Eq)]
pub struct Ran {
    pub steps: usize,
    pub finished: bool,
}

// A step at a spot; a spot that does not fit is refused, and changes nothing.
pub fn step<R: Rule>(rule: &R, diagram: &mut Diagram, spot: R::Spot) -> Result<(), AskRefusal>
    ensures value { result ≡ (if R.Rule.fits rule.now (model diagram.old) spot then Ok tt else Err NoFit) }
    ensures after { model diagram.new ≡ (if R.Rule.fits rule.now (model diagram.old) spot then R.Rule.does rule.now (model diagram.old) spot else model diagram.old) }
{
    rule.apply(diagram, spot)
}

// Steps by one rule while it finds a spot and the budget lasts.
pub fn run<R: Rule>(rule: &R, diagram: &mut Diagram, budget: usize) -> Ran
    ensures steps { result.steps ≡ (ran (next_by (R.Rule.finds rule.now) (R.Rule.does rule.now)) budget (model diagram.old)).steps }
    ensures finished { result.finished ≡ (ran (next_by (R.Rule.finds rule.now) (R.Rule.does rule.now)) budget (model diagram.old)).finished }
    ensures after { model diagram.new ≡ (ran (next_by (R.Rule.finds rule.now) (R.Rule.does rule.now)) budget (model diagram.old)).model }
    ensures kept { KeptByRun (model diagram.old) result.steps (model diagram.new) }
{
    for steps in 0..budget {
        let Some(spot) = rule.find(diagram) else {
            return Ran {
                steps,
                finished: true,
            };
        };
        let _ = step(rule, diagram, spot);
    }
    Ran {
        steps: budget,
        finished: rule.find(diagram).is_none(),
    }
}
