// What a rule is: a kind of spot, which spots fit a diagram, what a step makes there, and what every step keeps.
ghost use Rattle.std.specs.Prelude.{◌≡◌, Bool, true, false, if◌then◌else◌, Some, None, Ok, Err, Option};
ghost use Rattle.refusals.specs.declared.AskRefusal.TheVariants.{NoFit};
ghost use Rattle.models.specs.Models.{Model, Sound};
ghost use Rattle.reductions.specs.Kept.{Kept};
ghost use Rattle.graphlike.specs.Diagrams.{model};

use graphlike::Diagram;
use refusals::AskRefusal;

pub trait Rule {
    type Spot: Copy;

    // whether the rule fits at a spot, what it makes there, and which spot it finds
    ghost fits: { Self → Model → Self.Spot → Bool };

    ghost does: { Self → Model → Self.Spot → Model };

    ghost finds: { Self → Model → Option Self.Spot };

    fn find(&self, diagram: &Diagram) -> Option<Self::Spot>
        ensures { result ≡ finds self.now (model diagram.now) };

    // A step where it fits; elsewhere a refusal that changes nothing.
    fn apply(&self, diagram: &mut Diagram, spot: Self::Spot) -> Result<(), AskRefusal>
        ensures value { result ≡ (if fits self.now (model diagram.old) spot then Ok tt else Err NoFit) }
        ensures after { model diagram.new ≡ (if fits self.now (model diagram.old) spot then does self.now (model diagram.old) spot else model diagram.old) };

    // where it fits, the amplitude at every row stays, fewer spiders stand, the scalar moves little, and the open
    // legs keep their numbers and sides
    ghost keeps: { (r : Self) (m : Model) (s : Self.Spot) → Sound m → fits r m s ≡ true → Kept m (does r m s) };

    // it finds a spot that fits, and none only where none fits
    ghost found: { (r : Self) (m : Model) (s : Self.Spot) → Sound m → finds r m ≡ Some s → fits r m s ≡ true };

    ghost none: { (r : Self) (m : Model) → Sound m → finds r m ≡ None → (s : Self.Spot) → fits r m s ≡ false };
}
