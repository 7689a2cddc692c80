// Two rules are again a rule: its spot is one of the first or one of the second, and it looks for the first's.
ghost use Rattle.rules.specs.Steps.{either_fits, either_does, either_finds};
ghost use Rattle.std.proofs.Common.{rules};

use crate::rule::Rule;
use graphlike::Diagram;
use refusals::AskRefusal;

// The kit's Either would say Left and Right of what a pair of rules calls first and second.
#[derive(Clone, Copy, Debug, PartialEq, Eq)]
pub enum Choice<A, B> {
    First(A),
    Second(B),
}

// Steps by the first rule, and where it finds none by the second.
#[derive(Clone, Copy)]
pub struct OrElse<A, B> {
    pub first: A,
    pub second: B,
}

impl<A: Rule, B: Rule> Rule for OrElse<A, B> {
    type Spot = Choice<A::Spot, B::Spot>;

    ghost fits = { λ r m s. either_fits (A.Rule.fits r.first m) (B.Rule.fits r.second m) s };

    ghost does = { λ r m s. either_does (A.Rule.does r.first m) (B.Rule.does r.second m) s };

    ghost finds = { λ r m. either_finds (A.Rule.finds r.first m) (B.Rule.finds r.second m) };

    ghost keeps = { Prim.search rules };

    ghost found = { Prim.search rules };

    ghost none = { Prim.search rules };

    // Tried with `map` and `or_else`: the proof of a `map` whose function returns a type that names B did not close.
    fn find(&self, diagram: &Diagram) -> Option<Choice<A::Spot, B::Spot>> {
        if let Some(spot) = self.first.find(diagram) {
            return Some(Choice::First(spot));
        }
        let spot = self.second.find(diagram)?;
        Some(Choice::Second(spot))
    }

    fn apply(
        &self,
        diagram: &mut Diagram,
        spot: Choice<A::Spot, B::Spot>,
    ) -> Result<(), AskRefusal> {
        match spot {
            Choice::First(at) => self.first.apply(diagram, at),
            Choice::Second(at) => self.second.apply(diagram, at),
        }
    }
}
