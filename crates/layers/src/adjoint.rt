// The adjoint of a diagram, over any source: phases and turns negated, inputs and outputs exchanged.
ghost use Rattle.std.specs.Prelude.{◌≡◌};
ghost use Rattle.layers.specs.Adjoints.{other_side, adjoint_item, adjoint_stream};

use diagrams::items::{Factor, Item, Leg, Side, Spider};
use diagrams::source::Source;
use refusals::Fault;

fn other_side(side: Side) -> Side
    ensures { result ≡ other_side side }
{
    match side {
        Side::Input => Side::Output,
        Side::Output => Side::Input,
    }
}

fn adjoint_item(item: Item) -> Item
    ensures { result ≡ adjoint_item item }
{
    match item {
        Item::Spider(spider) => Item::Spider(Spider {
            phase: -spider.phase,
            ..spider
        }),
        Item::Leg(leg) => Item::Leg(Leg {
            side: other_side(leg.side),
            ..leg
        }),
        Item::Factor(factor) => Item::Factor(Factor {
            m: -factor.m,
            ..factor
        }),
        Item::Wire(_) | Item::Zero => item,
    }
}

#[derive(Drop)]
pub struct Adjoint<S> {
    below: S,
}

impl<S> Adjoint<S> {
    // The adjoint of what that source gives.
    pub fn over(below: S) -> Adjoint<S>
        ensures { result.below ≡ below }
    {
        Adjoint { below }
    }
}

impl<S: Source> Source for Adjoint<S> {
    ghost rest = { λ s. adjoint_stream (S.Source.rest s.below) };

    fn next(&mut self) -> Result<Option<Item>, Fault> {
        Ok(self.below.next()?.map(adjoint_item))
    }
}
