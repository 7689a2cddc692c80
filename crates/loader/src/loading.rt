// A loading under way.
ghost use Rattle.std.proofs.Props.{props};
ghost use Rattle.loadings.specs.Goods.{Good};
ghost use Rattle.graphlike.specs.Diagrams.{model};
ghost use Rattle.loader.specs.Givens.{loading_of};
ghost use Rattle.loader.specs.Points.{turn_once};

use crate::given::Given;
use arrayvec::ArrayVec;
use graphlike::Diagram;

pub mod take;

// The diagram so far, the spiders that were given, how many legs there were, and the number of the next item.
#[derive(Drop)]
pub(crate) struct Loading {
    pub(crate) diagram: Diagram,
    spiders: ArrayVec<Given, 256>,
    legs: usize,
    pub(crate) item: u32,
    // what holds at every point of a loading
    ghost good: { Good (loading_of (model diagram) spiders.items legs) } by { Prim.hlevel (turn_once, props) },
}
