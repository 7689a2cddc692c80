// Items made in one call from what they are made of.
ghost use Rattle.std.specs.Prelude.{◌≡◌};
ghost use Rattle.diagrams.specs.declared.items.Item.TheVariants as item;

use super::{Colour, Factor, Item, Kind, Leg, Setting, Side, Spider, Wire};
use crate::power::Power;
use angles::{Phase, Turn};

impl Item {
    pub fn spider(colour: Colour, phase: Phase) -> Item
        ensures { result ≡ item.Spider (record { colour = colour; phase = phase }) }
    {
        Item::Spider(Spider { colour, phase })
    }

    pub fn wire(first: u16, second: u16, kind: Kind) -> Item
        ensures { result ≡ item.Wire (record { first = first; second = second; kind = kind }) }
    {
        Item::Wire(Wire {
            first,
            second,
            kind,
        })
    }

    pub fn leg(side: Side, spider: u16, kind: Kind, setting: Setting) -> Item
        ensures { result ≡ item.Leg (record { side = side; spider = spider; kind = kind; setting = setting }) }
    {
        Item::Leg(Leg {
            side,
            spider,
            kind,
            setting,
        })
    }

    pub fn factor(k: Power, m: Turn) -> Item
        ensures { result ≡ item.Factor (record { k = k; m = m }) }
    {
        Item::Factor(Factor { k, m })
    }
}
