// Items in short.
use angles::{Phase, Turn};
use diagrams::items::{Colour, Item, Kind, Setting, Side};
use diagrams::power::Power;

pub fn green(quarters: u8) -> Item {
    Item::spider(Colour::Z, Phase::of(quarters))
}

pub fn hadamard(first: u16, second: u16) -> Item {
    Item::wire(first, second, Kind::Hadamard)
}

pub fn leg(spider: u16, kind: Kind, setting: Setting) -> Item {
    Item::leg(Side::Output, spider, kind, setting)
}

pub fn open(spider: u16) -> Item {
    leg(spider, Kind::Plain, Setting::Open)
}

pub fn factor(k: i32, m: u8) -> Item {
    Item::factor(Power::of(k), Turn::of(m))
}
