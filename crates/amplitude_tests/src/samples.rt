// Small diagrams drawn by a linear congruential generator.
ghost use Rattle.std.specs.Prelude.{◌<◌};

use crate::making::factor;
use angles::Phase;
use diagrams::items::{Colour, Item, Kind, Setting, Side};
use std::alloc::{AllocError, Global};

#[derive(Clone, Copy)]
pub struct Random {
    state: u64,
}

impl Random {
    pub fn new(seed: u64) -> Random {
        Random { state: seed }
    }

    // A number below a limit, and 0 where the limit is 0.
    fn below(&mut self, limit: u8) -> u8
        ensures { 0 < limit → result < limit }
    {
        self.state = self
            .state
            .wrapping_mul(6_364_136_223_846_793_005)
            .wrapping_add(1_442_695_040_888_963_407);
        let byte = ((self.state >> 52) & 0xff) as u8;
        byte.checked_rem(limit).unwrap_or(0)
    }

    // One of some values.
    fn pick<T: Copy, const N: usize>(&mut self, values: [T; N]) -> T
        requires some { 0 < N }
        requires few { N < 256 }
    {
        values[usize::from(self.below(N as u8))]
    }
}

// How many items are drawn: at most 5 spiders, 6 wires, 4 legs and 2 factors, and any number of zeros.
#[derive(Clone, Copy, Default)]
struct Drawn {
    spiders: u8,
    wires: u8,
    legs: u8,
    factors: u8,
}

impl Drawn {
    fn spider(&mut self, random: &mut Random) -> Option<Item> {
        if self.spiders >= 5 {
            return None;
        }
        self.spiders += 1;
        let colour = random.pick([Colour::Z, Colour::X]);
        let phase = Phase::of(random.below(4));
        Some(Item::spider(colour, phase))
    }

    // The ends are any two spiders so far, equal or not.
    fn wire(&mut self, random: &mut Random) -> Option<Item> {
        if self.spiders == 0 || self.wires >= 6 {
            return None;
        }
        self.wires += 1;
        let first = u16::from(random.below(self.spiders));
        let second = u16::from(random.below(self.spiders));
        let kind = random.pick([Kind::Plain, Kind::Hadamard]);
        Some(Item::wire(first, second, kind))
    }

    fn leg(&mut self, random: &mut Random) -> Option<Item> {
        if self.spiders == 0 || self.legs >= 4 {
            return None;
        }
        self.legs += 1;
        let side = random.pick([Side::Input, Side::Output]);
        let spider = u16::from(random.below(self.spiders));
        let kind = random.pick([Kind::Plain, Kind::Hadamard]);
        let setting = random.pick([
            Setting::HeldZero,
            Setting::HeldOne,
            Setting::Open,
            Setting::Open,
        ]);
        Some(Item::leg(side, spider, kind, setting))
    }

    fn factor(&mut self, random: &mut Random) -> Option<Item> {
        if self.factors >= 2 {
            return None;
        }
        self.factors += 1;
        let k = i32::from(random.below(7)) - 3;
        let m = random.below(8);
        Some(factor(k, m))
    }
}

// Up to 39 draws of an item, of which some give none.
pub fn draw(heap: Global, random: &mut Random) -> Result<Vec<Item>, AllocError> {
    let mut items = Vec::new(heap);
    let mut drawn = Drawn::default();
    for _ in 0..random.below(40) {
        let item = match random.below(10) {
            0..=2 => drawn.spider(random),
            3..=5 => drawn.wire(random),
            6 | 7 => drawn.leg(random),
            8 => drawn.factor(random),
            _ => (random.below(24) == 0).then_some(Item::Zero),
        };
        items.extend(item)?;
    }
    Ok(items)
}
