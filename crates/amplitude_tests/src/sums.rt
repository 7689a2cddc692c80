// The amplitude of a list of items, told from the items alone: the sum over all bits of its spiders.
use diagrams::items::{Colour, Item, Kind, Leg, Setting};
use parts::scalar::Scalar;
use std::ops::Add;

// a + b·w + c·w² + d·w³, where w⁴ is -1. No number here comes near its width.
#[derive(Clone, Copy, Debug, Default, PartialEq, Eq)]
pub struct Amount {
    a: i64,
    b: i64,
    c: i64,
    d: i64,
}

impl Add for Amount {
    type Output = Amount;

    fn add(self, other: Amount) -> Amount {
        Amount {
            a: self.a.wrapping_add(other.a),
            b: self.b.wrapping_add(other.b),
            c: self.c.wrapping_add(other.c),
            d: self.d.wrapping_add(other.d),
        }
    }
}

impl Amount {
    const ONE: Amount = Amount {
        a: 1,
        b: 0,
        c: 0,
        d: 0,
    };

    // Times w that many times.
    fn turned(self, eighths: u8) -> Amount {
        (0..eighths).fold(
            self,
            |amount, _| Amount {
                a: amount.d.wrapping_neg(),
                b: amount.a,
                c: amount.b,
                d: amount.c,
            },
        )
    }

    // Times √2 = w - w³ that many times, and as it is where that is none.
    fn rooted(self, times: i32) -> Amount {
        (0..times).fold(
            self,
            |amount, _| Amount {
                a: amount.b.wrapping_sub(amount.d),
                b: amount.a.wrapping_add(amount.c),
                c: amount.b.wrapping_add(amount.d),
                d: amount.c.wrapping_sub(amount.a),
            },
        )
    }
}

// √2^power·amount.
#[derive(Clone, Copy, Debug, PartialEq, Eq)]
pub struct Sum {
    power: i32,
    amount: Amount,
}

impl Sum {
    pub fn is_zero(self) -> bool {
        self.amount == Amount::default()
    }

    // Whether the scalar is that amount.
    pub fn is(self, scalar: Scalar) -> bool {
        match scalar {
            Scalar::Zero => self.is_zero(),
            Scalar::Root(k, m) => {
                let mine = self.amount.rooted(self.power.wrapping_sub(k));
                let told = Amount::ONE.turned(m.eighths());
                mine == told.rooted(k.wrapping_sub(self.power))
            }
        }
    }
}

// The bit at a place, and 0 past the last.
pub fn bit(bits: u32, place: u16) -> bool {
    place < 32 && (bits >> u32::from(place)) & 1 == 1
}

// The colour of the spider of that number, and Z where there is none.
fn colour_of(items: &[Item], number: u16) -> Colour {
    items
        .iter()
        .filter_map(|item| match item {
            Item::Spider(spider) => Some(spider.colour),
            _ => None,
        })
        .nth(usize::from(number))
        .unwrap_or(Colour::Z)
}

// Whether a wire or leg is an effective Hadamard one, from its kind and the spiders at its ends.
fn is_hadamard(items: &[Item], kind: Kind, ends: &[u16]) -> bool {
    ends.iter().fold(kind == Kind::Hadamard, |boxed, end| {
        boxed != (colour_of(items, *end) == Colour::X)
    })
}

// The amount times what a wire or leg is between two bits.
fn joined(amount: Amount, hadamard: bool, first: bool, second: bool) -> Amount {
    match hadamard {
        true if first && second => amount.turned(4),
        false if first != second => Amount::default(),
        _ => amount,
    }
}

// The term of one way to give bits to the spiders, at a row.
fn term(items: &[Item], bits: u32, row: u32) -> Amount {
    let mut amount = Amount::ONE;
    // the bits of the spiders and of the open legs to come
    let mut spiders = (0..32).map(|place| bit(bits, place));
    let mut opened = (0..32).map(|place| bit(row, place));
    for item in items {
        amount = match *item {
            Item::Spider(spider) => match spiders.next() {
                Some(true) => amount.turned(spider.phase.to_turn().eighths()),
                _ => amount,
            },
            Item::Wire(wire) => {
                let hadamard = is_hadamard(items, wire.kind, &[wire.first, wire.second]);
                joined(
                    amount,
                    hadamard,
                    bit(bits, wire.first),
                    bit(bits, wire.second),
                )
            }
            Item::Leg(leg) => {
                let own = match leg.setting {
                    Setting::Open => opened.next() == Some(true),
                    Setting::HeldZero => false,
                    Setting::HeldOne => true,
                };
                let hadamard = is_hadamard(items, leg.kind, &[leg.spider]);
                joined(amount, hadamard, bit(bits, leg.spider), own)
            }
            Item::Factor(factor) => amount.turned(factor.m.eighths()),
            Item::Zero => Amount::default(),
        };
    }
    amount
}

// The power of √2 that factors give, and that Hadamard wires and legs take.
fn power(items: &[Item]) -> i32 {
    items
        .iter()
        .map(|item| match *item {
            Item::Wire(wire) if is_hadamard(items, wire.kind, &[wire.first, wire.second]) => -1,
            Item::Leg(leg) if is_hadamard(items, leg.kind, &[leg.spider]) => -1,
            Item::Factor(factor) => factor.k.exponent(),
            _ => 0,
        })
        .fold(0i32, |power, more| power.wrapping_add(more))
}

// How many ways there are to give bits to the spiders.
fn ways(items: &[Item]) -> u32 {
    items
        .iter()
        .filter(|item| matches!(item, Item::Spider(_)))
        .fold(1u32, |ways, _| ways.wrapping_mul(2))
}

// How many legs are open.
pub fn open_legs(items: &[Item]) -> usize {
    items
        .iter()
        .filter(|item| matches!(
            item,
            Item::Leg(Leg {
                setting: Setting::Open,
                ..
            })
        ))
        .count()
}

pub fn sum_at(items: &[Item], row: u32) -> Sum {
    let amount = (0..ways(items))
        .map(|bits| term(items, bits, row))
        .fold(Amount::default(), |sum, term| sum + term);
    Sum {
        power: power(items),
        amount,
    }
}
