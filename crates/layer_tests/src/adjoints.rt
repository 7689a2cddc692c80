// The adjoint of each kind of item.
use crate::asking::gives;
use angles::{Phase, Turn};
use diagrams::items::{Colour, Item, Kind, Setting, Side};
use diagrams::power::Power;
use diagrams::source::Listed;
use layers::adjoint::Adjoint;
use std::process::Abort;

fn adjoint_of(rt: &impl Abort, item: Item, other: Item) {
    let items = [item];
    gives(rt, &mut Adjoint::over(Listed::new(&items)), &[other]);
}

#[test]
fn spiders(rt: HostRuntime) {
    for colour in [Colour::Z, Colour::X] {
        for (quarters, other) in [(0, 0), (1, 3), (2, 2), (3, 1)] {
            adjoint_of(
                &rt,
                Item::spider(colour, Phase::of(quarters)),
                Item::spider(colour, Phase::of(other)),
            );
        }
    }
}

#[test]
fn factors(rt: HostRuntime) {
    for exponent in [-30_000, -1, 0, 7, 30_000] {
        let k = Power::of(exponent);
        adjoint_of(
            &rt,
            Item::factor(k, Turn::of(0)),
            Item::factor(k, Turn::of(0)),
        );
        for m in 1..8 {
            adjoint_of(
                &rt,
                Item::factor(k, Turn::of(m)),
                Item::factor(k, Turn::of(8 - m)),
            );
        }
    }
}

#[test]
fn legs(rt: HostRuntime) {
    for setting in [Setting::Open, Setting::HeldZero, Setting::HeldOne] {
        adjoint_of(
            &rt,
            Item::leg(Side::Input, 4, Kind::Plain, setting),
            Item::leg(Side::Output, 4, Kind::Plain, setting),
        );
        adjoint_of(
            &rt,
            Item::leg(Side::Output, 9, Kind::Plain, setting),
            Item::leg(Side::Input, 9, Kind::Plain, setting),
        );
    }
}

#[test]
fn what_stays(rt: HostRuntime) {
    for kind in [Kind::Plain, Kind::Hadamard] {
        for wire in [Item::wire(3, 5, kind), Item::wire(5, 3, kind)] {
            adjoint_of(&rt, wire, wire);
        }
    }
    adjoint_of(&rt, Item::Zero, Item::Zero);
}
