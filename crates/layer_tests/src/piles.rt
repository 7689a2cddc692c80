// Layers on layers, four deep, over a slice of items and over circuit text.
use crate::asking::{breaks, gives};
use angles::{Phase, Turn};
use circuits::text::CircuitText;
use diagrams::items::{Colour, Item, Kind, Setting, Side};
use diagrams::power::Power;
use diagrams::source::Listed;
use layers::adjoint::Adjoint;
use layers::settings::Settings;
use refusals::Fault;
use std::test::Fail;

#[test]
fn over_items(rt: HostRuntime) -> Result<(), Fail> {
    let items = [
        Item::spider(Colour::Z, Phase::of(1)),
        Item::leg(Side::Input, 0, Kind::Plain, Setting::Open),
        Item::leg(Side::Input, 0, Kind::Plain, Setting::HeldOne),
        Item::leg(Side::Output, 0, Kind::Plain, Setting::Open),
        Item::leg(Side::Output, 0, Kind::Plain, Setting::Open),
        Item::factor(Power::of(2), Turn::of(3)),
    ];
    let first = Settings::new(&[2, 0, 1])?.over(Listed::new(&items));
    let second = Settings::new(&[0, 0, 0, 2])?.over(Adjoint::over(first));
    gives(
        &rt,
        &mut Adjoint::over(second),
        &[
            Item::spider(Colour::Z, Phase::of(1)),
            Item::leg(Side::Input, 0, Kind::Plain, Setting::HeldZero),
            Item::leg(Side::Input, 0, Kind::Plain, Setting::HeldOne),
            Item::leg(Side::Output, 0, Kind::Plain, Setting::HeldOne),
            Item::leg(Side::Output, 0, Kind::Plain, Setting::Open),
            Item::factor(Power::of(2), Turn::of(3)),
        ],
    );
    Ok(())
}

#[test]
fn over_text(rt: HostRuntime) -> Result<(), Fail> {
    let first = Settings::new(&[2, 1])?.over(CircuitText::new(b"n 1\ns 0\n"));
    let second = Settings::new(&[2, 0])?.over(Adjoint::over(first));
    gives(
        &rt,
        &mut Adjoint::over(second),
        &[
            Item::spider(Colour::Z, Phase::of(0)),
            Item::leg(Side::Input, 0, Kind::Plain, Setting::Open),
            Item::spider(Colour::Z, Phase::of(1)),
            Item::wire(0, 1, Kind::Plain),
            Item::leg(Side::Output, 1, Kind::Plain, Setting::HeldOne),
        ],
    );
    Ok(())
}

// Three adjoints and a hold: one adjoint is left.
#[test]
fn odd_over_text(rt: HostRuntime) -> Result<(), Fail> {
    let first = Adjoint::over(CircuitText::new(b"n 1\nd 0\n"));
    let second = Adjoint::over(Settings::new(&[1])?.over(first));
    gives(
        &rt,
        &mut Adjoint::over(second),
        &[
            Item::spider(Colour::Z, Phase::of(0)),
            Item::leg(Side::Output, 0, Kind::Plain, Setting::HeldOne),
            Item::spider(Colour::Z, Phase::of(1)),
            Item::wire(0, 1, Kind::Plain),
            Item::leg(Side::Input, 1, Kind::Plain, Setting::Open),
        ],
    );
    Ok(())
}

#[test]
fn a_fault(rt: HostRuntime) -> Result<(), Fail> {
    let first = Settings::new(&[0])?.over(CircuitText::new(b"n 1\nq 0\n"));
    let second = Settings::new(&[])?.over(Adjoint::over(first));
    breaks(
        &rt,
        &mut Adjoint::over(second),
        &[
            Item::spider(Colour::Z, Phase::of(0)),
            Item::leg(Side::Input, 0, Kind::Plain, Setting::HeldZero),
        ],
        Fault::NotALetter(4),
    );
    let first = Settings::new(&[0])?.over(CircuitText::new(b"n 2"));
    breaks(
        &rt,
        &mut Adjoint::over(Adjoint::over(Adjoint::over(first))),
        &[],
        Fault::NoLineEnd(3),
    );
    Ok(())
}

// Two adjoints give back every item.
#[test]
fn two_adjoints(rt: HostRuntime) {
    let items = [
        Item::spider(Colour::X, Phase::of(3)),
        Item::wire(0, 0, Kind::Hadamard),
        Item::leg(Side::Output, 0, Kind::Plain, Setting::HeldZero),
        Item::factor(Power::of(-30_000), Turn::of(5)),
        Item::Zero,
    ];
    gives(
        &rt,
        &mut Adjoint::over(Adjoint::over(Listed::new(&items))),
        &items,
    );
}
