// Angles, powers, and the number, place and layer of every refusal.
use angles::{Phase, Turn};
use diagrams::items::{Colour, Factor, Item, Kind, Leg, Setting, Side, Spider, Wire};
use diagrams::power::Power;
use diagrams::source::{Listed, Source};
use refusals::reason::Reason;
use refusals::{AskRefusal, Fault, Layer, LoadRefusal, WriteRefusal};
use std::process::Abort;
use std::test::Fail;

#[test]
fn quarter_turns(rt: HostRuntime) {
    for p in 0..4 {
        for q in 0..4 {
            let sum = if p + q < 4 { p + q } else { p + q - 4 };
            assert_eq!(rt; (Phase::of(p) + Phase::of(q)).quarters(), sum);
        }
        assert_eq!(rt; (Phase::of(p) + -Phase::of(p)).quarters(), 0);
        assert_eq!(rt; Phase::of(p).to_turn().eighths(), 2 * p);
    }
    assert_eq!(rt; Phase::of(255).quarters(), 3);
    assert!(rt; Phase::new(3).is_some());
    assert!(rt; Phase::new(4).is_none());
}

#[test]
fn eighth_turns(rt: HostRuntime) {
    for m in 0..8 {
        for n in 0..8 {
            let sum = if m + n < 8 { m + n } else { m + n - 8 };
            assert_eq!(rt; (Turn::of(m) + Turn::of(n)).eighths(), sum);
        }
        assert_eq!(rt; (Turn::of(m) + -Turn::of(m)).eighths(), 0);
        match Turn::of(m).to_phase() {
            Some(phase) => assert_eq!(rt; 2 * phase.quarters(), m),
            None => assert!(rt; matches!(m, 1 | 3 | 5 | 7)),
        }
    }
    assert_eq!(rt; Turn::of(255).eighths(), 7);
    assert!(rt; Turn::new(7).is_some());
    assert!(rt; Turn::new(8).is_none());
}

#[test]
fn powers(rt: HostRuntime) -> Result<(), Fail> {
    for exponent in [-30_000, -1, 0, 1, 30_000] {
        let power = Power::new(exponent).ok_or("within the limit")?;
        assert_eq!(rt; power.exponent(), exponent);
        assert_eq!(rt; Power::of(exponent).exponent(), exponent);
    }
    for exponent in [i32::MIN, -30_001, 30_001, i32::MAX] {
        assert!(rt; Power::new(exponent).is_none());
    }
    assert_eq!(rt; Power::of(i32::MIN).exponent(), -30_000);
    assert_eq!(rt; Power::of(i32::MAX).exponent(), 30_000);
    Ok(())
}

fn tells<R: Reason>(rt: &impl Abort, reason: &R, number: u8, place: usize, layer: Layer) {
    assert_eq!(rt; reason.number(), number);
    assert_eq!(rt; reason.place(), place);
    assert_eq!(rt; reason.layer(), layer);
}

#[test]
fn reading(rt: HostRuntime) {
    tells(&rt, &Fault::ByteMissing(9), 1, 9, Layer::Reading);
    tells(&rt, &Fault::ForbiddenBit(9), 2, 9, Layer::Reading);
    tells(&rt, &Fault::AbsentValue(9), 3, 9, Layer::Reading);
    tells(&rt, &Fault::OutOfRange(9), 4, 9, Layer::Reading);
    tells(&rt, &Fault::BytesFollow(9), 5, 9, Layer::Reading);
    tells(&rt, &Fault::NotALetter(9), 21, 9, Layer::Reading);
    tells(&rt, &Fault::NotANumber(9), 22, 9, Layer::Reading);
    tells(&rt, &Fault::NoSuchQubit(9), 23, 9, Layer::Reading);
    tells(&rt, &Fault::EqualQubits(9), 24, 9, Layer::Reading);
    tells(&rt, &Fault::NoLineEnd(9), 25, 9, Layer::Reading);
    tells(&rt, &Fault::TextTooLong, 26, 65_536, Layer::Reading);
}

#[test]
fn loading_asking_writing(rt: HostRuntime) {
    tells(
        &rt,
        &LoadRefusal::Unreadable(Fault::EqualQubits(9), 4),
        24,
        9,
        Layer::Reading,
    );
    tells(&rt, &LoadRefusal::UnknownSpider(4), 11, 4, Layer::Loading);
    tells(&rt, &LoadRefusal::TooManySpiders(4), 12, 4, Layer::Loading);
    tells(&rt, &LoadRefusal::TooManyLegs(4), 13, 4, Layer::Loading);
    tells(
        &rt,
        &LoadRefusal::ScalarOutOfRange(u32::MAX),
        14,
        4_294_967_295,
        Layer::Loading,
    );
    tells(&rt, &AskRefusal::NoFit, 31, 0, Layer::Asking);
    tells(&rt, &AskRefusal::RowLength, 32, 0, Layer::Asking);
    tells(&rt, &AskRefusal::RowByte(7), 33, 7, Layer::Asking);
    tells(&rt, &AskRefusal::HoldSetting(64), 51, 64, Layer::Asking);
    tells(&rt, &WriteRefusal::BufferShort, 41, 0, Layer::Writing);
    tells(&rt, &WriteRefusal::FactorOutOfRange, 42, 0, Layer::Writing);
    tells(&rt, &WriteRefusal::TooManySpiders, 43, 0, Layer::Writing);
    tells(&rt, &WriteRefusal::WrongCount, 44, 0, Layer::Writing);
}

// An item that is made in one call is the one that its parts make.
#[test]
fn made_items(rt: HostRuntime) {
    let (colour, phase) = (Colour::X, Phase::of(3));
    assert!(rt; Item::spider(colour, phase) == Item::Spider(Spider { colour, phase }));
    let (first, second, kind) = (3, 5, Kind::Hadamard);
    let wire = Wire {
        first,
        second,
        kind,
    };
    assert!(rt; Item::wire(first, second, kind) == Item::Wire(wire));
    let leg = Leg {
        side: Side::Output,
        spider: 7,
        kind,
        setting: Setting::HeldOne,
    };
    assert!(rt; Item::leg(leg.side, leg.spider, leg.kind, leg.setting) == Item::Leg(leg));
    let (k, m) = (Power::of(-7), Turn::of(5));
    assert!(rt; Item::factor(k, m) == Item::Factor(Factor { k, m }));
}

#[test]
fn listed_items(rt: HostRuntime) {
    let mut none = Listed::new(&[]);
    assert!(rt; none.next() == Ok(None));
    let mut zeros = Listed::new(&[Item::Zero, Item::Zero]);
    assert!(rt; zeros.next() == Ok(Some(Item::Zero)));
    assert!(rt; zeros.next() == Ok(Some(Item::Zero)));
    assert!(rt; zeros.next() == Ok(None));
    assert!(rt; zeros.next() == Ok(None));
}
