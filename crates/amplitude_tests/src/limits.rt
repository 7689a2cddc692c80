// What loading takes at most, and each of its refusals with the number of the item.
use crate::against_sums::{is_blank, loaded};
use crate::making::{factor, green, hadamard, leg, open};
use crate::worked::{closed, root, tells};
use archive::answer::amplitude;
use circuits::text::CircuitText;
use diagrams::items::{Item, Kind, Setting};
use diagrams::source::{Listed, Source};
use graphlike::Diagram;
use loader::load::load;
use refusals::{Fault, LoadRefusal};
use std::process::Abort;
use std::test::Fail;

// The source is refused for that reason, into a diagram that held something, and leaves one of nothing.
fn refuses<S: Source>(rt: &impl Abort, source: &mut S, reason: LoadRefusal) -> Result<(), Fail> {
    let mut diagram = Diagram::new();
    let mut work = Diagram::new();
    let before = [green(1), open(0), factor(5, 3)];
    load(&mut diagram, &mut Listed::new(&before))?;
    assert!(rt; !is_blank(&diagram));
    assert!(rt; load(&mut diagram, source) == Err(reason));
    assert!(rt; is_blank(&diagram));
    tells(rt, amplitude(&diagram, &[], &mut work)?, root(0, 0), 0);
    Ok(())
}

fn refused(rt: &impl Abort, items: &[Item], reason: LoadRefusal) -> Result<(), Fail> {
    refuses(rt, &mut Listed::new(items), reason)
}

#[test]
fn spiders(rt: HostRuntime) -> Result<(), Fail> {
    let items = [green(1); 257];
    let full = loaded(&items[0..256])?;
    assert!(rt; full.spiders().len() == 256);
    // each is √2·w, and 256 eighth turns are whole turns
    tells(&rt, closed(&items[0..256])?, root(256, 0), 256);
    refused(&rt, &items, LoadRefusal::TooManySpiders(256))?;
    // what else comes before counts as an item, and not as a spider
    let mut late = items;
    late[0] = factor(0, 1);
    assert!(rt; loaded(&late)?.spiders().len() == 256);
    // two that fuse count as two
    let mut fused = [green(1); 258];
    fused[2] = Item::wire(0, 1, Kind::Plain);
    assert!(rt; loaded(&fused[0..257])?.spiders().len() == 255);
    refused(&rt, &fused, LoadRefusal::TooManySpiders(257))
}

#[test]
fn legs(rt: HostRuntime) -> Result<(), Fail> {
    let mut items = [open(0); 66];
    items[0] = green(2);
    let full = loaded(&items[0..65])?;
    assert!(rt; full.open_legs() == 64);
    let mut work = Diagram::new();
    // equal bits leave one term, 1 or -1; one pivot takes the spider and a leg's, and 63 removals the others'
    tells(&rt, amplitude(&full, &[0; 64], &mut work)?, root(0, 0), 64);
    tells(&rt, amplitude(&full, &[1; 64], &mut work)?, root(0, 4), 64);
    refused(&rt, &items, LoadRefusal::TooManyLegs(65))?;
    // held legs count as well
    let mut held = [leg(0, Kind::Hadamard, Setting::HeldOne); 66];
    held[0] = green(2);
    assert!(rt; loaded(&held[0..65])?.open_legs() == 0);
    refused(&rt, &held, LoadRefusal::TooManyLegs(65))
}

#[test]
fn scalars(rt: HostRuntime) -> Result<(), Fail> {
    let least = [green(0), green(0), factor(-29_999, 0), hadamard(0, 1)];
    // the sum of the wire is 2, and the wire itself is a root less
    tells(&rt, closed(&least)?, root(-29_998, 0), 1);
    let mut items = [green(0), green(0), factor(-30_000, 0), hadamard(0, 1)];
    refused(&rt, &items, LoadRefusal::ScalarOutOfRange(3))?;
    items[3] = leg(1, Kind::Hadamard, Setting::Open);
    refused(&rt, &items, LoadRefusal::ScalarOutOfRange(3))?;
    items[3] = Item::wire(0, 1, Kind::Plain);
    tells(&rt, closed(&items)?, root(-29_998, 0), 1);
    tells(&rt, closed(&[factor(-30_000, 5)])?, root(-30_000, 5), 0);
    tells(&rt, closed(&[factor(30_000, 5)])?, root(30_000, 5), 0);
    refused(
        &rt,
        &[factor(-30_000, 0), factor(-1, 0)],
        LoadRefusal::ScalarOutOfRange(1),
    )?;
    refused(
        &rt,
        &[factor(30_000, 0), factor(1, 0)],
        LoadRefusal::ScalarOutOfRange(1),
    )?;
    refused(
        &rt,
        &[factor(30_000, 0), factor(30_000, 0)],
        LoadRefusal::ScalarOutOfRange(1),
    )?;
    refused(
        &rt,
        &[factor(-1, 0), factor(-30_000, 0), factor(1, 0)],
        LoadRefusal::ScalarOutOfRange(1),
    )?;
    loaded(&[factor(-30_000, 0), factor(30_000, 0), factor(30_000, 0)])?;
    Ok(())
}

// Once all is zero the power is not looked at; before that it is.
#[test]
fn zeros(rt: HostRuntime) -> Result<(), Fail> {
    let far = factor(-30_000, 0);
    loaded(&[Item::Zero, far, far, green(0), hadamard(0, 0)])?;
    loaded(&[far, Item::Zero, far, factor(-1, 0)])?;
    refused(
        &rt,
        &[far, far, Item::Zero],
        LoadRefusal::ScalarOutOfRange(1),
    )
}

#[test]
fn unknown_spiders(rt: HostRuntime) -> Result<(), Fail> {
    refused(
        &rt,
        &[Item::wire(0, 0, Kind::Plain)],
        LoadRefusal::UnknownSpider(0),
    )?;
    refused(&rt, &[open(0), green(0)], LoadRefusal::UnknownSpider(0))?;
    for end in [1, 2, 255, 256, 257, u16::MAX] {
        let items = [
            green(0),
            factor(1, 1),
            Item::wire(0, end, Kind::Plain),
            green(0),
        ];
        refused(&rt, &items, LoadRefusal::UnknownSpider(2))?;
        refused(
            &rt,
            &[green(0), hadamard(end, 0), green(0)],
            LoadRefusal::UnknownSpider(1),
        )?;
        refused(
            &rt,
            &[green(0), hadamard(end, end)],
            LoadRefusal::UnknownSpider(1),
        )?;
        refused(&rt, &[green(0), open(end)], LoadRefusal::UnknownSpider(1))?;
        let held = leg(end, Kind::Hadamard, Setting::HeldZero);
        refused(
            &rt,
            &[green(0), held, green(0)],
            LoadRefusal::UnknownSpider(1),
        )?;
    }
    Ok(())
}

// An item that is wrong in several ways is refused for the reason of the lowest number.
#[test]
fn several_reasons(rt: HostRuntime) -> Result<(), Fail> {
    let far = factor(-30_000, 0);
    refused(&rt, &[far, hadamard(0, 0)], LoadRefusal::UnknownSpider(1))?;
    refused(
        &rt,
        &[green(0), far, hadamard(0, 1)],
        LoadRefusal::UnknownSpider(2),
    )?;
    let mut items = [open(0); 67];
    items[0] = green(0);
    items[65] = far;
    items[66] = leg(1, Kind::Hadamard, Setting::Open);
    loaded(&items[0..65])?;
    refused(&rt, &items, LoadRefusal::UnknownSpider(66))?;
    items[66] = leg(0, Kind::Hadamard, Setting::Open);
    refused(&rt, &items, LoadRefusal::TooManyLegs(66))
}

fn unreadable(rt: &impl Abort, text: &[u8], fault: Fault, item: u32) -> Result<(), Fail> {
    let reason = LoadRefusal::Unreadable(fault, item);
    refuses(rt, &mut CircuitText::new(text), reason)
}

#[test]
fn faults(rt: HostRuntime) -> Result<(), Fail> {
    unreadable(&rt, b"", Fault::NotALetter(0), 0)?;
    unreadable(&rt, b"n 2\nq", Fault::NotALetter(4), 4)?;
    unreadable(&rt, b"n 1\ns 0\ns 1\n", Fault::NoSuchQubit(10), 4)?;
    unreadable(&rt, b"n 2\nh 0\nc 0 1\nc 1 1\n", Fault::EqualQubits(18), 12)
}
