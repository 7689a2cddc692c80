// How refusals are said, how angles and numbers show, and which bytes are settings.
use angles::{Phase, Turn};
use diagrams::items::Setting;
use diagrams::items::settings::NoSetting;
use refusals::{AskRefusal, Fault, Layer, LoadRefusal, WriteRefusal};
use rows::slot::{Below, Slot};
use std::alloc::Global;
use std::fmt::{Debug, Display};
use std::process::Abort;
use std::test::Fail;

fn says<D: Display>(rt: &impl Abort, heap: Global, what: &D, line: &str) -> Result<(), Fail> {
    let text = format!(in heap; "{}", *what)?;
    assert!(rt; text.as_str() == line);
    Ok(())
}

fn shows<D: Debug>(rt: &impl Abort, heap: Global, what: &D, text: &str) -> Result<(), Fail> {
    let shown = format!(in heap; "{:?}", *what)?;
    assert!(rt; shown.as_str() == text);
    Ok(())
}

// A phase and a turn of one count, and a slot and a leg of one number, show apart.
#[test]
fn units(rt: HostRuntime) -> Result<(), Fail> {
    let heap = rt.alloc();
    shows(&rt, heap, &Phase::of(3), "Phase { quarters: 3 }")?;
    shows(&rt, heap, &Turn::of(3), "Turn { eighths: 3 }")?;
    shows(&rt, heap, &Slot::of(5), "Slot { number: 5 }")?;
    let leg = Below::<64>::new(5).ok_or("no such leg")?;
    shows(&rt, heap, &leg, "LegNumber { number: 5 }")
}

#[test]
fn refusals(rt: HostRuntime) -> Result<(), Fail> {
    let heap = rt.alloc();
    says(&rt, heap, &Fault::NotALetter(9), "refused 21 9 reading")?;
    says(&rt, heap, &Fault::TextTooLong, "refused 26 65536 reading")?;
    let unreadable = LoadRefusal::Unreadable(Fault::EqualQubits(8), 4);
    says(&rt, heap, &unreadable, "refused 24 8 reading")?;
    says(
        &rt,
        heap,
        &LoadRefusal::TooManyLegs(65),
        "refused 13 65 loading",
    )?;
    says(&rt, heap, &AskRefusal::RowByte(7), "refused 33 7 asking")?;
    says(&rt, heap, &AskRefusal::NoFit, "refused 31 0 asking")?;
    says(
        &rt,
        heap,
        &WriteRefusal::BufferShort,
        "refused 41 0 writing",
    )
}

#[test]
fn layers(rt: HostRuntime) -> Result<(), Fail> {
    let heap = rt.alloc();
    says(&rt, heap, &Layer::Reading, "reading")?;
    says(&rt, heap, &Layer::Loading, "loading")?;
    says(&rt, heap, &Layer::Asking, "asking")?;
    says(&rt, heap, &Layer::Writing, "writing")
}

#[test]
fn settings(rt: HostRuntime) {
    assert!(rt; Setting::try_from(0) == Ok(Setting::HeldZero));
    assert!(rt; Setting::try_from(1) == Ok(Setting::HeldOne));
    assert!(rt; Setting::try_from(2) == Ok(Setting::Open));
    for byte in 3..=255 {
        assert!(rt; Setting::try_from(byte) == Err(NoSetting));
    }
}
