// Rows of settings that are refused, and which legs a hold sets.
ghost use Rattle.std.specs.Prelude.{◌≤◌};

use crate::asking::{begins, gives};
use angles::{Phase, Turn};
use diagrams::items::Setting::{HeldOne, HeldZero, Open};
use diagrams::items::{Colour, Item, Kind, Setting, Side};
use diagrams::power::Power;
use diagrams::source::Listed;
use layers::settings::Settings;
use refusals::Layer;
use refusals::reason::Reason;
use std::process::Abort;
use std::test::Fail;

fn refused(rt: &impl Abort, row: &[u8], place: usize) -> Result<(), Fail> {
    let refusal = Settings::new(row).err().ok_or("taken")?;
    assert_eq!(rt; refusal.number(), 51);
    assert_eq!(rt; refusal.place(), place);
    assert_eq!(rt; refusal.layer(), Layer::Asking);
    Ok(())
}

#[test]
fn too_many(rt: HostRuntime) -> Result<(), Fail> {
    assert_eq!(rt; Settings::new(&[2; 64])?.len(), 64);
    refused(&rt, &[2; 65], 64)?;
    refused(&rt, &[0; 65], 64)?;
    refused(&rt, &[1; 200], 64)
}

#[test]
fn no_setting(rt: HostRuntime) -> Result<(), Fail> {
    refused(&rt, &[3], 0)?;
    refused(&rt, &[0, 1, 2, 3], 3)?;
    refused(&rt, &[0, 4, 2, 3], 1)?;
    refused(&rt, &[255, 255], 0)?;
    // (the place is what is tested: each is refused by its number)
    for place in 0..64 {
        let mut row = [1; 64];
        row[place] = 3;
        refused(&rt, &row, place)?;
    }
    Ok(())
}

#[test]
fn both(rt: HostRuntime) -> Result<(), Fail> {
    let mut row = [2; 66];
    row[65] = 3;
    refused(&rt, &row, 64)?;
    row[64] = 3;
    refused(&rt, &row, 64)?;
    row[63] = 3;
    refused(&rt, &row, 63)?;
    row[10] = 9;
    refused(&rt, &row, 10)
}

#[test]
fn one_by_one(rt: HostRuntime) -> Result<(), Fail> {
    let none = Settings::new(&[])?;
    assert_eq!(rt; none.len(), 0);
    assert_eq!(rt; none.at(0), Setting::Open);
    let some = Settings::new(&[0, 1, 2])?;
    assert_eq!(rt; some.len(), 3);
    for (leg, setting) in [
        (0, HeldZero),
        (1, HeldOne),
        (2, Open),
        (3, Open),
        (64, Open),
        (usize::MAX, Open),
    ] {
        assert_eq!(rt; some.at(leg), setting, "at {leg}");
    }
    Ok(())
}

// A leg on spider 0.
fn leg(setting: Setting) -> Item {
    Item::leg(Side::Output, 0, Kind::Plain, setting)
}

// Legs with the settings before have those after, once they are held at the row.
fn held<const N: usize>(
    rt: &impl Abort,
    row: &[u8],
    before: [Setting; N],
    after: [Setting; N],
) -> Result<(), Fail>
    requires { N ≤ 64 }
{
    let legs = before.map(leg);
    gives(
        rt,
        &mut Settings::new(row)?.over(Listed::new(&legs)),
        &after.map(leg),
    );
    Ok(())
}

#[test]
fn open_legs(rt: HostRuntime) -> Result<(), Fail> {
    held(&rt, &[], [Open, Open], [Open, Open])?;
    held(&rt, &[0], [Open, Open], [HeldZero, Open])?;
    held(&rt, &[2, 1], [Open, Open], [Open, HeldOne])?;
    held(&rt, &[1, 0, 1], [Open, Open], [HeldOne, HeldZero])
}

// Held legs keep their bit, and count.
#[test]
fn held_legs(rt: HostRuntime) -> Result<(), Fail> {
    held(&rt, &[1, 1], [HeldZero, Open], [HeldZero, HeldOne])?;
    held(&rt, &[0, 0], [HeldOne, Open], [HeldOne, HeldZero])?;
    held(
        &rt,
        &[0, 2, 1],
        [HeldOne, HeldZero, Open],
        [HeldOne, HeldZero, HeldOne],
    )?;
    held(&rt, &[0], [HeldOne, Open], [HeldOne, Open])
}

// What a source gives with one leg at each of two settings, and other items between.
fn among_others(first: Setting, second: Setting) -> [Item; 6] {
    [
        Item::spider(Colour::X, Phase::of(3)),
        leg(first),
        Item::wire(0, 0, Kind::Hadamard),
        Item::factor(Power::of(-5), Turn::of(3)),
        leg(second),
        Item::Zero,
    ]
}

#[test]
fn other_items(rt: HostRuntime) -> Result<(), Fail> {
    let before = among_others(Open, Open);
    let mut source = Settings::new(&[1, 0])?.over(Listed::new(&before));
    gives(&rt, &mut source, &among_others(HeldOne, HeldZero));
    Ok(())
}

// The sixty-fourth leg is set, and none after it.
#[test]
fn many_legs(rt: HostRuntime) -> Result<(), Fail> {
    let legs = [leg(Open); 70];
    let mut source = Settings::new(&[1; 64])?.over(Listed::new(&legs));
    begins(&rt, &mut source, &[leg(HeldOne); 64]);
    gives(&rt, &mut source, &[leg(Open); 6]);
    Ok(())
}
