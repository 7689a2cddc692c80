// Sets of slots, against plain arrays of truth values.
use rows::row::Row;
use rows::slot::Slot;
use std::process::Abort;
use std::test::Fail;

fn slot(number: usize) -> Result<Slot, Fail> {
    Ok(Slot::new(number).ok_or("no such slot")?)
}

// The row holds exactly the slots that the array marks.
fn agrees(rt: &impl Abort, row: &Row, marks: &[bool; 320]) -> Result<(), Fail> {
    for (number, marked) in marks.iter().enumerate() {
        assert!(rt; row.holds(slot(number)?) == *marked);
    }
    Ok(())
}

#[test]
fn slots_are_below_320(rt: HostRuntime) -> Result<(), Fail> {
    assert!(rt; Slot::new(319).is_some());
    assert!(rt; Slot::new(320).is_none());
    assert!(rt; Slot::new(usize::MAX).is_none());
    assert_eq!(rt; slot(255)?.number(), 255);
    Ok(())
}

#[test]
fn toggles_and_removes(rt: HostRuntime) -> Result<(), Fail> {
    let mut row = Row::empty();
    let mut marks = [false; 320];
    assert!(rt; row.is_empty());
    for number in [0, 1, 63, 64, 127, 128, 191, 192, 255, 256, 319, 64, 63] {
        row.toggle(slot(number)?);
        marks[number] = !marks[number];
        agrees(&rt, &row, &marks)?;
        assert!(rt; !row.is_empty());
    }
    for number in [0, 1, 2, 127, 128, 191, 192, 255, 256, 319] {
        row.remove(slot(number)?);
        marks[number] = false;
        agrees(&rt, &row, &marks)?;
    }
    assert!(rt; row.is_empty());
    Ok(())
}

#[test]
fn toggles_all(rt: HostRuntime) -> Result<(), Fail> {
    let mut row = Row::empty();
    let mut other = Row::empty();
    let mut marks = [false; 320];
    for (number, marked) in marks.iter_mut().enumerate() {
        if number % 3 == 0 {
            row.toggle(slot(number)?);
        }
        if number % 5 < 2 {
            other.toggle(slot(number)?);
        }
        *marked = (number % 3 == 0) != (number % 5 < 2);
    }
    row.toggle_all(&other);
    agrees(&rt, &row, &marks)?;
    let same = row;
    row.toggle_all(&same);
    assert!(rt; row.is_empty());
    Ok(())
}

// The slots of a set come one by one, the lowest first, and each once.
#[test]
fn walks(rt: HostRuntime) -> Result<(), Fail> {
    let mut row = Row::empty();
    let mut none = row.iter();
    assert!(rt; none.next().is_none());
    for number in [319, 64, 0, 128, 63, 192, 1, 255, 65] {
        row.insert(slot(number)?);
    }
    let mut slots = row.iter();
    for number in [0, 1, 63, 64, 65, 128, 192, 255, 319] {
        assert!(rt; slots.next() == Some(slot(number)?));
    }
    assert!(rt; slots.next().is_none());
    assert!(rt; slots.next().is_none());
    Ok(())
}
