// The items of circuit texts, told one by one.
use angles::{Phase, Turn};
use circuits::text::CircuitText;
use diagrams::items::{Colour, Item, Kind, Setting, Side};
use diagrams::power::Power;
use diagrams::source::Source;
use std::process::Abort;

// A spider of phase 0.
fn still(colour: Colour) -> Item {
    Item::spider(colour, Phase::of(0))
}

// An open plain leg.
fn leg(side: Side, spider: u16) -> Item {
    Item::leg(side, spider, Kind::Plain, Setting::Open)
}

// The text gives these items in order, and then the end, more than once. The layers' tests ask any source so; no
// crate below both can hold it, since only tests may take `Abort`.
fn gives(rt: &impl Abort, text: &[u8], items: &[Item]) {
    let mut source = CircuitText::new(text);
    for item in items {
        assert!(rt; source.next() == Ok(Some(*item)));
    }
    for _ in 0..3 {
        assert!(rt; source.next() == Ok(None));
    }
}

// A gate on the only qubit: its spider, and the wire to it.
fn single(rt: &impl Abort, text: &[u8], colour: Colour, quarters: u8, kind: Kind) {
    gives(
        rt,
        text,
        &[
            still(Colour::Z),
            leg(Side::Input, 0),
            Item::spider(colour, Phase::of(quarters)),
            Item::wire(0, 1, kind),
            leg(Side::Output, 1),
        ],
    );
}

#[test]
fn no_gate(rt: HostRuntime) {
    gives(
        &rt,
        b"n 1\n",
        &[still(Colour::Z), leg(Side::Input, 0), leg(Side::Output, 0)],
    );
    gives(
        &rt,
        b"n 2\n",
        &[
            still(Colour::Z),
            leg(Side::Input, 0),
            still(Colour::Z),
            leg(Side::Input, 1),
            leg(Side::Output, 0),
            leg(Side::Output, 1),
        ],
    );
}

#[test]
fn one_qubit(rt: HostRuntime) {
    single(&rt, b"n 1\nh 0\n", Colour::Z, 0, Kind::Hadamard);
    single(&rt, b"n 1\ns 0\n", Colour::Z, 1, Kind::Plain);
    single(&rt, b"n 1\nz 0\n", Colour::Z, 2, Kind::Plain);
    single(&rt, b"n 1\nd 0\n", Colour::Z, 3, Kind::Plain);
    single(&rt, b"n 1\nx 0\n", Colour::X, 2, Kind::Plain);
}

// A gate on two qubits, on which a Hadamard gate went before on the first.
fn double(
    rt: &impl Abort,
    text: &[u8],
    lasts: (u16, u16),
    second: Colour,
    between: Kind,
    ends: (u16, u16),
) {
    gives(
        rt,
        text,
        &[
            still(Colour::Z),
            leg(Side::Input, 0),
            still(Colour::Z),
            leg(Side::Input, 1),
            still(Colour::Z),
            Item::wire(0, 2, Kind::Hadamard),
            still(Colour::Z),
            still(second),
            Item::wire(lasts.0, 3, Kind::Plain),
            Item::wire(lasts.1, 4, Kind::Plain),
            Item::wire(3, 4, between),
            Item::factor(Power::of(1), Turn::of(0)),
            leg(Side::Output, ends.0),
            leg(Side::Output, ends.1),
        ],
    );
}

#[test]
fn two_qubits(rt: HostRuntime) {
    double(
        &rt,
        b"n 2\nh 0\nc 0 1\n",
        (2, 1),
        Colour::X,
        Kind::Plain,
        (3, 4),
    );
    double(
        &rt,
        b"n 2\nh 0\nc 1 0\n",
        (1, 2),
        Colour::X,
        Kind::Plain,
        (4, 3),
    );
    double(
        &rt,
        b"n 2\nh 0\ne 0 1\n",
        (2, 1),
        Colour::Z,
        Kind::Hadamard,
        (3, 4),
    );
    double(
        &rt,
        b"n 2\nh 0\ne 1 0\n",
        (1, 2),
        Colour::Z,
        Kind::Hadamard,
        (4, 3),
    );
}

// Numbers of two digits: the eleventh qubit, among as many.
#[test]
fn two_digits(rt: HostRuntime) {
    let mut source = CircuitText::new(b"n 11\nx 10\n");
    for qubit in 0..11 {
        assert!(rt; source.next() == Ok(Some(still(Colour::Z))));
        assert!(rt; source.next() == Ok(Some(leg(Side::Input, qubit))));
    }
    assert!(rt; source.next() == Ok(Some(Item::spider(Colour::X, Phase::of(2)))));
    assert!(rt; source.next() == Ok(Some(Item::wire(10, 11, Kind::Plain))));
    for qubit in 0..10 {
        assert!(rt; source.next() == Ok(Some(leg(Side::Output, qubit))));
    }
    assert!(rt; source.next() == Ok(Some(leg(Side::Output, 11))));
    assert!(rt; source.next() == Ok(None));
}

// The items of a line come only when the line is whole: those of the lines before it are given.
#[test]
fn up_to_the_fault(rt: HostRuntime) {
    let mut source = CircuitText::new(b"n 1\ns 0\ns 1\n");
    for _ in 0..4 {
        assert!(rt; matches!(source.next(), Ok(Some(_))));
    }
    assert!(rt; source.next().is_err());
    assert!(rt; source.next().is_err());
}
