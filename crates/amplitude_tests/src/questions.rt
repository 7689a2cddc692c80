// What is refused of rows and of spots, and what a refusal leaves.
use crate::against_sums::{Sample, is_blank};
use crate::making::{green, hadamard, leg, open};
use archive::answer::amplitude;
use diagrams::items::{Item, Kind, Setting};
use graphlike::Diagram;
use reducers::complement::Complement;
use reducers::pivot::Pivot;
use reducers::removal::Removal;
use reductions::Pair;
use refusals::AskRefusal;
use rows::slot::SLOTS;
use rules::choice::{Choice, OrElse};
use rules::rule::Rule;
use rules::run::step;
use std::alloc::Global;
use std::process::Abort;
use std::test::Fail;

// Spiders 0 and 5 have open legs; 1 and 6 are odd, 2, 3 and 4 even; 4 and 6 are joined to nothing; and there is
// a held leg.
fn items() -> [Item; 15] {
    [
        green(1),
        green(1),
        green(0),
        green(2),
        green(0),
        green(0),
        green(3),
        hadamard(0, 1),
        hadamard(1, 2),
        hadamard(2, 3),
        hadamard(2, 5),
        open(0),
        leg(3, Kind::Hadamard, Setting::HeldOne),
        leg(5, Kind::Hadamard, Setting::Open),
        open(5),
    ]
}

// The row is refused for that reason, the work diagram is left with nothing, and the diagram answers as before.
fn refused(rt: &impl Abort, heap: Global, row: &[u8], reason: AskRefusal) -> Result<(), Fail> {
    let sample = Sample::of(heap, &items())?;
    let mut work = sample.diagram;
    assert!(rt; amplitude(&sample.diagram, row, &mut work) == Err(reason));
    assert!(rt; is_blank(&work));
    sample.agrees(rt, &sample.diagram, &mut work)
}

#[test]
fn wrong_rows(rt: HostRuntime) -> Result<(), Fail> {
    let heap = rt.alloc();
    refused(&rt, heap, &[], AskRefusal::RowLength)?;
    refused(&rt, heap, &[0, 1], AskRefusal::RowLength)?;
    refused(&rt, heap, &[0, 1, 1, 0], AskRefusal::RowLength)?;
    refused(&rt, heap, &[1; 64], AskRefusal::RowLength)?;
    refused(&rt, heap, &[0; 65], AskRefusal::RowLength)?;
    for byte in [2, 48, 255] {
        refused(&rt, heap, &[byte, 0, 0], AskRefusal::RowByte(0))?;
        refused(&rt, heap, &[1, byte, 1], AskRefusal::RowByte(1))?;
        refused(&rt, heap, &[1, 0, byte], AskRefusal::RowByte(2))?;
        refused(&rt, heap, &[0, byte, byte], AskRefusal::RowByte(1))?;
        // the length is judged first
        refused(&rt, heap, &[byte, byte], AskRefusal::RowLength)?;
        refused(&rt, heap, &[0, 0, 0, byte], AskRefusal::RowLength)?;
    }
    Ok(())
}

impl Sample {
    // A step at the spot is refused, and changes nothing.
    fn misfits<R: Rule>(&self, rt: &impl Abort, rule: &R, spot: R::Spot) -> Result<(), Fail> {
        let mut work = Diagram::new();
        let mut next = self.diagram;
        assert!(rt; step(rule, &mut next, spot) == Err(AskRefusal::NoFit));
        assert!(rt; next.spiders() == self.diagram.spiders());
        self.agrees(rt, &next, &mut work)
    }

    // A step at the spot is made, takes so many spiders, and keeps the answers.
    fn fits<R: Rule>(
        &self,
        rt: &impl Abort,
        rule: &R,
        spot: R::Spot,
        fewer: usize,
    ) -> Result<(), Fail> {
        let mut work = Diagram::new();
        let mut next = self.diagram;
        step(rule, &mut next, spot)?;
        assert!(rt; next.spiders().len().wrapping_add(fewer) == self.diagram.spiders().len());
        self.agrees(rt, &next, &mut work)
    }
}

#[test]
fn spots_of_one(rt: HostRuntime) -> Result<(), Fail> {
    let sample = Sample::of(rt.alloc(), &items())?;
    // absent slots, and no slots at all
    for spot in [7, 255, 256, 319, SLOTS, SLOTS + 1, 1000, usize::MAX] {
        sample.misfits(&rt, &Complement, spot)?;
        sample.misfits(&rt, &Removal, spot)?;
    }
    for spot in [0, 2, 3, 4, 5] {
        sample.misfits(&rt, &Complement, spot)?;
    }
    for spot in [0, 1, 2, 3, 5, 6] {
        sample.misfits(&rt, &Removal, spot)?;
    }
    sample.fits(&rt, &Complement, 1, 1)?;
    sample.fits(&rt, &Complement, 6, 1)?;
    sample.fits(&rt, &Removal, 4, 1)
}

#[test]
fn spots_of_two(rt: HostRuntime) -> Result<(), Fail> {
    let sample = Sample::of(rt.alloc(), &items())?;
    let spots = [
        (3, 2),
        (2, 2),
        (2, 4),
        (3, 4),
        (1, 2),
        (0, 1),
        (2, 5),
        (5, 2),
        (2, 7),
        (7, 8),
        (2, 319),
        (2, SLOTS),
        (SLOTS, 2),
        (2, 1000),
        (1000, 1001),
        (SLOTS, SLOTS + 1),
    ];
    for (first, second) in spots {
        sample.misfits(&rt, &Pivot, Pair { first, second })?;
    }
    let pair = Pair {
        first: 2,
        second: 3,
    };
    sample.fits(&rt, &Pivot, pair, 2)
}

#[test]
fn spots_of_either(rt: HostRuntime) -> Result<(), Fail> {
    let sample = Sample::of(rt.alloc(), &items())?;
    let rule = OrElse {
        first: Complement,
        second: Removal,
    };
    sample.misfits(&rt, &rule, Choice::First(4))?;
    sample.misfits(&rt, &rule, Choice::Second(1))?;
    sample.misfits(&rt, &rule, Choice::Second(1000))?;
    sample.fits(&rt, &rule, Choice::First(1), 1)?;
    sample.fits(&rt, &rule, Choice::Second(4), 1)
}
