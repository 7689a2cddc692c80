// Amplitudes before and after steps, runs and reductions, against sums.
use crate::samples::{Random, draw};
use crate::sums::{Sum, bit, open_legs, sum_at};
use angles::Turn;
use archive::answer::amplitude;
use diagrams::items::Item;
use diagrams::source::{Listed, Source};
use graphlike::Diagram;
use loader::load::load;
use parts::scalar::Scalar;
use reducers::complement::Complement;
use reducers::pivot::Pivot;
use reducers::reduce::reduce;
use reducers::removal::Removal;
use rows::row::Row;
use rows::slot::SLOTS;
use rules::choice::OrElse;
use rules::rule::Rule;
use rules::run::{Ran, run, step};
use std::alloc::Global;
use std::process::Abort;
use std::test::Fail;

// A loaded diagram with at most four open legs, and the sum of its items at each row, the first leg's bit the lowest.
#[derive(Drop)]
pub struct Sample {
    pub diagram: Diagram,
    open: usize,
    sums: Vec<Sum>,
}

// A row of four bytes.
fn bytes_of(row: u32) -> [u8; 4] {
    [0, 1, 2, 3].map(|place| u8::from(bit(row, place)))
}

// A diagram of nothing: no spider, no open leg, and the scalar 1.
pub fn is_blank(diagram: &Diagram) -> bool {
    diagram.scalar() == Scalar::Root(0, Turn::of(0))
        && diagram.spiders().is_empty()
        && diagram.open_legs() == 0
}

// The diagram that the source loads.
pub fn loaded_from<S: Source>(source: &mut S) -> Result<Diagram, Fail> {
    let mut diagram = Diagram::new();
    load(&mut diagram, source)?;
    Ok(diagram)
}

pub fn loaded(items: &[Item]) -> Result<Diagram, Fail> {
    loaded_from(&mut Listed::new(items))
}

impl Sample {
    pub fn of(heap: Global, items: &[Item]) -> Result<Sample, Fail> {
        let open = open_legs(items);
        let rows = 1u32 << open.min(4) as u32;
        Ok(Sample {
            diagram: loaded(items)?,
            open,
            sums: (0..rows).map(|row| sum_at(items, row)).collect(heap)?,
        })
    }

    fn draw(heap: Global, random: &mut Random) -> Result<Sample, Fail> {
        Sample::of(heap, draw(heap, random)?.as_slice())
    }

    // How many rows have a sum that is not zero.
    fn alive(&self) -> usize {
        self.sums.iter().filter(|sum| !sum.is_zero()).count()
    }

    // The diagram answers every row as the sums do, in few steps, and leaves the work diagram with nothing.
    pub fn agrees(
        &self,
        rt: &impl Abort,
        diagram: &Diagram,
        work: &mut Diagram,
    ) -> Result<(), Fail> {
        let open = self.open;
        assert!(rt; diagram.open_legs() == open);
        assert!(rt; open <= 4);
        for (row, sum) in (0..16).zip(&self.sums) {
            let bytes = bytes_of(row);
            let answer = amplitude(diagram, &bytes[0..open], work)?;
            assert!(rt; sum.is(answer.scalar));
            assert!(rt; answer.steps <= diagram.spiders().len().wrapping_add(open));
            assert!(rt; is_blank(work));
        }
        Ok(())
    }

    // What a run of at most some steps may leave: the same answers, a spider fewer for each step at least.
    fn ran_well(
        &self,
        rt: &impl Abort,
        after: &Diagram,
        ran: Ran,
        budget: usize,
        work: &mut Diagram,
    ) -> Result<(), Fail> {
        let before = self.diagram.spiders().len();
        assert!(rt; ran.steps <= budget);
        assert!(rt; after.spiders().len().wrapping_add(ran.steps) <= before);
        self.agrees(rt, after, work)
    }

    // A step by the rule where it finds a spot, and runs by it; and whether it found one.
    fn keeps<R: Rule>(&self, rt: &impl Abort, rule: &R, work: &mut Diagram) -> Result<bool, Fail> {
        let spot = rule.find(&self.diagram);
        let found = spot.is_some();
        if let Some(spot) = spot {
            let mut next = self.diagram;
            step(rule, &mut next, spot)?;
            assert!(rt; next.spiders().len() < self.diagram.spiders().len());
            self.agrees(rt, &next, work)?;
        }
        for budget in 0..4 {
            let mut next = self.diagram;
            let ran = run(rule, &mut next, budget);
            self.ran_well(rt, &next, ran, budget, work)?;
            assert!(rt; (ran.steps > 0) == (found && budget > 0));
            assert!(rt; ran.finished == rule.find(&next).is_none());
        }
        Ok(found)
    }

    // Steps and runs by each rule, and by one made of all three.
    fn all_keep(&self, rt: &impl Abort) -> Result<Found, Fail> {
        let mut work = Diagram::new();
        let either = OrElse {
            first: Removal,
            second: OrElse {
                first: Pivot,
                second: Complement,
            },
        };
        let found = Found {
            complement: self.keeps(rt, &Complement, &mut work)?,
            pivot: self.keeps(rt, &Pivot, &mut work)?,
            removal: self.keeps(rt, &Removal, &mut work)?,
            either: self.keeps(rt, &either, &mut work)?,
        };
        assert!(rt; found.either == (found.complement || found.pivot || found.removal));
        assert!(rt; found.either != is_reduced(&self.diagram));
        Ok(found)
    }
}

#[test]
fn amplitudes_are_sums(rt: HostRuntime) -> Result<(), Fail> {
    let mut random = Random::new(1);
    let mut work = Diagram::new();
    let mut alive = 0usize;
    let mut rows = 0usize;
    for _ in 0..1000 {
        let sample = Sample::draw(rt.alloc(), &mut random)?;
        sample.agrees(&rt, &sample.diagram, &mut work)?;
        alive = alive.wrapping_add(sample.alive());
        rows = rows.wrapping_add(sample.sums.len());
    }
    // the samples are of both sorts
    assert!(rt; alive >= 1000);
    assert!(rt; rows.wrapping_sub(alive) >= 1000);
    Ok(())
}

// Whether no rule fits anywhere: no spider without an open leg is of odd phase, none of even phase is joined to
// another such, and none is joined to nothing.
fn is_reduced(diagram: &Diagram) -> bool {
    let mut inner = diagram.spiders();
    inner.subtract(&diagram.boundary());
    for slot in inner.iter() {
        let neighbours = diagram.neighbours(slot);
        let mut partners = neighbours;
        partners.intersect(&inner);
        let odd = diagram.phase(slot).quarters() % 2 == 1;
        if odd || neighbours.is_empty() || has_even(diagram, &partners) {
            return false;
        }
    }
    true
}

// Whether a slot of the set is of even phase.
fn has_even(diagram: &Diagram, set: &Row) -> bool {
    set.iter()
        .any(|slot| diagram.phase(slot).quarters() % 2 == 0)
}

// Whether each rule found a spot.
#[derive(Clone, Copy, Debug)]
struct Found {
    complement: bool,
    pivot: bool,
    removal: bool,
    either: bool,
}

#[test]
fn steps_and_runs_keep_sums(rt: HostRuntime) -> Result<(), Fail> {
    let mut random = Random::new(2);
    let mut found = Vec::new(rt.alloc());
    for _ in 0..300 {
        let sample = Sample::draw(rt.alloc(), &mut random)?;
        found.push(sample.all_keep(&rt)?)?;
    }
    // each rule found spots in some samples and none in others
    assert!(rt; found.iter().filter(|found| found.complement).count() >= 10);
    assert!(rt; found.iter().filter(|found| found.pivot).count() >= 10);
    assert!(rt; found.iter().filter(|found| found.removal).count() >= 10);
    assert!(rt; found.iter().filter(|found| found.either).count() <= 290);
    Ok(())
}

#[test]
fn reductions_keep_sums(rt: HostRuntime) -> Result<(), Fail> {
    let mut random = Random::new(3);
    let mut work = Diagram::new();
    for _ in 0..400 {
        let sample = Sample::draw(rt.alloc(), &mut random)?;
        let rest = !is_reduced(&sample.diagram);
        for budget in [0, 1, 2, 3, SLOTS] {
            let mut next = sample.diagram;
            let ran = reduce(&mut next, budget);
            sample.ran_well(&rt, &next, ran, budget, &mut work)?;
            assert!(rt; (ran.steps > 0) == (rest && budget > 0));
            assert!(rt; ran.finished == is_reduced(&next));
            assert!(rt; ran.finished || ran.steps == budget);
        }
    }
    Ok(())
}
