// Worked amounts, with the steps that they take.
use crate::against_sums::{loaded, loaded_from};
use crate::making::{green, hadamard};
use angles::Turn;
use archive::answer::{Answer, amplitude};
use circuits::text::CircuitText;
use diagrams::items::{Item, Kind};
use graphlike::Diagram;
use parts::scalar::Scalar;
use reducers::reduce::reduce;
use std::process::Abort;
use std::test::Fail;

// √2^k·w^m
pub fn root(k: i32, m: u8) -> Scalar {
    Scalar::Root(k, Turn::of(m))
}

// The answer is that scalar after that many steps.
pub fn tells(rt: &impl Abort, answer: Answer, scalar: Scalar, steps: usize) {
    assert_eq!(rt; answer, Answer { scalar, steps });
}

pub fn closed(items: &[Item]) -> Result<Answer, Fail> {
    let diagram = loaded(items)?;
    let mut work = Diagram::new();
    Ok(amplitude(&diagram, &[], &mut work)?)
}

fn triangle(quarters: u8) -> [Item; 6] {
    let corner = green(quarters);
    [
        corner,
        corner,
        corner,
        hadamard(0, 1),
        hadamard(0, 2),
        hadamard(1, 2),
    ]
}

#[test]
fn closed_diagrams(rt: HostRuntime) -> Result<(), Fail> {
    tells(&rt, closed(&[])?, root(0, 0), 0);
    tells(&rt, closed(&[green(0)])?, root(2, 0), 1);
    tells(&rt, closed(&[green(1)])?, root(1, 1), 1);
    tells(&rt, closed(&[green(2)])?, Scalar::Zero, 1);
    tells(&rt, closed(&[green(3)])?, root(1, 7), 1);
    tells(&rt, closed(&[green(1), hadamard(0, 0)])?, root(0, 7), 1);
    let twice = [green(0), green(0), hadamard(0, 1), hadamard(0, 1)];
    tells(&rt, closed(&twice)?, root(2, 0), 2);
    tells(
        &rt,
        closed(&[green(2), green(2), hadamard(0, 1)])?,
        root(1, 4),
        1,
    );
    tells(&rt, closed(&triangle(1))?, root(2, 1), 3);
    tells(&rt, closed(&triangle(0))?, Scalar::Zero, 2);
    Ok(())
}

fn asked(text: &[u8], row: &[u8]) -> Result<Answer, Fail> {
    let diagram = loaded_from(&mut CircuitText::new(text))?;
    let mut work = Diagram::new();
    Ok(amplitude(&diagram, row, &mut work)?)
}

#[test]
fn circuits_by_text(rt: HostRuntime) -> Result<(), Fail> {
    tells(&rt, asked(b"n 1\nh 0\n", &[1, 1])?, root(-1, 4), 2);
    tells(&rt, asked(b"n 1\ns 0\n", &[1, 1])?, root(0, 2), 3);
    tells(
        &rt,
        asked(b"n 2\nh 0\nc 0 1\n", &[0, 0, 1, 1])?,
        root(-1, 0),
        4,
    );
    Ok(())
}

// A reduction with that budget makes so many steps, and is finished or not.
fn spends(
    rt: &impl Abort,
    items: &[Item],
    budget: usize,
    steps: usize,
    finished: bool,
) -> Result<(), Fail> {
    let mut diagram = loaded(items)?;
    let ran = reduce(&mut diagram, budget);
    assert_eq!(rt; ran.steps, steps);
    assert!(rt; ran.finished == finished);
    Ok(())
}

#[test]
fn budgets(rt: HostRuntime) -> Result<(), Fail> {
    spends(&rt, &[], 0, 0, true)?;
    spends(&rt, &[], 1, 0, true)?;
    spends(&rt, &[green(0)], 0, 0, false)?;
    spends(&rt, &[green(0)], 1, 1, true)?;
    let ones = triangle(1);
    for budget in 0..3 {
        spends(&rt, &ones, budget, budget, false)?;
    }
    spends(&rt, &ones, 3, 3, true)?;
    spends(&rt, &ones, 4, 3, true)?;
    let zeros = triangle(0);
    spends(&rt, &zeros, 0, 0, false)?;
    spends(&rt, &zeros, 1, 1, false)?;
    spends(&rt, &zeros, 2, 2, true)?;
    spends(&rt, &zeros, usize::MAX, 2, true)?;
    // a plain wire makes one spider of two
    spends(
        &rt,
        &[green(1), green(2), Item::wire(0, 1, Kind::Plain)],
        1,
        1,
        true,
    )
}
