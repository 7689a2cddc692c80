// A slot of the working diagram: a number below 320.
ghost use Rattle.std.specs.Prelude.{◌<◌};

pub mod methods;

// How many slots there are.
pub const SLOTS: usize = 320;

// A number below a bound.
#[derive(Clone, Copy, PartialEq, Eq)]
pub struct Below<const N: usize> {
    number: usize,
    ghost bound: { number < N },
}

pub type Slot = Below<SLOTS>;
