// An angle is a whole number of equal parts of a turn, counted round and round, from 0 to LAST.
ghost use Rattle.std.specs.Prelude.{◌+◌, ◌<◌};

pub mod methods;
pub mod phase;
pub mod turn;

#[derive(Clone, Copy, PartialEq, Eq)]
pub struct Angle<const LAST: u8> {
    parts: u8,
    ghost bound: { parts < LAST + 1 },
}

// Quarter turns: they belong to spiders.
pub type Phase = Angle<3>;

// Eighth turns: they belong to scalars.
pub type Turn = Angle<7>;
