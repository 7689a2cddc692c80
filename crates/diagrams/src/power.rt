// A power of the root of two, whose exponent has a limit on either side. Powers belong to factors.
ghost use Rattle.std.specs.Prelude.{◌≤◌, unsigned_abs};
ghost use Rattle.diagrams.specs.Limits.{limit};

pub mod methods;

// The largest exponent that a power may have, either way.
pub const LIMIT: i32 = 30_000;

#[derive(Clone, Copy, Debug, PartialEq, Eq)]
pub struct Power {
    exponent: i32,
    ghost bound: { unsigned_abs exponent ≤ limit },
}
