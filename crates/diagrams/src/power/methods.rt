// How a power is made and read.
ghost use Rattle.std.specs.Prelude.{◌≡◌};
ghost use Rattle.diagrams.specs.Powers.{power, exact_power};

use super::{LIMIT, Power};

impl Power {
    // The power of that exponent, or of the limit where it lies beyond.
    pub fn of(exponent: i32) -> Power
        ensures { result ≡ power exponent }
    {
        Power {
            exponent: exponent.clamp(-LIMIT, LIMIT),
        }
    }

    // The power of exactly that exponent, or none where it lies beyond the limit.
    pub fn new(exponent: i32) -> Option<Power>
        ensures { result ≡ exact_power exponent }
    {
        if (-LIMIT..=LIMIT).contains(&exponent) {
            Some(Power::of(exponent))
        } else {
            None
        }
    }

    pub fn exponent(self) -> i32
        ensures { result ≡ self.exponent }
    {
        self.exponent
    }
}
