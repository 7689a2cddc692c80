// A phase: how many quarter turns it is, and the same angle in eighth turns.
ghost use Rattle.std.specs.Prelude.{◌≡◌, ◌*◌};
ghost use Rattle.angles.specs.Angles.{turn};

use super::{Angle, Turn};

impl Angle<3> {
    pub fn quarters(self) -> u8
        ensures { result ≡ self.parts }
    {
        self.parts
    }

    // The same angle in eighth turns. (A named function and no `From`: a rule of the project for the two units.)
    pub fn to_turn(self) -> Turn
        ensures { result ≡ turn (2 * self.parts) }
    {
        Turn::of(2 * self.parts)
    }
}
