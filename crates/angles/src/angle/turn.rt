// A turn: how many eighth turns it is, and the same angle in quarter turns.
ghost use Rattle.std.specs.Prelude.{◌≡◌};
ghost use Rattle.angles.specs.Angles.{half_turn};

use super::{Angle, Phase};

impl Angle<7> {
    pub fn eighths(self) -> u8
        ensures { result ≡ self.parts }
    {
        self.parts
    }

    // The same angle in quarter turns, or none where it is no whole number of them. (A named function and no `TryFrom`:
    // a rule of the project for the two units.)
    pub fn to_phase(self) -> Option<Phase>
        ensures { result ≡ half_turn self }
    {
        if self.parts % 2 == 0 {
            Some(Phase::of(self.parts / 2))
        } else {
            None
        }
    }
}
