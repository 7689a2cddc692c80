// What can be done with angles of any unit: make them, add them, and negate them.
ghost use Rattle.std.specs.Prelude.{◌≡◌, ◌+◌, ◌-◌};
ghost use Rattle.angles.specs.Angles.{angle, exact_angle};

use super::Angle;
use std::fmt;
use std::ops::{Add, Neg};

impl<const LAST: u8> Angle<LAST> {
    // That many parts of a turn, whole turns left out.
    fn round(parts: u16) -> Angle<LAST>
        ensures { result ≡ angle LAST parts }
    {
        Angle {
            parts: (parts % (u16::from(LAST) + 1)) as u8,
        }
    }

    // That many parts of a turn, whole turns left out.
    pub fn of(parts: u8) -> Angle<LAST>
        ensures { result ≡ angle LAST parts }
    {
        Angle::round(u16::from(parts))
    }

    // Exactly that many parts, or none where that is a whole turn or more.
    pub fn new(parts: u8) -> Option<Angle<LAST>>
        ensures { result ≡ exact_angle LAST parts }
    {
        if parts <= LAST {
            Some(Angle::of(parts))
        } else {
            None
        }
    }
}

impl<const LAST: u8> Add<Angle<LAST>> for Angle<LAST> {
    type Output = Angle<LAST>;

    ghost add_gives = { λ a b r. r ≡ angle LAST (a.parts + b.parts) };

    fn add(self, other: Angle<LAST>) -> Angle<LAST> {
        Angle::round(u16::from(self.parts) + u16::from(other.parts))
    }
}

impl<const LAST: u8> Neg for Angle<LAST> {
    type Output = Angle<LAST>;

    ghost neg_gives = { λ a r. r ≡ angle LAST (LAST + 1 - a.parts) };

    fn neg(self) -> Angle<LAST> {
        Angle::round(u16::from(LAST) + 1 - u16::from(self.parts))
    }
}

// By hand, since a derived one would say the same of a phase and of a turn.
impl<const LAST: u8> fmt::Debug for Angle<LAST> {
    fn fmt<W: fmt::Write>(&self, f: &mut fmt::Formatter<W>) -> fmt::Result {
        let (name, unit) = match LAST {
            3 => ("Phase", "quarters"),
            7 => ("Turn", "eighths"),
            _ => ("Angle", "parts"),
        };
        f.debug_struct(name).field(unit, &self.parts).finish()
    }
}
