// Legs held at given settings, over any source.
ghost use Rattle.std.specs.Prelude.{◌≡◌, ◌≤◌};
ghost use Rattle.layers.specs.Holds.{held_leg, held_stream};
ghost use Rattle.layers.specs.Settings.{settings_in};

use crate::settings::Settings;
use diagrams::items::{Item, Leg, Setting};
use diagrams::source::Source;
use refusals::Fault;

// The source below, the settings, and the number of the next leg; once it is past the last setting it stays.
#[derive(Drop)]
pub struct Hold<S> {
    below: S,
    settings: Settings,
    legs: usize,
    ghost counted: { legs ≤ settings.count },
}

// A leg that is open takes the setting, and one that is held keeps its own.
fn held_leg(setting: Setting, leg: Leg) -> Leg
    ensures { result ≡ held_leg setting leg }
{
    match leg.setting {
        Setting::Open => Leg { setting, ..leg },
        Setting::HeldZero | Setting::HeldOne => leg,
    }
}

impl Settings {
    // What that source gives, with its open legs held.
    pub fn over<S>(self, below: S) -> Hold<S>
        ensures below { result.below ≡ below }
        ensures settings { result.settings ≡ self }
        ensures legs { result.legs ≡ 0 }
    {
        Hold {
            below,
            settings: self,
            legs: 0,
        }
    }
}

impl<S: Source> Source for Hold<S> {
    ghost rest = { λ s. held_stream (settings_in s.settings) s.legs (S.Source.rest s.below) };

    fn next(&mut self) -> Result<Option<Item>, Fault> {
        match self.below.next()? {
            Some(Item::Leg(leg)) => {
                let setting = self.settings.at(self.legs);
                if self.legs < self.settings.len() {
                    self.legs += 1;
                }
                Ok(Some(Item::Leg(held_leg(setting, leg))))
            }
            other => Ok(other),
        }
    }
}
