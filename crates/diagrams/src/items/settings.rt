// The settings of legs as bytes.
ghost use Rattle.std.specs.Prelude.{◌≡◌};
ghost use Rattle.diagrams.specs.Settings.{setting_from};

use super::Setting;

// The byte stands for no setting.
#[derive(Clone, Copy, Debug, PartialEq, Eq)]
pub struct NoSetting;

impl TryFrom<u8> for Setting {
    type Error = NoSetting;

    ghost try_from_gives = { λ byte setting. setting ≡ setting_from byte };

    // 0 and 1 hold a leg, and 2 leaves it open.
    fn try_from(byte: u8) -> Result<Setting, NoSetting> {
        match byte {
            0 => Ok(Setting::HeldZero),
            1 => Ok(Setting::HeldOne),
            2 => Ok(Setting::Open),
            _ => Err(NoSetting),
        }
    }
}
