// A row of settings for the legs of a diagram, judged before it is used.
ghost use Rattle.std.specs.Prelude.{◌≡◌, map, MatchResult};
ghost use Rattle.layers.specs.Holds.{setting_at};
ghost use Rattle.layers.specs.Settings.{setting_of, judged, settled, settings_in, AllValid, NamesFirst};

use diagrams::items::Setting;
use refusals::AskRefusal;

// How many settings a row may have.
pub const SETTINGS_LIMIT: usize = 64;

// The settings in order, and how many they are; open ones fill the table. They stand in an array of fixed size, and
// not in a Vec or an ArrayVec, since a row of settings is Copy and takes no heap.
#[derive(Clone, Copy)]
pub struct Settings {
    table: [Setting; SETTINGS_LIMIT],
    count: usize,
}

// The setting that the byte at a place of a row stands for.
fn judged(place: usize, byte: u8) -> Result<Setting, AskRefusal>
    ensures { result ≡ judged place byte }
{
    match Setting::try_from(byte) {
        Ok(setting) if place < SETTINGS_LIMIT => Ok(setting),
        _ => Err(AskRefusal::HoldSetting(place)),
    }
}

impl Settings {
    // A byte for each leg: 0 and 1 hold it, and 2 leaves it open. The first byte above 2, or past the
    // sixty-fourth, is refused.
    pub fn new(row: &[u8]) -> Result<Settings, AskRefusal>
        ensures value { result ≡ settled row.now }
        ensures told { MatchResult result (λ s. AllValid row.now × (settings_in s ≡ map setting_of row.now)) (NamesFirst row.now) }
    {
        let mut table = [Setting::Open; SETTINGS_LIMIT];
        for (place, byte) in row.iter().enumerate() {
            table[place] = judged(place, *byte)?;
        }
        Ok(Settings {
            table,
            count: row.len(),
        })
    }

    // How many there are.
    pub fn len(&self) -> usize
        ensures { result ≡ self.now.count }
    {
        self.count
    }

    // The setting of the leg of that number: open past the last.
    pub fn at(&self, leg: usize) -> Setting
        ensures { result ≡ setting_at (settings_in self.now) leg }
    {
        match self.table.get(leg) {
            Some(setting) if leg < self.count => *setting,
            _ => Setting::Open,
        }
    }
}
