ghost use Rattle.std.specs.Prelude.{◌≡◌};
ghost use Rattle.rand_pcg.specs.Lcg.{advance};
ghost use Rattle.rand_pcg.specs.Pcg.{multiplier_64};
ghost use Rattle.sc_gen.specs.Draws.{draw_of, moment_of, longitude_of, latitude_of, hundredths_of};

use rand_core::utils::NextWord;
use rand_pcg::Lcg64Xsh32;
use sc_time::Instant;

/// 2023-01-01T00:00:00Z, in seconds from 1970-01-01T00:00:00Z.
const FIRST_SECOND: u64 = 1_672_531_200;

/// The seconds of 730 days.
const SECONDS: u32 = 63_072_000;

const NANOSECONDS: u64 = 1_000_000_000;

/// The steps of the grid from a meridian round to the antimeridian, both of its sides among them.
const LONGITUDES: u32 = 3_600_000_001;

/// The steps of the grid from 85 degrees south to 85 degrees north.
const LATITUDES: u32 = 1_700_000_001;

/// The hundredths from 0 to 100.
const HUNDREDTHS: u32 = 10_001;

/// The four words of which an item is made, one for each of its numbers.
#[derive(Drop)]
pub(crate) struct Draw {
    pub(crate) moment: u32,
    pub(crate) longitude: u32,
    pub(crate) latitude: u32,
    pub(crate) cover: u32,
}

impl Draw {
    /// The next four words of a generator.
    pub(crate) fn of(words: &mut Lcg64Xsh32) -> Draw
        ensures draw { result ≡ draw_of words.old }
        ensures behind { words.new ≡ advance 64 multiplier_64 4 words.old }
    {
        let moment = words.next_word();
        let longitude = words.next_word();
        let latitude = words.next_word();
        let cover = words.next_word();
        Draw {
            moment,
            longitude,
            latitude,
            cover,
        }
    }

    /// When it was, in the years 2023 and 2024.
    pub(crate) fn moment(&self) -> Instant
        ensures { result ≡ moment_of self.now.moment }
    {
        let seconds = FIRST_SECOND + (self.moment % SECONDS) as u64;
        match Instant::of((seconds * NANOSECONDS) as i128) {
            Some(at) => at,
            None => unreachable!(),
        }
    }

    /// How far east it is, in steps of the grid.
    pub(crate) fn longitude(&self) -> i64
        ensures { result ≡ longitude_of self.now.longitude }
    {
        (self.longitude % LONGITUDES) as i64 - 1_800_000_000
    }

    /// How far north it is, in steps of the grid.
    pub(crate) fn latitude(&self) -> i64
        ensures { result ≡ latitude_of self.now.latitude }
    {
        (self.latitude % LATITUDES) as i64 - 850_000_000
    }

    /// How much of it is covered by clouds, in hundredths of a percent.
    pub(crate) fn hundredths(&self) -> u32
        ensures { result ≡ hundredths_of self.now.cover }
    {
        self.cover % HUNDREDTHS
    }
}
