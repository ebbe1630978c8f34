//! How long an agent is on a link, by a word.

ghost use Rattle.std.specs.Prelude.{◌≡◌, ◌<◌, ◌≤◌, ◌^◌, IfSome, IsSome, ◌↔◌, IsTrue};
ghost use Rattle.bhs_time.specs.Schedules.{delay, IsDelayLaw};

use std::marker::Model;

/// The most scales of delays: no delay of a scale from this on fits into the turns of a match.
pub const MAX_SCALES: u16 = 24;

/// The law of delays of a tournament: of `odds` words, one for each of the `scales` gives a delay of at least 2 to the
/// scale turns, and less than twice as many.
#[derive(Clone, Copy, Debug)]
pub struct Delays {
    scales: u16,
    odds: u16,
}

impl Model for Delays {
    ghost use Rattle.bhs_time.specs.Schedules.{DelayLaw, IsDelayLaw};

    ghost Value = { DelayLaw };

    ghost view = { λ delays. record { scales = delays.scales; odds = delays.odds } };

    ghost inverse = { λ law. record { scales = law.scales; odds = law.odds } };

    ghost invariant = { λ delays. IsDelayLaw (record { scales = delays.scales; odds = delays.odds }) };
}

impl Delays {
    /// The law with these numbers.
    pub fn new(scales: u16, odds: u16) -> Delays
        requires { IsDelayLaw (record { scales = scales; odds = odds }) }
        ensures { result ≡ record { scales = scales; odds = odds } }
    {
        Delays { scales, odds }
    }

    /// For how many scales a word may give a delay.
    pub fn scales(&self) -> u16
        ensures { result ≡ self.now.scales }
    {
        self.scales
    }

    /// Of how many words one gives a delay of a scale.
    pub fn odds(&self) -> u16
        ensures { result ≡ self.now.odds }
    {
        self.odds
    }

    /// How many turns a link takes by this word.
    pub fn by_word(&self, word: u32) -> u32
        ensures delay { result ≡ delay self.now.odds self.now.scales word }
        ensures bound { result < 2 ^ 24 }
    {
        let odds = u32::from(self.odds);
        let scale = word % odds;
        if scale < u32::from(self.scales) {
            let least = 1u32 << scale;
            least + word / odds % least
        } else {
            0
        }
    }
}
