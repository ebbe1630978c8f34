//! A stream of words, drawn by ChaCha8 from a seed.

ghost use Rattle.std.specs.Prelude.{◌≡◌};

use rand_chacha::ChaCha8Rng;
use rand_core::SeedableRng;
use rand_core::utils::NextWord;
use std::marker::Model;

/// The words that pick a match's deliveries, one after the other: the ChaCha8 words of the tournament's
/// seed, on a stream of the match's own.
///
/// Two dealers of one seed and stream give the same words. A stream starts again after 2^68 words.
#[derive(Debug, Drop)]
pub struct Dealer {
    seed: [u8; 32],
    words: ChaCha8Rng,
}

// A dealer is seen as its key, its stream and the place of its next word.
impl Model for Dealer {
    ghost use Rattle.rand_chacha.specs.ChaCha.{ChaCha};

    ghost Value = { ChaCha };

    ghost use Rattle.std.specs.Prelude.{◌≡◌};
    ghost use Rattle.rand_chacha.specs.ChaCha.{key_of};

    ghost view = { λ dealer. dealer.words };

    ghost invariant = { λ dealer. dealer.words.key ≡ key_of dealer.seed };
}

impl Dealer {
    ghost use Rattle.std.specs.Prelude.{◌%◌};
    ghost use Rattle.bhs_deliveries.specs.Dealer.{dealer_at, next_word, moved_on, words_of_a_stream};
    ghost use Rattle.bhs_deliveries.specs.Delaying.{delay_word};

    /// The dealer at the start of a stream of the seed.
    pub fn new(seed: [u8; 32], stream: u64) -> Dealer
        ensures { result ≡ dealer_at seed stream 0 }
    {
        let mut words = ChaCha8Rng::from_seed(seed);
        words.set_stream(stream);
        Dealer { seed, words }
    }

    /// The word at the dealer's place. The dealer then stands at the next place, which after the stream's
    /// last one is its first.
    pub fn next(&mut self) -> u32
        ensures word { result ≡ next_word self.old }
        ensures moved { self.new ≡ moved_on self.old }
    {
        self.words.next_word()
    }

    /// A dealer of the same seed and stream that stands at this place.
    pub fn at(&self, place: u32) -> Dealer
        ensures { result ≡ record self.now { word_pos = place % words_of_a_stream } }
    {
        let mut words = ChaCha8Rng::from_seed(self.seed);
        words.set_stream(self.words.get_stream());
        words.set_word_pos(u128::from(place));
        Dealer {
            seed: self.seed,
            words,
        }
    }

    /// The word for the delay of an agent that departs after this many turns. It is of the agent's own stream, and the
    /// dealer stays where it is.
    pub fn delay_word(&self, agent: u16, departed: u32) -> u32
        ensures { result ≡ delay_word self.now agent departed }
    {
        let own = (u64::from(agent) + 1) * 4_294_967_296;
        let mut words = ChaCha8Rng::from_seed(self.seed);
        words.set_stream(self.words.get_stream().wrapping_add(own));
        words.set_word_pos(u128::from(departed));
        words.next_word()
    }
}
