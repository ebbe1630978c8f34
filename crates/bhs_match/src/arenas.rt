//! Many matches, by their numbers.

ghost use Rattle.std.specs.Prelude.{◌≡◌, ◌≤◌, List, length, IfOk, OnErr, slice_get, option_copied};
ghost use Rattle.bhs_model.specs.Arenas.{Happening};
ghost use Rattle.bhs_match.specs.Games.{IsPlayedIn, AreLogsOf, GoesOn};

use crate::answers::Answer;
use crate::games::Match;
use bhs_model::Event;
use std::marker::Model;
use thiserror::Error;

/// Why an arena refuses an event.
#[derive(Clone, Copy, Debug, PartialEq, Eq, Error)]
pub enum ArenaFault {
    /// No match has this number.
    #[error("no game")]
    NoGame = 1,
}

/// Matches side by side, by number from 0.
#[derive(Debug, Drop)]
pub struct Arena {
    games: Vec<Match>,
}

impl Model for Arena {
    ghost use Rattle.std.specs.Prelude.{List};
    ghost use Rattle.bhs_match.specs.Matches.{Play};

    ghost Value = { List Play };

    ghost view = { λ arena. arena.games.items };
}

impl Arena {
    /// These matches, in order.
    pub fn new(games: Vec<Match>) -> Arena
        ensures { result ≡ games.items }
    {
        Arena { games }
    }

    /// Plays an event in one match. NoGame is told if there is no match of this number, and changes nothing. Takes
    /// no memory.
    pub fn apply(&mut self, game: u32, event: Event) -> Result<Answer, ArenaFault>
        ensures played { IfOk result (λ answer. IsPlayedIn self.old game event answer self.new) }
        ensures history { IfOk result (λ answer. (happenings : List Happening) → AreLogsOf self.old happenings
            → GoesOn self.old self.new happenings game event answer.mark) }
        ensures fault { OnErr result ((length self.old ≤ game) × (self.new ≡ self.old)) }
    {
        if game as usize >= self.games.len() {
            return Err(ArenaFault::NoGame);
        }
        let game = &mut self.games[game as usize];
        Ok(game.apply(event))
    }

    /// Returns the match with this number, or None beyond the last match.
    pub fn game(&self, game: u32) -> Option<&Match>
        ensures { option_copied result ≡ slice_get self.now game }
    {
        self.games.get(game as usize)
    }

    /// The matches, given back.
    pub fn into_games(self) -> Vec<Match>
        ensures { result.items ≡ self }
    {
        self.games
    }
}
