//! The schedules that `explore` draws, by its words.

ghost use Rattle.std.specs.Prelude.{◌≡◌};
ghost use Rattle.bhs_cli_words.specs.Arguments.{number_within};
ghost use Rattle.bhs_cli_words.specs.Exploring.{drawing_in, drawing_of, objective_by, objective_in, scheduler_by};
ghost use Rattle.bhs_cli_words.specs.Exploring.{scheduler_in, seed_in};

use crate::commands::explore;
use crate::given::number_by;
use crate::orders::Drawing;
use bhs_model::{Objective, Scheduler};
use bhs_text::Text;

/// Returns the drawing that these words describe, or None without words.
#[tactic(auto, unfolding(crate::specs::Exploring::drawing_in))]
pub(crate) fn drawing(
    draws: Option<Text>,
    seed: Option<Text>,
    scheduler: Option<Text>,
    objective: Option<Text>,
) -> Option<Option<Drawing>>
    ensures { result ≡ drawing_in draws seed scheduler objective }
{
    match (draws, seed, scheduler, objective) {
        (None, None, None, None) => Some(None),
        (Some(draws), seed, scheduler, objective) => match drawn_by(
            draws, seed, scheduler, objective,
        ) {
            Some(drawing) => Some(Some(drawing)),
            None => None,
        },
        _ => None,
    }
}

// The schedules that these words have drawn, if --draws is given.
fn drawn_by(
    draws: Text,
    seed: Option<Text>,
    scheduler: Option<Text>,
    objective: Option<Text>,
) -> Option<Drawing>
    ensures { result ≡ drawing_of (number_within 1 4294967295 draws)
        (seed_in seed) (scheduler_by scheduler) (objective_by objective) }
{
    let schedules = number_by(explore::DRAWS.takes, draws.as_str())?;
    let seed = seed_in(&seed)?;
    let scheduler = scheduler_by(&scheduler)?;
    let objective = objective_by(&objective)?;
    Some(Drawing {
        schedules,
        seed,
        scheduler,
        objective,
    })
}

// Returns the seed, 0 by default.
fn seed_in(word: &Option<Text>) -> Option<u32>
    ensures { result ≡ seed_in word.now }
{
    match word {
        Some(word) => number_by(explore::SEED.takes, word.as_str()),
        None => Some(0),
    }
}

// Returns the scheduler; by default all agents are equally likely.
fn scheduler_by(word: &Option<Text>) -> Option<Scheduler>
    ensures { result ≡ scheduler_by word.now }
{
    match word {
        Some(word) => scheduler_in(word.as_str()),
        None => Some(Scheduler::Fair),
    }
}

/// A scheduler, by its name.
pub(crate) fn scheduler_in(word: &str) -> Option<Scheduler>
    ensures { result ≡ scheduler_in word.now }
{
    match word {
        "fair" => Some(Scheduler::Fair),
        "last-departed" => Some(Scheduler::LastDeparted),
        "starved" => Some(Scheduler::Starved),
        "slow-agents" => Some(Scheduler::SlowAgents),
        "slow-links" => Some(Scheduler::SlowLinks),
        _ => None,
    }
}

// Returns the objective, none by default.
fn objective_by(word: &Option<Text>) -> Option<Option<Objective>>
    ensures { result ≡ objective_by word.now }
{
    match word {
        Some(word) => match objective_in(word.as_str()) {
            Some(objective) => Some(Some(objective)),
            None => None,
        },
        None => Some(None),
    }
}

/// An objective, by its name.
pub(crate) fn objective_in(word: &str) -> Option<Objective>
    ensures { result ≡ objective_in word.now }
{
    match word {
        "moves" => Some(Objective::Moves),
        "lost" => Some(Objective::Lost),
        _ => None,
    }
}
