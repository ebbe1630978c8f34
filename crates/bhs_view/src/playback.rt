//! Plays a part of a log anew.

ghost use Rattle.std.specs.Prelude.{◌≡◌, ◌++◌, ◌∷◌, [], None, IfOk, length, map};
ghost use Rattle.bhs_model.specs.Cuts.{at_places};
ghost use Rattle.bhs_model.specs.Kept.{kept};
ghost use Rattle.bhs_model.specs.Marks.{events_of, read_if};
ghost use Rattle.bhs_model.specs.InOrder.{replies};
ghost use Rattle.bhs_model.specs.Setups.{normal};
ghost use Rattle.bhs_model.specs.declared.events.Event.TheVariants.{Close};
ghost use Rattle.bhs_match.specs.Matches.{world_in};
ghost use Rattle.bhs_world.specs.Faults.{first_fault};

use bhs_match::{Match, Sealed};
use bhs_model::{Event, Kept, Setup};
use bhs_net::{Memory, Net};
use bhs_world::SetupFault;
use std::alloc::Global;

/// A match on this network, set up so, in which nothing happened.
pub(crate) fn begun(alloc: Global, net: &Net, setup: Setup) -> Result<Match, Memory>
    requires { first_fault net.now setup ≡ None }
    ensures { IfOk result (λ game. game ≡ record { net = net.now; setup = normal net.now setup; log = [] }) }
{
    match Match::new(alloc, net.try_clone(alloc)?, setup) {
        Ok(game) => Ok(game),
        Err(SetupFault::Memory) => Err(Memory),
        Err(_) => unreachable!(),
    }
}

/// Plays the events at the chosen places of a log in a match where nothing happened, and a Close.
pub(crate) fn replay(mut game: Match, log: &[Kept], set: &[bool]) -> Result<Sealed, Memory>
    requires fresh { game.log ≡ [] }
    requires set { length set.now ≡ length log.now }
    ensures log { IfOk result (λ part. kept (world_in game) (at_places (events_of log.now) set.now ++ Close ∷ [])
        ≡ events_of part.log) }
    ensures replies { IfOk result (λ part. map (λ one. read_if part.log one.mark) part.log
        ≡ replies (world_in part) (events_of part.log)) }
    ensures same { IfOk result (λ part. (part.net ≡ game.net) × (part.setup ≡ game.setup)) }
{
    for place in 0..log.len() {
        if set[place] {
            game.apply(log[place].event.try_clone()?);
        }
    }
    game.apply(Event::Close);
    // The proof needs what the log says of itself.
    let _legal = game.log();
    match game.sealed() {
        Ok(sealed) => Ok(sealed),
        Err(_) => unreachable!(),
    }
}
