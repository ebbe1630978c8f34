//! The verdict on the match of a replay, if it is with its turns a timed execution.

ghost use Rattle.std.specs.Prelude.{◌≡◌, ◌↔◌, IsTrue, IfOk, IfErr, OnOk};
ghost use Rattle.bhs_cli_results.specs.Appeals.{fault_of, fault_of_late, own_head, Appeals, IsOnTime, IsWrongWith};

use crate::held_links::first_held;
use crate::judge::verdict_line;
use bhs_cli::{AppealFault, Fault, lineup_of, match_of, report, show_made, turns_of};
use bhs_cli_words::Appeal;
use bhs_deliveries::{Dealer, Schedule, Untimely, first_untimely};
use bhs_match::Sealed;
use bhs_net::Memory;
use bhs_referee::judge;
use bhs_replay::head_of;
use bhs_setups::{Lineup, Ready};
use bhs_stream::Output;
use bhs_time::ScheduleKind;
use std::alloc::Global;
use std::io::Write;
use std::rt::Files;

/// Reads a replay, the turns of its events and a tournament, and prints the verdict on the replay's match as a line, if
/// it is the match of that number in the tournament and is with these turns a timed execution. A fault goes to
/// `errors` and ends it. The answer is the exit status.
pub fn print_appealed_verdict<F: Files, W: Output, E: Write>(
    alloc: Global,
    files: &F,
    replay: &str,
    appeal: &Appeal,
    writer: &mut W,
    errors: &mut E,
) -> u8
    ensures { Appeals W.takes W.flushes appeal.now.game writer.old writer.new result }
{
    let sealed = match match_of(alloc, files, replay, errors) {
        Ok(sealed) => sealed,
        Err(status) => return status,
    };
    let events = sealed.log().len();
    let turns = match turns_of(alloc, files, appeal.turns.as_str(), events, errors) {
        Ok(turns) => turns,
        Err(status) => return status,
    };
    let lineup = match lineup_of(alloc, files, appeal.tournament.as_str(), errors) {
        Ok(lineup) => lineup,
        Err(status) => return status,
    };
    match compared(alloc, &lineup, appeal.game, &sealed, &turns) {
        Ok(()) => show_made(verdict_line(alloc, judge(&sealed)), writer, errors),
        Err(fault) => report(blamed(replay, appeal, fault), fault, errors),
    }
}

// Returns the name of the file to which a fault belongs.
fn blamed<'a>(replay: &'a str, appeal: &'a Appeal, fault: Fault) -> &'a str {
    match fault {
        Fault::NoMatch { .. } | Fault::Appeal(AppealFault::Adaptive) => appeal.tournament.as_str(),
        Fault::Appeal(AppealFault::Count { .. } | AppealFault::Early { .. }) => {
            appeal.turns.as_str()
        }
        _ => replay,
    }
}

/// Compares a replay and its turns with the match of this number of a tournament.
pub(crate) fn compared(
    alloc: Global,
    lineup: &Lineup,
    game: u16,
    sealed: &Sealed,
    turns: &[u32],
) -> Result<(), Fault>
    ensures on_time { OnOk result (IsOnTime (record {
      lineup = lineup.now;
      game = game;
      play = sealed.now;
      turns = turns.now;
    })) }
    ensures wrong { IfErr result (IsWrongWith (record {
      lineup = lineup.now;
      game = game;
      play = sealed.now;
      turns = turns.now;
    })) }
{
    let Some(ready) = lineup.ready.get(usize::from(game)) else {
        return Err(Fault::NoMatch { game });
    };
    let ScheduleKind::Oblivious(delays) = lineup.schedule else {
        return Err(Fault::Appeal(AppealFault::Adaptive));
    };
    if !is_same_match(alloc, sealed, ready)? {
        return Err(Fault::Appeal(AppealFault::Other { game }));
    }
    let events = sealed.log().len();
    if turns.len() != events {
        return Err(Fault::Appeal(AppealFault::Count {
            turns: turns.len(),
            events,
        }));
    }
    let dealer = Dealer::new(lineup.seed, u64::from(game));
    let schedule = Schedule {
        dealer: &dealer,
        delays,
        held: &ready.held,
    };
    let Some((place, why)) = first_untimely(alloc, sealed, turns, &schedule)? else {
        return Ok(());
    };
    let held = first_held(alloc, sealed, &ready.held)?;
    Err(Fault::Appeal(fault_of(place, why, held)))
}

// The fault of an event that belongs to no timed execution, if this is the first delivery over a held link.
fn fault_of(place: usize, why: Untimely, held: Option<usize>) -> AppealFault
    ensures { result ≡ fault_of place why held }
{
    match why {
        Untimely::Early => AppealFault::Early { place },
        Untimely::LeftOut { agent, turn } => AppealFault::LeftOut { place, agent, turn },
        Untimely::Late => late(place, held),
    }
}

fn late(place: usize, held: Option<usize>) -> AppealFault
    ensures { result ≡ fault_of_late place held }
{
    match held {
        Some(other) if other == place => AppealFault::Held { place },
        _ => AppealFault::Late { place },
    }
}

/// Returns whether a match that has ended has the same head as a match that is ready.
pub(crate) fn is_same_match(alloc: Global, sealed: &Sealed, ready: &Ready) -> Result<bool, Memory>
    ensures { IfOk result (λ same. IsTrue same ↔ (own_head sealed.now.net sealed.now.setup
        ≡ own_head ready.now.game.net ready.now.game.setup)) }
{
    let own = head_of(alloc, sealed.net(), sealed.setup())?;
    let other = head_of(alloc, ready.game.net(), ready.game.setup())?;
    Ok(own.as_str() == other.as_str())
}
