//! The lines behind the head of a replay.

ghost use Rattle.std.specs.Prelude.{◌≡◌, ◌<◌, ◌⊎◌, ◌↔◌, ℕ, List, length, Some, option_map, true, false, IsTrue};
ghost use Rattle.std.specs.Prelude.{IfOk, IfErr, OnOk};
ghost use Rattle.std.specs.List.{list_all};
ghost use Rattle.bhs_model.specs.Marks.{events_of, read_if};
ghost use Rattle.bhs_replay.specs.declared.faults.ReplayFault.TheVariants.{Memory as NoMemory};
ghost use Rattle.bhs_replay.specs.Stages.{Wrong, after_line, after_other, is_plain, starts_plain};
ghost use Rattle.bhs_replay.specs.Stages.{is_digit, is_end_line};
ghost use Rattle.bhs_wire.specs.LentReply.{reply_of};
ghost use Rattle.bhs_replay.specs.Spelling.{spelled};
ghost use Rattle.bhs_replay.specs.Reading.{stage_of};

use crate::event_reader::{read_event, spells};
use crate::events::{each_event_is_typed, each_reply_is_typed};
use crate::faults::ReplayFault;
use crate::lines::lent;
use crate::sights::seen;
use crate::writer::end_line;
use bhs_match::Match;
use bhs_model::{Event, Mark};
use bhs_net::Memory;
use bhs_wire::LentReply;
use std::alloc::Global;

/// Plays a line, and tells whether it is the end line.
pub(crate) fn play_line(alloc: Global, game: &mut Match, line: &[u8]) -> Result<bool, ReplayFault>
    ensures ok { IfOk result (λ is_end. stage_of game.new is_end
        ≡ after_line game.old.net game.old.setup (events_of game.old.log) line.now) }
    ensures err { IfErr result (λ fault. (fault ≡ NoMemory)
        ⊎ (Wrong fault ≡ after_line game.old.net game.old.setup (events_of game.old.log) line.now)) }
{
    if let Some((event, reply)) = seen(line) {
        let event = event.owned(alloc)?;
        if spells(&event, reply) {
            play_event(game, event, reply)?;
            return Ok(false);
        }
    }
    play_read(alloc, game, line)
}

// Plays a line in which nothing was seen: it is read as JSON.
fn play_read(alloc: Global, game: &mut Match, line: &[u8]) -> Result<bool, ReplayFault>
    ensures ok { IfOk result (λ is_end. stage_of game.new is_end
        ≡ after_line game.old.net game.old.setup (events_of game.old.log) line.now) }
    ensures err { IfErr result (λ fault. (fault ≡ NoMemory)
        ⊎ (Wrong fault ≡ after_line game.old.net game.old.setup (events_of game.old.log) line.now)) }
{
    match read_event(alloc, line)? {
        Some((event, reply)) => {
            play_event(game, event, lent(&reply))?;
            Ok(false)
        }
        None => {
            check_end(alloc, game, line)?;
            Ok(true)
        }
    }
}

// Plays the event that a line spells, and compares the line's reply with that of the match.
fn play_event(
    game: &mut Match,
    event: Event,
    reply: Option<LentReply<'_>>,
) -> Result<(), ReplayFault>
    ensures ok { (line : List ℕ) → spelled line ≡ Some (event, option_map reply_of reply.entry)
        → OnOk result (stage_of game.new false
        ≡ after_line game.old.net game.old.setup (events_of game.old.log) line) }
    ensures err { (line : List ℕ) → spelled line ≡ Some (event, option_map reply_of reply.entry)
        → IfErr result (λ fault. Wrong fault
        ≡ after_line game.old.net game.old.setup (events_of game.old.log) line) }
{
    let before = game.log().len();
    if game.closed() {
        return Err(ReplayFault::Line { line: before + 2 });
    }
    each_event_is_typed(&event);
    let answer = game.apply(event);
    if answer.place.is_none() {
        return Err(ReplayFault::Event { line: before + 2 });
    }
    let answered = reply_in(game, &answer.mark);
    each_reply_is_typed(answered);
    if is_same(reply, answered) {
        return Ok(());
    }
    Err(ReplayFault::Differs { line: before + 2 })
}

// The reply that a mark of the match's log stands for.
fn reply_in<'g>(game: &'g Match, mark: &Option<Mark>) -> Option<LentReply<'g>>
    ensures { option_map reply_of result ≡ read_if game.now.log mark.now }
{
    match mark {
        Some(mark) => Some(LentReply::of_mark(*mark, game.text(mark))),
        None => None,
    }
}

// Whether two replies are the same.
fn is_same(one: Option<LentReply<'_>>, other: Option<LentReply<'_>>) -> bool
    ensures { IsTrue result ↔ (option_map reply_of one.entry ≡ option_map reply_of other.entry) }
{
    match (one, other) {
        (Some(one), Some(other)) => is_same_reply(one, other),
        (None, None) => true,
        _ => false,
    }
}

fn is_same_reply(one: LentReply<'_>, other: LentReply<'_>) -> bool
    ensures { IsTrue result ↔ (reply_of one.entry ≡ reply_of other.entry) }
{
    match (one, other) {
        (
            LentReply::Here { ports, came, board },
            LentReply::Here {
                ports: other_ports,
                came: other_came,
                board: other_board,
            },
        ) => ports == other_ports && came == other_came && board == other_board,
        (LentReply::Changed { board }, LentReply::Changed { board: other }) => board == other,
        (LentReply::No(why), LentReply::No(other)) => why == other,
        (LentReply::Written, LentReply::Written)
        | (LentReply::Gone, LentReply::Gone)
        | (LentReply::Noted, LentReply::Noted)
        | (LentReply::Bye, LentReply::Bye)
        | (LentReply::Over, LentReply::Over) => true,
        _ => false,
    }
}

// Judges a line that spells no event: it must be the end line, behind a close.
fn check_end(alloc: Global, game: &Match, line: &[u8]) -> Result<(), ReplayFault>
    ensures ok { OnOk result (stage_of game.now true
        ≡ after_other game.now.net game.now.setup (events_of game.now.log) line.now) }
    ensures err { IfErr result (λ fault. (fault ≡ NoMemory)
        ⊎ (Wrong fault ≡ after_other game.now.net game.now.setup (events_of game.now.log) line.now)) }
{
    let count = game.log().len();
    let text = end_line(alloc, count)?;
    if game.closed() && line == text.as_bytes() {
        return Ok(());
    }
    if is_end_line(line) {
        return Err(ReplayFault::End);
    }
    Err(ReplayFault::Line { line: count + 2 })
}

// Whether a line is the end line of some number, however large.
fn is_end_line(line: &[u8]) -> bool
    ensures { result ≡ is_end_line line.now }
{
    let size = line.len();
    size >= 9
        && line[..7] == b"{\"end\":"[..]
        && line[size - 1] == b'}'
        && is_plain(&line[7..size - 1])
}

// A number in plain decimal.
fn is_plain(digits: &[u8]) -> bool
    requires { 0 < length digits.now }
    ensures { result ≡ is_plain digits.now }
{
    are_digits(digits) && starts_plain(digits)
}

fn are_digits(bytes: &[u8]) -> bool
    ensures { result ≡ list_all is_digit bytes.now }
{
    bytes.iter().all(|byte| is_digit(*byte))
}

// No zero stands before other digits.
fn starts_plain(digits: &[u8]) -> bool
    requires { 0 < length digits.now }
    ensures { result ≡ starts_plain digits.now }
{
    digits.len() == 1 || digits[0] != b'0'
}

fn is_digit(byte: u8) -> bool
    ensures { result ≡ is_digit byte }
{
    byte >= b'0' && byte <= b'9'
}
