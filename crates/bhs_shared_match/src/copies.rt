//! Copying events out of a log, and their turns.

ghost use Rattle.std.specs.Prelude.{◌≡◌, IfOk, take, drop, map};
ghost use Rattle.bhs_shared_match.specs.Copies.{copy_of, copies};

use bhs_match::Match;
use bhs_model::{Event, Kept, Reply};
use bhs_net::Memory;
use std::alloc::Global;

/// A kept event of a match, and the reply to it, copied out of the log.
#[derive(Debug, Drop)]
pub struct Copied {
    pub event: Event,
    pub reply: Option<Reply>,
}

/// Copies of the kept events of a match from this place of its log on, `most` of them at the most.
pub(crate) fn copies(
    alloc: Global,
    play: &Match,
    from: usize,
    most: usize,
) -> Result<Vec<Copied>, Memory>
    ensures { IfOk result (λ found. found.items ≡ copies play.now.log from most) }
{
    copies_of(alloc, play, few(play.log(), from, most))
}

/// Copies of turns from this place on, `most` of them at the most.
pub(crate) fn turns_from(
    alloc: Global,
    turns: &[u32],
    from: usize,
    most: usize,
) -> Result<Vec<u32>, Memory>
    ensures { IfOk result (λ found. found.items ≡ take most (drop from turns.now)) }
{
    Ok(Vec::from_slice(alloc, few(turns, from, most))?)
}

// Returns at most `most` items from this place on.
fn few<T>(all: &[T], from: usize, most: usize) -> &[T]
    ensures { result.now ≡ take most (drop from all.now) }
{
    if from >= all.len() {
        return &[];
    }
    let later = &all[from..];
    &later[..most.min(later.len())]
}

fn copies_of(alloc: Global, play: &Match, few: &[Kept]) -> Result<Vec<Copied>, Memory>
    ensures { IfOk result (λ found. found.items ≡ map (copy_of play.now.log) few.now) }
{
    let mut found = Vec::with_capacity(alloc, few.len())?;
    for one in few {
        found.push(copy_of(play, one)?)?;
    }
    Ok(found)
}

fn copy_of(play: &Match, one: &Kept) -> Result<Copied, Memory>
    ensures { IfOk result (λ found. found ≡ copy_of play.now.log one.now) }
{
    let reply = match &one.mark {
        Some(mark) => Some(play.reply(mark)?),
        None => None,
    };
    Ok(Copied {
        event: one.event.try_clone()?,
        reply,
    })
}
