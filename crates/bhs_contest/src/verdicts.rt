//! Judging matches on threads of their own.

ghost use Rattle.std.specs.Prelude.{◌≡◌, ◌<◌, ◌≤◌, Some, IfOk, IfSome, length, map, slice_get, vec_len};
ghost use Rattle.bhs_referee.specs.Verdicts.{verdict_of};
ghost use Rattle.bhs_standings.specs.Shown.{Agree};
ghost use Rattle.bhs_contest.specs.declared.verdicts.TheConstants.{AT_ONCE};
ghost use Rattle.bhs_contest.specs.Judging.{HasSeen, HaveSeen};

use bhs_match::Sealed;
use bhs_net::Memory;
use bhs_referee::{Verdict, judge};
use bhs_standings::{Show, ShowNote, Showcase};
use std::alloc::{AllocError, Global};
use std::thread;
use std::thread::Threads;

// How many matches are judged at the same time.
const AT_ONCE: usize = 64;

/// The verdicts on these matches, in order. Each match is judged on a thread of its own, `AT_ONCE` of them at the same
/// time.
pub(crate) fn verdicts_of<R: Threads + Sync>(
    rt: &R,
    alloc: Global,
    sealed: &[Sealed],
) -> Result<Vec<Verdict>, Memory>
    ensures { IfOk result (λ verdicts. verdicts.items ≡ map verdict_of sealed.now) }
{
    let mut verdicts = Vec::with_capacity(alloc, sealed.len())?;
    let mut rest = sealed;
    while !rest.is_empty() {
        let (few, others) = rest.split_at(rest.len().min(AT_ONCE));
        let showcase = Showcase::new(alloc, few.len() as u32)?;
        let judged = judged_at_once(rt, alloc, &showcase, few)?;
        verdicts.extend_from_slice(&judged)?;
        rest = others;
    }
    Ok(verdicts)
}

// The verdicts on a few matches, in order. The thread of a match shows its verdict and gives back a note that has seen
// it; by that note the verdict is read.
fn judged_at_once<R: Threads + Sync>(
    rt: &R,
    alloc: Global,
    showcase: &Showcase,
    sealed: &[Sealed],
) -> Result<Vec<Verdict>, Memory>
    requires { length sealed.now ≤ AT_ONCE }
    ensures { IfOk result (λ verdicts. verdicts.items ≡ map verdict_of sealed.now) }
{
    let notes = notes_of(rt, alloc, showcase, sealed)?;
    let mut verdicts = Vec::with_capacity(alloc, sealed.len())?;
    for note in notes {
        let Some(note) = note else {
            return Err(AllocError);
        };
        let Some(verdict) = shown(showcase, verdicts.len() as u32, note) else {
            return Err(AllocError);
        };
        verdicts.push(verdict)?;
    }
    Ok(verdicts)
}

// Judges a few matches, each on a thread of its own, which shows the verdict. One note per match, each with the verdict
// that it has seen, or None if memory ran out.
fn notes_of<R: Threads + Sync>(
    rt: &R,
    alloc: Global,
    showcase: &Showcase,
    sealed: &[Sealed],
) -> Result<Vec<Option<ShowNote>>, Memory>
    requires { length sealed.now ≤ AT_ONCE }
    ensures all { IfOk result (λ notes. vec_len notes ≡ length sealed.now) }
    ensures seen { IfOk result (λ notes. HaveSeen showcase.now (map verdict_of sealed.now) 0 notes.items) }
{
    thread::map_indices(
        rt,
        alloc,
        sealed.len(),
        &|game| -> Option<ShowNote>
            requires { (game < length sealed.now) × (length sealed.now ≤ AT_ONCE) }
            ensures { IfSome result (HasSeen showcase.entry.now (map verdict_of sealed.entry.now) game) }
        { shown_by_judge(showcase, game as u32, &sealed[game]) },
    )
}

// Judges a match and shows the verdict, unless one is shown already: a note that has seen the verdict. None if memory
// ran out.
fn shown_by_judge(showcase: &Showcase, game: u32, sealed: &Sealed) -> Option<ShowNote>
    ensures place { IfSome result (λ note. slice_get showcase.now game ≡ Some note.place) }
    ensures seen { IfSome result (λ note. note.verdict ≡ Some (verdict_of sealed.now)) }
{
    let mut note = showcase.note(game)?;
    match showcase.show(game, judge(sealed), &mut note) {
        Ok(Show::Set) => Some(note),
        _ => None,
    }
}

// The verdict of a match: the note's, if the note has seen one.
fn shown(showcase: &Showcase, game: u32, mut note: ShowNote) -> Option<Verdict>
    requires { slice_get showcase.now game ≡ Some note.place }
    ensures { IfSome result (λ verdict. Agree note.verdict (Some verdict)) }
{
    showcase.shown(game, &mut note)
}
