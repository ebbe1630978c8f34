//! A replay that is read piece by piece.

ghost use Rattle.std.specs.Prelude.{◌≡◌, ◌⊎◌, ℕ, List, ◌++◌, [], false, Some, IfOk, IfErr, OnOk};
ghost use Rattle.bhs_model.specs.Marks.{events_of};
ghost use Rattle.bhs_replay.specs.declared.faults.ReplayFault.TheVariants.{Memory, Head};
ghost use Rattle.bhs_replay.specs.Stages.{Opens, Wrong, Comes, Follows};
ghost use Rattle.bhs_replay.specs.Parts.{IsClosedAt, closed_events};
ghost use Rattle.bhs_replay.specs.Readers.{Stands, stage_by, stage_in, stage_at, finished_by, finished, Holds, IsPast};

use crate::faults::ReplayFault;
use crate::first_line::opened;
use crate::steps::play_line;
use bhs_match::{Match, Sealed};
use bhs_model::Event;
use bhs_wire::split_line;
use std::alloc::Global;

// The match of the lines so far.
#[derive(Drop)]
pub(crate) struct Playing {
    game: Match,
    // Whether the end line came.
    is_over: bool,
}

// A text that was read so far: the match, once its first line has ended, and the unfinished line.
#[derive(Drop)]
pub(crate) struct Reader {
    alloc: Global,
    playing: Option<Playing>,
    line: Vec<u8>,
}

impl Reader {
    pub fn new(alloc: Global) -> Reader
        ensures { Stands [] result }
    {
        Reader {
            alloc,
            playing: None,
            line: Vec::new(alloc),
        }
    }

    // Takes the next piece of the text, and judges the lines that end in it.
    pub fn feed(&mut self, piece: &[u8]) -> Result<(), ReplayFault>
        ensures ok { (text : List ℕ) → Stands text self.old → OnOk result (Stands (text ++ piece.now) self.new) }
        ensures err { (text : List ℕ) → Stands text self.old
            → IfErr result (λ fault. (fault ≡ Memory) ⊎ Comes (text ++ piece.now) (Wrong fault)) }
    {
        let mut after = piece;
        while let Some((end, more)) = split_line(after) {
            self.take_line(end)?;
            after = more;
        }
        self.hold(after)
    }

    // Takes the end of a line, up to its line feed. A line that comes whole is not copied.
    fn take_line(&mut self, end: &[u8]) -> Result<(), ReplayFault>
        ensures ok { OnOk result (Follows (stage_in self.old) (self.old.line.items ++ end.now) (stage_in self.new)) }
        ensures clear { OnOk result (self.new.line.items ≡ []) }
        ensures err { IfErr result (λ fault. (fault ≡ Memory)
            ⊎ Follows (stage_in self.old) (self.old.line.items ++ end.now) (Wrong fault)) }
    {
        if self.line.is_empty() {
            return play(self.alloc, &mut self.playing, end);
        }
        self.line.extend_from_slice(end)?;
        play(self.alloc, &mut self.playing, &self.line)?;
        self.line.clear();
        Ok(())
    }

    // Holds bytes of an unfinished line. None may stand behind the end line.
    fn hold(&mut self, bytes: &[u8]) -> Result<(), ReplayFault>
        ensures ok { OnOk result (Holds self.old bytes.now self.new) }
        ensures err { IfErr result (λ fault. (fault ≡ Memory)
            ⊎ ((fault ≡ ReplayFault.End) × IsPast self.old bytes.now)) }
    {
        if let Some(Playing { is_over: true, .. }) = &self.playing {
            if !bytes.is_empty() {
                return Err(ReplayFault::End);
            }
        }
        self.line.extend_from_slice(bytes)?;
        Ok(())
    }

    // The text ends here: the match of its whole lines, closed here if it was open. An unfinished line counts for
    // nothing.
    pub fn close(self) -> Result<Sealed, ReplayFault>
        ensures ok { IfOk result (IsClosedAt (stage_in self)) }
        ensures err { IfErr result (λ fault. (fault ≡ Head) × (stage_in self ≡ Opens)) }
    {
        let Reader { playing, .. } = self;
        match playing {
            Some(Playing { game, .. }) => Ok(closed_here(game)),
            None => Err(ReplayFault::Head),
        }
    }

    // The text has ended: the match, or what is wrong.
    pub fn finish(self) -> Result<Sealed, ReplayFault>
        ensures { result ≡ finished self }
    {
        let Reader { playing, .. } = self;
        match playing {
            Some(playing) => whole(playing),
            None => Err(ReplayFault::Head),
        }
    }
}

// The match, if its end line came.
fn whole(playing: Playing) -> Result<Sealed, ReplayFault>
    ensures { result ≡ finished_by (Some playing) }
{
    let Playing { game, is_over } = playing;
    if !is_over {
        return Err(ReplayFault::End);
    }
    match game.sealed() {
        Ok(sealed) => Ok(sealed),
        Err(_) => Err(ReplayFault::End),
    }
}

// A match for reading alone, closed here if it was open.
fn closed_here(mut game: Match) -> Sealed
    ensures { (result.net ≡ game.net) × (result.setup ≡ game.setup) × (events_of result.log
        ≡ closed_events game.net game.setup (events_of game.log)) }
{
    game.apply(Event::Close);
    match game.sealed() {
        Ok(sealed) => sealed,
        Err(_) => unreachable!(),
    }
}

// Judges a line.
fn play(alloc: Global, playing: &mut Option<Playing>, line: &[u8]) -> Result<(), ReplayFault>
    ensures ok { OnOk result (Follows (stage_by playing.old) line.now (stage_by playing.new)) }
    ensures err { IfErr result (λ fault. (fault ≡ Memory) ⊎ Follows (stage_by playing.old) line.now (Wrong fault)) }
{
    if let Some(playing) = playing {
        return play_on(alloc, playing, line);
    }
    match opened(alloc, line)? {
        Some(game) => {
            *playing = Some(Playing {
                game,
                is_over: false,
            });
            Ok(())
        }
        None => Err(ReplayFault::Head),
    }
}

// Judges a line behind the head.
fn play_on(alloc: Global, playing: &mut Playing, line: &[u8]) -> Result<(), ReplayFault>
    ensures ok { OnOk result (Follows (stage_at playing.old) line.now (stage_at playing.new)) }
    ensures err { IfErr result (λ fault. (fault ≡ Memory) ⊎ Follows (stage_at playing.old) line.now (Wrong fault)) }
{
    if playing.is_over {
        return Err(ReplayFault::End);
    }
    playing.is_over = play_line(alloc, &mut playing.game, line)?;
    Ok(())
}
