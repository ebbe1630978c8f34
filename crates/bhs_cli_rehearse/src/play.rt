//! Playing the instructions of a script, and printing what is sent.

ghost use Rattle.std.specs.Prelude.{◌≡◌, ◌++◌, map, IfOk, IfErr, OnOk};
ghost use Rattle.bhs_stream.specs.Sending.{PutsAll};
ghost use Rattle.bhs_rehearsal.specs.Stages.{step, stands_after};
ghost use Rattle.bhs_rehearsal.specs.Rehearsing.{game_of, seen_out, sent_all, sent_once};
ghost use Rattle.bhs_script.specs.Instructions.{seen};
ghost use Rattle.bhs_script.specs.Transcript.{all_printed, transcript};
ghost use Rattle.bhs_cli_rehearse.specs.Pushing.{IsPushed};
ghost use Rattle.bhs_cli.specs.Playing.{StopsPlaying};

use bhs_cli::Fault;
use bhs_net::Memory;
use bhs_rehearsal::{Out, Rehearsal, RehearsalFault};
use bhs_script::{Instruction, push_printed};
use bhs_setups::Ready;
use bhs_stream::{Output, send};
use std::alloc::Global;

/// Plays a script, and prints what each instruction sends before the next. Gives the matches back.
pub fn play_script<'s, W: Output>(
    alloc: Global,
    mut rehearsal: Rehearsal<'s>,
    script: &'s [Instruction<'s>],
    writer: &mut W,
) -> Result<Vec<Ready>, Fault>
    ensures printed { OnOk result (PutsAll W.takes writer.old
        (transcript rehearsal.entry.stage (map seen script.now)) writer.new) }
    ensures played { IfOk result (λ ready. map game_of ready.items
        ≡ (stands_after rehearsal.entry.stage (map seen script.now)).games) }
    ensures stopped { IfErr result (StopsPlaying W.takes (transcript rehearsal.entry.stage (map seen script.now))
        writer.old writer.new) }
{
    play_all(alloc, &mut rehearsal, script, writer)?;
    Ok(rehearsal.into_ready())
}

fn play_all<'s, W: Output>(
    alloc: Global,
    rehearsal: &mut Rehearsal<'s>,
    script: &'s [Instruction<'s>],
    writer: &mut W,
) -> Result<(), Fault>
    ensures printed { OnOk result (PutsAll W.takes writer.old
        (transcript rehearsal.old.stage (map seen script.now)) writer.new) }
    ensures played { OnOk result (rehearsal.new.stage ≡ stands_after rehearsal.old.stage (map seen script.now)) }
    ensures stopped { IfErr result (StopsPlaying W.takes (transcript rehearsal.old.stage (map seen script.now))
        writer.old writer.new) }
{
    let mut text = Vec::new(alloc);
    for instruction in script {
        text.clear();
        obey(rehearsal, instruction, &mut text)?;
        send(writer, &text)?;
    }
    Ok(())
}

// Carries out an instruction and appends its output. An instruction with the number of no connection or match has no
// effect.
fn obey<'s>(
    rehearsal: &mut Rehearsal<'s>,
    instruction: &'s Instruction<'s>,
    text: &mut Vec<u8>,
) -> Result<(), Memory>
    ensures text { OnOk result (text.new.items ≡ text.old.items
        ++ all_printed (step rehearsal.old.stage (seen instruction.now)).outs) }
    ensures stage { OnOk result (rehearsal.new.stage ≡ (step rehearsal.old.stage (seen instruction.now)).stage) }
{
    if let Instruction::Feed { conn, bytes } = instruction {
        let sent = rehearsal.feed(*conn, bytes.as_slice());
        return push_once(rehearsal, text, sent);
    }
    obey_lent(rehearsal, instruction, text)
}

// The same of an instruction that is lent for this call alone: lines of a feed that wait are copied.
pub(crate) fn obey_lent(
    rehearsal: &mut Rehearsal<'_>,
    instruction: &Instruction<'_>,
    text: &mut Vec<u8>,
) -> Result<(), Memory>
    ensures text { OnOk result (text.new.items ≡ text.old.items
        ++ all_printed (step rehearsal.old.stage (seen instruction.now)).outs) }
    ensures stage { OnOk result (rehearsal.new.stage ≡ (step rehearsal.old.stage (seen instruction.now)).stage) }
{
    match instruction {
        Instruction::Feed { conn, bytes } => {
            let sent = rehearsal.feed_copied(*conn, bytes.as_slice());
            push_once(rehearsal, text, sent)
        }
        Instruction::End { conn } => {
            let sent = rehearsal.end(*conn);
            push_once(rehearsal, text, sent)
        }
        Instruction::Draw { game, word } => {
            let sent = rehearsal.draw(*game, *word);
            push_once(rehearsal, text, sent)
        }
        Instruction::Deliver { game, agent } => {
            let sent = rehearsal.deliver(*game, *agent);
            push_once(rehearsal, text, sent)
        }
        Instruction::Close { game } => push_all(text, rehearsal.close(*game)),
    }
}

// Adds what is printed of a call that sends to one connection at most, and gives its memory back.
fn push_once(
    rehearsal: &mut Rehearsal<'_>,
    text: &mut Vec<u8>,
    sent: Result<Option<Out>, RehearsalFault>,
) -> Result<(), Memory>
    ensures text { OnOk result (IsPushed sent_once sent text.old.items text.new.items) }
    ensures same { rehearsal.new ≡ rehearsal.old }
{
    match sent {
        Ok(Some(out)) => {
            push_printed(text, out.conn, &out.bytes)?;
            rehearsal.take_back(out);
            Ok(())
        }
        Err(RehearsalFault::Memory) => Err(Memory),
        Ok(None) | Err(RehearsalFault::Conn | RehearsalFault::NoGame) => Ok(()),
    }
}

// Adds what is printed of a call that sends to any number of connections.
fn push_all(text: &mut Vec<u8>, sent: Result<Vec<Out>, RehearsalFault>) -> Result<(), Memory>
    ensures { OnOk result (IsPushed sent_all sent text.old.items text.new.items) }
{
    match sent {
        Ok(outs) => push_outs(text, &outs),
        Err(RehearsalFault::Memory) => Err(Memory),
        Err(RehearsalFault::Conn | RehearsalFault::NoGame) => Ok(()),
    }
}

fn push_outs(text: &mut Vec<u8>, outs: &[Out]) -> Result<(), Memory>
    ensures { OnOk result (text.new.items ≡ text.old.items ++ all_printed (map seen_out outs.now)) }
{
    for out in outs {
        push_printed(text, out.conn, &out.bytes)?;
    }
    Ok(())
}
