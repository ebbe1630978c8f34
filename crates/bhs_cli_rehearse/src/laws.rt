//! Laws of rehearsals whose scripts are played as they come. The functions do nothing.

ghost use Rattle.std.specs.Prelude.{ℕ, Bool, List};
ghost use Rattle.bhs_stream.specs.Streams.{known_gives, known_takes};
ghost use Rattle.bhs_rehearsal.specs.Stages.{Stage, Instruction};
ghost use Rattle.bhs_cli_rehearse.specs.Answered.{HasAnswered, IsTranscribed, Mean, known_flushes};
ghost use Rattle.bhs_cli_rehearse.specs.Interactive.{ScriptProgress, Interacts};

use std::io::{Read, Write};

/// If the bytes of reader and writer are known, then the output consists of the answers to all lines of the input, in
/// order.
pub fn known_answers<R: Read, W: Write>()
    ensures { (turns : ℕ) (stage : Stage) (input input' : R) (output output' : W) (reads : ℕ) (is_over : Bool)
        (progress : ScriptProgress)
        → Interacts (known_gives R.remaining) (known_takes W.contents) (known_flushes W.contents) turns stage input
        output
        reads is_over progress input' output'
        → HasAnswered R.remaining W.contents stage input input' output output' progress }
{}

/// The answers to lines are the output of the script of these lines, with an empty line after the output of each; both
/// leave the rehearsal in the same stage.
pub fn answers_are_transcripts()
    ensures { (games : ℕ) (stage : Stage) (lines : List (List ℕ)) (script : List Instruction) → Mean games lines script
        → IsTranscribed games stage lines script }
{}
