//! The headline over bytes. Each contract is a law, which holds for every lineup and script; the functions do nothing.

ghost use Rattle.bhs_theorems_isolation.specs.ScriptHeadline.{EqualPastsAreSentEqualBytes};
ghost use Rattle.bhs_theorems_isolation.specs.SentAsMet.{OthersAreDenied, PastsAndCommandsSayWhatWasMet, SentAsMet};
ghost use Rattle.bhs_theorems_isolation.specs.MetExample.{TheBytesAreOfWhatWasMet, TheBytesAreThese};
ghost use Rattle.bhs_theorems_isolation.specs.MetExample.{TheHeadlineSpeaksOfIt};
ghost use Rattle.bhs_theorems_isolation.specs.Calls.{EqualPastsAreAnsweredAlike};
ghost use Rattle.bhs_theorems_isolation.specs.MetExample.{TheBytesAreEqual, ThePastIsOfWhatWasMet, ThePastsAreEqual};
ghost use Rattle.bhs_theorems_isolation.specs.MetExample.{TheHeadlineSpeaksOfTheOther};

/// Two connections of any two rehearsals that were made by `new` of lineups with empty logs, in matches of equal quota
/// and of whiteboards of equal size, whose agents have equal pasts and that were fed equal commands, were sent equal
/// bytes by the calls, as long as neither their matches nor their inputs have ended.
pub fn equal_pasts_are_answered_alike()
    ensures { EqualPastsAreAnsweredAlike }
{}

/// The same of scripts, as the definitions play them.
pub fn equal_pasts_are_sent_equal_bytes()
    ensures { EqualPastsAreSentEqualBytes }
{}

/// A connection that plays an agent gets exactly the bytes of what the agent met. If the match is closed, it then gets
/// the report that the match is over: at the close if its agent was on a link; at its next line if its agent was at a
/// node or had not entered; never if its agent had ended. A connection that plays no agent gets nothing, or one denial.
pub fn sent_as_met()
    ensures sent { SentAsMet }
    ensures others { OthersAreDenied }
{}

/// What was met is determined by the past and the commands.
pub fn met_as_past_and_commands()
    ensures { PastsAndCommandsSayWhatWasMet }
{}

/// A script with what its client met, worked out by hand; and one on another network, with other black holes and
/// another number of agents, where a client with an equal past is sent equal bytes.
pub fn worked_meetings()
    ensures past { ThePastIsOfWhatWasMet }
    ensures bytes { TheBytesAreOfWhatWasMet }
    ensures texts { TheBytesAreThese }
    ensures plays { TheHeadlineSpeaksOfIt }
    ensures other { TheHeadlineSpeaksOfTheOther }
    ensures equal_pasts { ThePastsAreEqual }
    ensures equal_bytes { TheBytesAreEqual }
{}
