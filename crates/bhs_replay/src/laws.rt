//! Laws of the definitions alone.

ghost use Rattle.std.specs.Prelude.{◌≡◌, true, ℕ, List, Option, Some};
ghost use Rattle.std.specs.Str.{IsUtf8};
ghost use Rattle.bhs_net.specs.Network.{Network};
ghost use Rattle.bhs_replay.specs.Head.{CanSay};
ghost use Rattle.bhs_replay.specs.Parts.{FrontsAreParts};
ghost use Rattle.bhs_replay.specs.Played.{HasEnded};
ghost use Rattle.bhs_replay.specs.EventLine.{event_line};
ghost use Rattle.bhs_replay.specs.Example.{triangle, short_setup, short_match};
ghost use Rattle.bhs_replay.specs.Replay.{replay};
ghost use Rattle.bhs_replay.specs.Stages.{ReadState, Ends, Comes};
ghost use Rattle.bhs_replay.specs.Spelling.{spelled, may_stand, EventFits, ReplyFits};

use crate::heads::Version;
use bhs_model::{Event, Reply, Setup};

/// A line spells an event and a reply exactly if it is their line, so no line is that of two.
pub fn one_spelling()
    ensures reads { (event : Event) (reply : Option Reply) → EventFits event → ReplyFits reply
        → may_stand event reply ≡ true → IsUtf8 (event_line event reply)
        → spelled (event_line event reply) ≡ Some (event, reply) }
    ensures writes { (text : List ℕ) (event : Event) (reply : Option Reply)
        → spelled text ≡ Some (event, reply)
        → (text ≡ event_line event reply) × (may_stand event reply ≡ true) }
    ensures fits { (text : List ℕ) (event : Event) (reply : Option Reply)
        → spelled text ≡ Some (event, reply) → EventFits event × ReplyFits reply }
    ensures utf8 { (text : List ℕ) (event : Event) (reply : Option Reply)
        → spelled text ≡ Some (event, reply) → IsUtf8 text }
{}

/// Only replays are accepted: an accepted text is the replay of the match that was read, in one of the versions. Every
/// other text has a fault.
pub fn only_replays_are_read()
    ensures { (text : List ℕ) (net : Network) (setup : Setup) (events : List Event)
        → Comes text (Ends net setup events)
        → (version : Version) × CanSay version net setup × (text ≡ replay version net setup events) }
{}

/// The replay of each match that has ended is accepted and read as that match, in each version that can express its
/// setup.
pub fn every_replay_is_read()
    ensures { (version : Version) (net : Network) (setup : Setup) (events : List Event)
        → CanSay version net setup → HasEnded net setup events
        → Comes (replay version net setup events) (Ends net setup events) }
{}

/// A short match on a triangle has ended: a match can meet what `every_replay_is_read` asks of it.
pub fn a_match_has_ended()
    ensures { HasEnded triangle short_setup short_match }
{}

/// A text comes to one stage, so none is read as two matches, or as a match and as a fault.
pub fn one_reading()
    ensures { (text : List ℕ) (one other : ReadState) → Comes text one → Comes text other → one ≡ other }
{}

/// Each front of a replay, cut anywhere, is read as a part: nothing is wrong with its whole lines.
pub fn fronts_are_parts()
    ensures { FrontsAreParts }
{}
