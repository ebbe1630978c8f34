//! The match that the first line of a replay opens.

ghost use Rattle.std.specs.Prelude.{◌≡◌, ◌≢◌, ◌↔◌, ◌≤◌, [], length, if◌then◌else◌, Some, None, IfOk, OnOk, IsTrue};
ghost use Rattle.bhs_replay.specs.Head.{CanSay};
ghost use Rattle.bhs_replay.specs.HeadReading.{HeadFields as Said, head_says};
ghost use Rattle.bhs_replay.specs.HeadSeen.{seen};
ghost use Rattle.bhs_replay.specs.Opening.{OpensAs, Starts};

use crate::head_parts::{HeadFields, head_says};
use crate::heads::{Version, head_line};
use bhs_match::Match;
use bhs_model::{Setup, is_small};
use bhs_net::{Memory, Net, NetFault};
use bhs_world::SetupFault;
use std::alloc::Global;

/// The match that a line opens, with an empty log; None if the line is no head.
pub(crate) fn opened(alloc: Global, line: &[u8]) -> Result<Option<Match>, Memory>
    ensures { IfOk result (OpensAs line.now) }
{
    match head_says(alloc, line)? {
        Some(says) => opened_by(alloc, line, says),
        None => Ok(None),
    }
}

// The match that a line opens, if it says this.
fn opened_by(alloc: Global, line: &[u8], says: HeadFields) -> Result<Option<Match>, Memory>
    requires { Some (seen says) ≡ head_says line.now }
    ensures { IfOk result (OpensAs line.now) }
{
    let version = says.version;
    match started(alloc, says)? {
        Some(game) => if_head(alloc, line, version, game),
        None => Ok(None),
    }
}

// The match, if the line is its head.
fn if_head(
    alloc: Global,
    line: &[u8],
    version: Version,
    game: Match,
) -> Result<Option<Match>, Memory>
    ensures { (says : Said) → Some says ≡ head_says line.now → version ≡ says.version → Starts says (Some game)
        → IfOk result (OpensAs line.now) }
{
    if is_head(alloc, line, version, &game)? {
        return Ok(Some(game));
    }
    Ok(None)
}

// Returns whether a line is the head of a match.
fn is_head(alloc: Global, line: &[u8], version: Version, game: &Match) -> Result<bool, Memory>
    ensures { (says : Said) → Some says ≡ head_says line.now → version ≡ says.version → Starts says (Some game.now)
        → IfOk result (λ is. OpensAs line.now (if is then Some game.now else None)) }
{
    if !can_say(version, game.net(), game.setup()) {
        return Ok(false);
    }
    let text = head_line(alloc, version, game.net(), game.setup())?;
    Ok(line == text.as_bytes())
}

fn started(alloc: Global, says: HeadFields) -> Result<Option<Match>, Memory>
    ensures { IfOk result (Starts (seen says)) }
{
    let HeadFields {
        nodes,
        links,
        setup,
        ..
    } = says;
    let net = match Net::try_new(alloc, nodes, &links) {
        Ok(net) => net,
        Err(fault) => {
            refused_network(fault)?;
            return Ok(None);
        }
    };
    match Match::new(alloc, net, setup) {
        Ok(game) => Ok(Some(game)),
        Err(fault) => {
            refused_setup(fault)?;
            Ok(None)
        }
    }
}

/// That a network was refused, unless memory ran out.
fn refused_network(fault: NetFault) -> Result<(), Memory>
    ensures { OnOk result (fault ≢ NetFault.Memory) }
{
    match fault {
        NetFault::Memory => Err(Memory),
        _ => Ok(()),
    }
}

/// That a setup was refused, unless memory ran out.
fn refused_setup(fault: SetupFault) -> Result<(), Memory>
    ensures { OnOk result (fault ≢ SetupFault.Memory) }
{
    match fault {
        SetupFault::Memory => Err(Memory),
        _ => Ok(()),
    }
}

// Versions 1 and 2 have small matches, and version 1 has one black hole or none, and no dark link.
fn can_say(version: Version, net: &Net, setup: &Setup) -> bool
    ensures { IsTrue result ↔ CanSay version net.now setup.now }
{
    match version {
        Version::One => is_small(net, setup) && has_one_hole(setup),
        Version::Two => is_small(net, setup),
        Version::Three => true,
    }
}

// Returns whether the setup has at most one black hole and no dark link.
fn has_one_hole(setup: &Setup) -> bool
    ensures { IsTrue result ↔ ((length setup.now.holes ≤ 1) × (setup.now.dark ≡ [])) }
{
    setup.holes.nodes().len() <= 1 && setup.dark.ends().is_empty()
}
