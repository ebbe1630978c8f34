//! Reading a tournament and its networks, and saying what its matches are.

ghost use Rattle.std.specs.Prelude.{◌≡◌, ℕ, List, IfOk, IfErr, Ok, length, map};
ghost use Rattle.std.specs.List.{All};
ghost use Rattle.bhs_files.specs.Names.{first_seen};
ghost use Rattle.bhs_files.specs.Tournaments.{plan, tournament_in};
ghost use Rattle.bhs_setups.specs.Fresh.{AreFresh};
ghost use Rattle.bhs_cli.specs.Fault.{IsOfFault};
ghost use Rattle.bhs_cli.specs.Showing.{Prints, Reports};
ghost use Rattle.bhs_cli.specs.Summary.{IsAssembled, IsRead, IsSummary};

use crate::reporting::faults::{Fault, report, report_with_cause};
use crate::streams::output::show_made;
use crate::tournaments::advice::{report_fault, report_file, report_unread};
use crate::tournaments::network_places::place_of;
use crate::tournaments::notes::{notes_on, tell_ignored};
use crate::tournaments::summaries::summary;
use bhs_files::{Tournament, read_network, read_tournament};
use bhs_model::{MAX_TEXT, MAX_TURNS};
use bhs_net::Net;
use bhs_setups::Lineup;
use bhs_stream::{Output, read_text};
use bhs_tournament::assemble;
use std::alloc::Global;
use std::fs;
use std::io::Write;
use std::rt::Files;

/// Reads a tournament and its networks as `told_lineup_of` does. Then a line for each match goes to `writer`. The
/// answer is the exit status.
pub fn check<F: Files, W: Output, E: Write>(
    alloc: Global,
    files: &F,
    name: &str,
    writer: &mut W,
    errors: &mut E,
) -> u8
    ensures { Reports (Prints W.takes W.flushes) IsSummary writer.old writer.new result }
{
    match told_lineup_of(alloc, files, name, errors) {
        Ok(lineup) => show_made(summary(alloc, &lineup.ready), writer, errors),
        Err(status) => status,
    }
}

/// Reads the tournament's file, then the files of the networks that it names, in the order in which its matches name
/// them, and puts them together. The first fault goes to `errors`, as a line `NAME: FAULT` with the name of the file,
/// perhaps with a line of what helps, and ends it: the answer is then its exit status.
pub fn lineup_of<F: Files, E: Write>(
    alloc: Global,
    files: &F,
    name: &str,
    errors: &mut E,
) -> Result<Lineup, u8>
    ensures made { IfOk result IsAssembled }
    ensures fresh { IfOk result (λ lineup. AreFresh lineup.ready.items) }
    ensures fault { IfErr result IsOfFault }
{
    let text = text_of_tournament(alloc, files, name, errors)?;
    let tournament = tournament_of(alloc, name, text.as_str(), errors)?;
    assembled(alloc, files, name, tournament, errors)
}

/// Does the same as `lineup_of`, and also reports what a reader of the file may not expect to `errors`: each ignored
/// key and then, unless there is a fault, the schedule and the held and dark links.
pub fn told_lineup_of<F: Files, E: Write>(
    alloc: Global,
    files: &F,
    name: &str,
    errors: &mut E,
) -> Result<Lineup, u8>
    ensures made { IfOk result IsAssembled }
    ensures fresh { IfOk result (λ lineup. AreFresh lineup.ready.items) }
    ensures fault { IfErr result IsOfFault }
{
    let text = text_of_tournament(alloc, files, name, errors)?;
    tell_ignored(alloc, name, text.as_str(), errors);
    let tournament = tournament_of(alloc, name, text.as_str(), errors)?;
    let Ok(notes) = notes_on(alloc, name, &tournament) else {
        return Err(report(name, Fault::Memory, errors));
    };
    let lineup = assembled(alloc, files, name, tournament, errors)?;
    let _ = errors.write_all(notes.as_bytes());
    Ok(lineup)
}

// Reads the networks of a tournament and puts all together.
fn assembled<F: Files, E: Write>(
    alloc: Global,
    files: &F,
    name: &str,
    tournament: Tournament,
    errors: &mut E,
) -> Result<Lineup, u8>
    requires { (text : List ℕ) × (tournament_in text ≡ Ok (plan tournament)) }
    ensures made { IfOk result IsAssembled }
    ensures fresh { IfOk result (λ lineup. AreFresh lineup.ready.items) }
    ensures fault { IfErr result IsOfFault }
{
    let networks = networks_of(alloc, files, name, &tournament, errors)?;
    match assemble(alloc, tournament, &networks) {
        Ok(lineup) => Ok(lineup),
        Err(fault) => Err(report_fault(name, fault, errors)),
    }
}

// The text of a file.
fn text_of<F: Files>(alloc: Global, files: &F, name: &str) -> Result<String, Fault> {
    let mut file = fs::open(files, name)?;
    let bytes = read_text(alloc, &mut file, MAX_TEXT, MAX_TURNS)?;
    String::from_utf8(bytes).map_err(|_| Fault::Text)
}

fn text_of_tournament<F: Files, E: Write>(
    alloc: Global,
    files: &F,
    name: &str,
    errors: &mut E,
) -> Result<String, u8>
    ensures { IfErr result IsOfFault }
{
    match text_of(alloc, files, name) {
        Ok(text) => Ok(text),
        Err(fault) => Err(report_with_cause(files, name, fault, errors)),
    }
}

fn tournament_of<E: Write>(
    alloc: Global,
    name: &str,
    text: &str,
    errors: &mut E,
) -> Result<Tournament, u8>
    ensures said { IfOk result (λ tournament. tournament_in text.now ≡ Ok (plan tournament)) }
    ensures fault { IfErr result IsOfFault }
{
    match read_tournament(alloc, text) {
        Ok(tournament) => Ok(tournament),
        Err(fault) => Err(report_file(alloc, name, text, fault, errors)),
    }
}

// The network of this name in a tournament, whose own file is `own`.
fn network_of<F: Files, E: Write>(
    alloc: Global,
    files: &F,
    own: &str,
    name: &str,
    errors: &mut E,
) -> Result<Net, u8>
    ensures read { IfOk result IsRead }
    ensures fault { IfErr result IsOfFault }
{
    let Ok(place) = place_of(alloc, files, own, name) else {
        return Err(report(name, Fault::Memory, errors));
    };
    let text = match text_of(alloc, files, place.as_str()) {
        Ok(text) => text,
        Err(fault) => return Err(report_unread(files, own, place.as_str(), fault, errors)),
    };
    match read_network(alloc, text.as_str()) {
        Ok(network) => Ok(network),
        Err(fault) => Err(report_file(alloc, place.as_str(), text.as_str(), fault, errors)),
    }
}

// The networks that a tournament names, in the order of `Tournament::networks`, each judged before the next is read.
// `own` is the name of the tournament's file.
fn networks_of<F: Files, E: Write>(
    alloc: Global,
    files: &F,
    own: &str,
    tournament: &Tournament,
    errors: &mut E,
) -> Result<Vec<Net>, u8>
    ensures count { IfOk result (λ networks. length networks.items
        ≡ length (first_seen (map (λ fixture. fixture.network) tournament.now.matches.items))) }
    ensures read { IfOk result (λ networks. All IsRead networks.items) }
    ensures fault { IfErr result IsOfFault }
{
    let mut networks = Vec::new(alloc);
    let names = match tournament.networks(alloc) {
        Ok(names) => names,
        Err(memory) => return Err(report(own, Fault::from(memory), errors)),
    };
    for name in names.as_slice() {
        let network = network_of(alloc, files, own, *name, errors)?;
        if networks.push(network).is_err() {
            return Err(report(*name, Fault::Memory, errors));
        }
    }
    Ok(networks)
}
