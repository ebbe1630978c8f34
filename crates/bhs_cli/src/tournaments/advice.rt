//! What helps against a fault of a file: a second line, which begins with two spaces.

ghost use Rattle.bhs_cli.specs.Fault.{IsOfFault};

use crate::reporting::causes::{ABSENT, cause_of_no_read};
use crate::reporting::faults::{Fault, report};
use crate::reporting::names::Shown;
use crate::tournaments::network_places::other_folder;
use bhs_files::{FileFault, FileKey, TOURNAMENT_VERSION, known_keys, unknown_key};
use bhs_net::NetFault;
use bhs_world::SetupFault;
use std::alloc::Global;
use std::io::Write;
use std::rt::Files;
use toml::Table;

/// Reports what is wrong with the text of a file. The answer is the exit status.
pub(crate) fn report_file<E: Write>(
    alloc: Global,
    name: &str,
    text: &str,
    fault: FileFault,
    errors: &mut E,
) -> u8
    ensures { IsOfFault result }
{
    let status = report_fault(name, fault, errors);
    match fault {
        FileFault::Toml => tell_line(alloc, text, errors),
        FileFault::Unknown { game } => tell_unknown(alloc, text, game, errors),
        _ => {}
    }
    status
}

/// Reports what is wrong with what files say. The answer is the exit status.
pub(crate) fn report_fault<E: Write>(name: &str, fault: FileFault, errors: &mut E) -> u8
    ensures { IsOfFault result }
{
    let status = report(name, Fault::from(fault), errors);
    match fault {
        FileFault::Version => tell_shape(FileKey::Version, errors),
        FileFault::Missing { key, .. } => tell_shape(key, errors),
        FileFault::Shape { key, .. } => tell_shape(key, errors),
        FileFault::Net(fault) => tell_network(fault, errors),
        FileFault::Setup { fault, .. } => tell_setup(fault, errors),
        FileFault::KeyTwice { .. } => {
            let _ = errors.write_all(b"  keys: each stands once in a tournament\n");
        }
        FileFault::Held { .. } => {
            let _ = errors.write_all(b"  held: [node, port] of ports that the network has\n");
        }
        FileFault::Toml | FileFault::Unknown { .. } | FileFault::Memory => {}
    }
    status
}

/// Reports why a network's file could not be read, with the folders that were searched if it is absent. Returns the
/// exit status. `own` is the name of the tournament's file.
pub(crate) fn report_unread<F: Files, E: Write>(
    files: &F,
    own: &str,
    name: &str,
    fault: Fault,
    errors: &mut E,
) -> u8
    ensures { IsOfFault result }
{
    let status = report(name, fault, errors);
    if let Fault::Read = fault {
        match cause_of_no_read(files, name) {
            Some(cause) if cause != ABSENT => {
                let _ = writeln!(errors, "  {cause}");
            }
            _ => tell_folders(own, name, errors),
        }
    }
    status
}

// Tells from where the file of a network is looked for.
fn tell_folders<E: Write>(own: &str, name: &str, errors: &mut E) {
    let _ = errors.write_all(b"  a network is named by a path from the working directory");
    if let Some(folder) = other_folder(own, name) {
        let folder = Shown { name: folder };
        let _ = write!(errors, ", or from {folder}");
    }
    let _ = errors.write_all(b"\n");
}

// Tells the line, counted from 1, at which a text is no TOML document, and why.
fn tell_line<E: Write>(alloc: Global, text: &str, errors: &mut E) {
    let Err(error) = toml::table_from_str(alloc, text) else {
        return;
    };
    let Some(span) = error.span() else {
        return;
    };
    let line = line_at(text.as_bytes(), span.start);
    let why = error.message();
    let _ = writeln!(errors, "  line {line}: {why}");
    if let Some(lone) = text
        .lines()
        .position(|line| line.trim().starts_with("[match]"))
    {
        let line = lone.saturating_add(1);
        let _ = writeln!(
            errors,
            "  line {line} has [match]: write [[match]], as of a match among others"
        );
    }
}

// Reports the first unknown key of a tournament or match, with the known keys.
fn tell_unknown<E: Write>(alloc: Global, text: &str, game: Option<u32>, errors: &mut E) {
    let Ok(file) = toml::table_from_str(alloc, text) else {
        return;
    };
    let Some(key) = part_of(&file, game).and_then(|part| unknown_key(
        TOURNAMENT_VERSION,
        game,
        part,
    )) else {
        return;
    };
    let key = Shown { name: key };
    let _ = write!(errors, "  {key}: the keys here are");
    for (place, known) in known_keys(TOURNAMENT_VERSION, game).iter().enumerate() {
        let comma = if place == 0 { "" } else { "," };
        let _ = write!(errors, "{comma} {known}");
    }
    let _ = errors.write_all(b"\n");
}

// Returns the table of a tournament or of a match.
fn part_of(file: &Table, game: Option<u32>) -> Option<&Table> {
    match game {
        None => Some(file),
        Some(game) => {
            let matches = file.get("match")?.as_array()?;
            matches.get(game as usize)?.as_table()
        }
    }
}

// The line in which the byte at a place stands, counted from 1.
fn line_at(text: &[u8], place: usize) -> usize {
    let before = text.iter().take(place);
    1 + before.filter(|byte| **byte == b'\n').count()
}

// Reports the admissible values of a key.
fn tell_shape<E: Write>(key: FileKey, errors: &mut E) {
    let _ = writeln!(errors, "  {key}: {}", shape_of(key));
}

// Tells what links make a network. Links are counted from 0.
fn tell_network<E: Write>(fault: NetFault, errors: &mut E) {
    let _ = match fault {
        NetFault::Nodes => errors.write_all(b"  nodes: 3 to 256, and 4096 in version 2\n"),
        NetFault::Node { .. } => errors.write_all(b"  links: the nodes are 0 to nodes - 1\n"),
        NetFault::Loop { .. } => errors.write_all(b"  links: each joins two nodes\n"),
        NetFault::Double { .. } => errors.write_all(b"  links: two nodes have one link at most\n"),
        NetFault::PortTwice { .. } => errors.write_all(b"  links: a port has one link\n"),
        NetFault::PortGap { .. } => {
            errors.write_all(b"  links: a node's ports are 0, 1, 2 and so on\n")
        }
        NetFault::Apart => errors.write_all(b"  links: paths join all nodes\n"),
        NetFault::CutNode { .. } => {
            errors.write_all(b"  links: paths join all nodes, also without any one of them\n")
        }
        NetFault::Memory => return,
    };
}

// Reports the limits that a match's setup violates.
fn tell_setup<E: Write>(fault: SetupFault, errors: &mut E) {
    match fault {
        SetupFault::Home => {
            let _ = errors.write_all(b"  home: a node of the network, the first is 0\n");
        }
        SetupFault::Hole => {
            let _ = errors.write_all(b"  hole: nodes of the network other than home, each once\n");
        }
        SetupFault::Agents => {
            let _ = errors.write_all(b"  agents: as many as keys, 1 to 64\n");
        }
        SetupFault::Quota => tell_shape(FileKey::Quota, errors),
        SetupFault::Board => tell_shape(FileKey::Board, errors),
        SetupFault::Dark => {
            let _ = errors.write_all(
                b"  dark: [node, port] of one end of a link, each link once\n",
            );
        }
        SetupFault::Memory => {}
    }
}

// Returns a description of the admissible values of a key.
fn shape_of(key: FileKey) -> &'static str {
    match key {
        FileKey::Version => "1, 2 or 3; of a network 1 or 2",
        FileKey::Nodes | FileKey::Home => "a whole number, 0 to 65535",
        FileKey::Quota => "a whole number, 1 to 1000, and 65535 in version 3",
        FileKey::Board => "a whole number, 0 to 4096, and 65535 in version 3",
        FileKey::Links => "a list of [v, p, w, q], whole numbers 0 to 65535",
        FileKey::Seed => "a text of 64 hexadecimal digits",
        FileKey::Schedule => "\"adaptive\" or \"oblivious\"",
        FileKey::DelayScales => "a whole number, 0 to 24",
        FileKey::DelayOdds => "a whole number, 1 to 65535, and not less than delay_scales",
        FileKey::Match => "1 to 64 tables, each under a line [[match]]",
        FileKey::Team => "a text of 1 to 16 characters of a to z, 0 to 9 and -",
        FileKey::Network => "a text of 1 to 255 bytes, none of them 0",
        FileKey::Hole => "a node, 0 to 65535, or \"none\"",
        FileKey::Holes => "a list of nodes, whole numbers 0 to 65535",
        FileKey::Dark | FileKey::Held => "a list of [node, port], whole numbers 0 to 65535",
        FileKey::Keys => "a list of texts, each of 1 to 64 bytes",
    }
}
