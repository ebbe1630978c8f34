//! The first line of a replay.

ghost use Rattle.std.specs.Prelude.{◌≡◌, ◌++◌, ◌∷◌, [], codes, string_bytes, map, IfOk, OnOk};
ghost use Rattle.json.specs.Token.{key, number};
ghost use Rattle.bhs_net.specs.Network.{IsNetwork};
ghost use Rattle.bhs_replay.specs.Head.{version_of, head_line, head_data, links_of, whole, listed, end_data, link_data};
ghost use Rattle.bhs_replay.specs.Head.{hole_data};
ghost use Rattle.bhs_replay.specs.HeadTokens.{data_tokens, doom_tokens, version_number};

use crate::links::links_of;
use bhs_model::{Setup, is_small};
use bhs_net::{Link, Memory, Net};
use bhs_wire::write_number;
use json::Writer;
use std::alloc::Global;

/// The version of a replay's text.
#[derive(Clone, Copy, Debug, PartialEq, Eq)]
pub enum Version {
    /// One black hole or none, and no dark link. It is read, and no longer written.
    One,
    /// Black holes and dark links.
    Two,
    /// More nodes, commands and bytes. It is written if version 2 cannot say the match.
    Three,
}

/// The head that a match on this network, set up so, is written with, without its line feed.
pub fn head_of(alloc: Global, net: &Net, setup: &Setup) -> Result<String, Memory>
    ensures line { IfOk result (λ text. string_bytes text
        ≡ head_line (version_of net.now setup.now) net.now setup.now) }
    ensures network { OnOk result (IsNetwork net.now) }
{
    let version = if is_small(net, setup) {
        Version::Two
    } else {
        Version::Three
    };
    head_line(alloc, version, net, setup)
}

/// The head of this version, without its line feed.
pub(crate) fn head_line(
    alloc: Global,
    version: Version,
    net: &Net,
    setup: &Setup,
) -> Result<String, Memory>
    ensures line { IfOk result (λ text. string_bytes text ≡ head_line version net.now setup.now) }
    ensures network { OnOk result (IsNetwork net.now) }
{
    let links = links_of(alloc, net)?;
    let mut out = Writer::new(Vec::new(alloc));
    write_head(&mut out, version, net, setup, &links)?;
    Ok(String::from_utf8(out.into_inner()).unwrap())
}

fn write_head(
    out: &mut Writer,
    version: Version,
    net: &Net,
    setup: &Setup,
    links: &[Link],
) -> Result<(), Memory>
    requires { links.now ≡ links_of net.now }
    ensures ok { OnOk result (out.new.tokens
        ≡ out.old.tokens ++ data_tokens (head_data version net.now setup.now)) }
    ensures before { out.new.before ≡ out.old.before }
    ensures network { OnOk result (IsNetwork net.now) }
{
    out.begin_object()?;
    write_number(out, "agents", setup.agents)?;
    write_number(out, "board", setup.board)?;
    write_dooms(out, version, setup)?;
    write_number(out, "home", setup.home)?;
    write_links(out, links)?;
    write_number(out, "nodes", net.nodes())?;
    write_number(out, "quota", setup.quota)?;
    write_number(out, "replay", number_of(version))?;
    Ok(out.end_object()?)
}

fn number_of(version: Version) -> u16
    ensures { result ≡ version_number version }
{
    match version {
        Version::One => 1,
        Version::Two => 2,
        Version::Three => 3,
    }
}

// The members that say what destroys.
fn write_dooms(out: &mut Writer, version: Version, setup: &Setup) -> Result<(), Memory>
    ensures ok { OnOk result (out.new.tokens ≡ out.old.tokens ++ doom_tokens version setup.now) }
    ensures before { out.new.before ≡ out.old.before }
{
    match version {
        Version::One => write_hole(out, setup.holes.nodes()),
        Version::Two | Version::Three => {
            write_dark(out, setup.dark.ends())?;
            write_holes(out, setup.holes.nodes())
        }
    }
}

fn write_hole(out: &mut Writer, holes: &[u16]) -> Result<(), Memory>
    ensures ok { OnOk result (out.new.tokens
        ≡ out.old.tokens ++ (key (codes "hole") ∷ data_tokens (hole_data holes.now))) }
    ensures before { out.new.before ≡ out.old.before }
{
    match holes {
        [] => {
            out.key("hole")?;
            Ok(out.null()?)
        }
        [hole, ..] => write_number(out, "hole", *hole),
    }
}

fn write_holes(out: &mut Writer, holes: &[u16]) -> Result<(), Memory>
    ensures ok { OnOk result (out.new.tokens
        ≡ out.old.tokens ++ (key (codes "holes") ∷ data_tokens (listed (map whole holes.now)))) }
    ensures before { out.new.before ≡ out.old.before }
{
    out.key("holes")?;
    write_row(out, holes)
}

fn write_dark(out: &mut Writer, ends: &[(u16, u16)]) -> Result<(), Memory>
    ensures ok { OnOk result (out.new.tokens
        ≡ out.old.tokens ++ (key (codes "dark") ∷ data_tokens (listed (map end_data ends.now)))) }
    ensures before { out.new.before ≡ out.old.before }
{
    out.key("dark")?;
    out.begin_array()?;
    for end in ends {
        write_row(out, &[end.0, end.1])?;
    }
    Ok(out.end_array()?)
}

fn write_links(out: &mut Writer, links: &[Link]) -> Result<(), Memory>
    ensures ok { OnOk result (out.new.tokens
        ≡ out.old.tokens ++ (key (codes "links") ∷ data_tokens (listed (map link_data links.now)))) }
    ensures before { out.new.before ≡ out.old.before }
{
    out.key("links")?;
    out.begin_array()?;
    for link in links {
        write_row(out, &[link.v, link.p, link.w, link.q])?;
    }
    Ok(out.end_array()?)
}

// A list of numbers.
fn write_row(out: &mut Writer, numbers: &[u16]) -> Result<(), Memory>
    ensures ok { OnOk result (out.new.tokens ≡ out.old.tokens ++ data_tokens (listed (map whole numbers.now))) }
    ensures before { out.new.before ≡ out.old.before }
{
    out.begin_array()?;
    for number in numbers {
        out.u64(u64::from(*number))?;
    }
    Ok(out.end_array()?)
}
