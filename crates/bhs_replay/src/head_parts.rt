//! What the first line of a replay says.

ghost use Rattle.std.specs.Prelude.{◌≡◌, codes, IfOk, Some, option_map, option_and_then};
ghost use Rattle.serde_json.specs.View.{view, items_view};
ghost use Rattle.serde_json.specs.Find.{get, as_array};
ghost use Rattle.bhs_replay.specs.HeadReading.{head_says, says_in, says_as, says_with, version_in, setup_in};
ghost use Rattle.bhs_replay.specs.HeadReading.{setup_with, holes_in, dark_in, each, list_at, number_in, item_at};
ghost use Rattle.bhs_replay.specs.HeadReading.{pair_in, link_in};
ghost use Rattle.bhs_replay.specs.HeadSeen.{seen};

use crate::event_reader::port_of;
use crate::heads::Version;
use bhs_model::{DarkLinks, Holes, Setup};
use bhs_net::{Link, Memory};
use serde_json::Value;
use std::alloc::Global;

/// What a head says.
#[derive(Drop)]
pub(crate) struct HeadFields {
    pub version: Version,
    pub nodes: u16,
    pub links: Vec<Link>,
    pub setup: Setup,
}

/// Returns the fields of a head from a line without its line feed, or None if the line cannot be a head. Does not judge
/// the line's spelling.
pub(crate) fn head_says(alloc: Global, line: &[u8]) -> Result<Option<HeadFields>, Memory>
    ensures { IfOk result (λ found. option_map seen found ≡ head_says line.now) }
{
    match Value::from_slice(alloc, line) {
        Ok(value) => says_in(alloc, &value),
        Err(error) if error.is_memory() => Err(Memory),
        Err(_) => Ok(None),
    }
}

fn says_in(alloc: Global, value: &Value) -> Result<Option<HeadFields>, Memory>
    ensures { IfOk result (λ found. option_map seen found ≡ says_in (view value.now)) }
{
    match version_in(value) {
        Some(version) => says_as(alloc, value, version),
        None => Ok(None),
    }
}

fn says_as(alloc: Global, value: &Value, version: Version) -> Result<Option<HeadFields>, Memory>
    ensures { IfOk result (λ found. option_map seen found ≡ says_as (view value.now) version) }
{
    let Some(links) = links_in(alloc, value)? else {
        return Ok(None);
    };
    let Some(setup) = setup_in(alloc, version, value)? else {
        return Ok(None);
    };
    Ok(says_with(version, links, value, setup))
}

fn says_with(version: Version, links: Vec<Link>, value: &Value, setup: Setup) -> Option<HeadFields>
    ensures { option_map seen result ≡ says_with version links.items (view value.now) setup }
{
    let nodes = port_of(value, "nodes")?;
    Some(HeadFields {
        version,
        nodes,
        links,
        setup,
    })
}

fn version_in(value: &Value) -> Option<Version>
    ensures { result ≡ version_in (view value.now) }
{
    match port_of(value, "replay")? {
        1 => Some(Version::One),
        2 => Some(Version::Two),
        3 => Some(Version::Three),
        _ => None,
    }
}

fn setup_in(alloc: Global, version: Version, value: &Value) -> Result<Option<Setup>, Memory>
    ensures { IfOk result (λ found. found ≡ setup_in version (view value.now)) }
{
    let Some(holes) = holes_in(alloc, version, value)? else {
        return Ok(None);
    };
    let Some(dark) = dark_in(alloc, version, value)? else {
        return Ok(None);
    };
    Ok(setup_with(Holes::from(holes), DarkLinks::from(dark), value))
}

fn setup_with(holes: Holes, dark: DarkLinks, value: &Value) -> Option<Setup>
    ensures { result ≡ setup_with holes dark (view value.now) }
{
    let home = port_of(value, "home")?;
    let agents = port_of(value, "agents")?;
    let quota = port_of(value, "quota")?;
    let board = port_of(value, "board")?;
    Some(Setup {
        home,
        holes,
        dark,
        agents,
        quota,
        board,
    })
}

fn holes_in(alloc: Global, version: Version, value: &Value) -> Result<Option<Vec<u16>>, Memory>
    ensures { IfOk result (λ found. option_map (λ holes. holes.items) found ≡ holes_in version (view value.now)) }
{
    match version {
        Version::One => Ok(Some(hole_in(alloc, value)?)),
        Version::Two | Version::Three => match list_of(value, "holes") {
            Some(items) => numbers(alloc, items),
            None => Ok(None),
        },
    }
}

fn hole_in(alloc: Global, value: &Value) -> Result<Vec<u16>, Memory>
    ensures { IfOk result (λ holes. holes_in Version.One (view value.now) ≡ Some holes.items) }
{
    let mut holes = Vec::new(alloc);
    if let Some(hole) = port_of(value, "hole") {
        holes.push(hole)?;
    }
    Ok(holes)
}

fn dark_in(
    alloc: Global,
    version: Version,
    value: &Value,
) -> Result<Option<Vec<(u16, u16)>>, Memory>
    ensures { IfOk result (λ found. option_map (λ dark. dark.items) found ≡ dark_in version (view value.now)) }
{
    match version {
        Version::One => Ok(Some(Vec::new(alloc))),
        Version::Two | Version::Three => match list_of(value, "dark") {
            Some(items) => pairs(alloc, items),
            None => Ok(None),
        },
    }
}

fn links_in(alloc: Global, value: &Value) -> Result<Option<Vec<Link>>, Memory>
    ensures { IfOk result (λ found. option_map (λ links. links.items) found
        ≡ list_at link_in (codes "links") (view value.now)) }
{
    match list_of(value, "links") {
        Some(items) => links(alloc, items),
        None => Ok(None),
    }
}

fn list_of<'v>(value: &'v Value, key: &str) -> Option<&'v [Value]>
    ensures { option_map (λ items. items_view items.now) result
        ≡ option_and_then as_array (get key.now (view value.now)) }
{
    let items = value.get(key)?.as_array()?;
    Some(items.as_slice())
}

fn numbers(alloc: Global, items: &[Value]) -> Result<Option<Vec<u16>>, Memory>
    ensures { IfOk result
        (λ found. option_map (λ numbers. numbers.items) found ≡ each number_in (items_view items.now)) }
{
    let mut numbers = Vec::new(alloc);
    for item in items {
        let Some(number) = number_in(item) else {
            return Ok(None);
        };
        numbers.push(number)?;
    }
    Ok(Some(numbers))
}

fn pairs(alloc: Global, items: &[Value]) -> Result<Option<Vec<(u16, u16)>>, Memory>
    ensures { IfOk result
        (λ found. option_map (λ pairs. pairs.items) found ≡ each pair_in (items_view items.now)) }
{
    let mut pairs = Vec::new(alloc);
    for item in items {
        let Some(pair) = pair_in(item) else {
            return Ok(None);
        };
        pairs.push(pair)?;
    }
    Ok(Some(pairs))
}

fn links(alloc: Global, items: &[Value]) -> Result<Option<Vec<Link>>, Memory>
    ensures { IfOk result
        (λ found. option_map (λ links. links.items) found ≡ each link_in (items_view items.now)) }
{
    let mut links = Vec::new(alloc);
    for item in items {
        let Some(link) = link_in(item) else {
            return Ok(None);
        };
        links.push(link)?;
    }
    Ok(Some(links))
}

fn number_in(value: &Value) -> Option<u16>
    ensures { result ≡ number_in (view value.now) }
{
    let number = value.as_u64()?;
    u16::try_from(number).ok()
}

fn pair_in(value: &Value) -> Option<(u16, u16)>
    ensures { result ≡ pair_in (view value.now) }
{
    let node = item_at(value, 0)?;
    let port = item_at(value, 1)?;
    Some((node, port))
}

fn link_in(value: &Value) -> Option<Link>
    ensures { result ≡ link_in (view value.now) }
{
    let v = item_at(value, 0)?;
    let p = item_at(value, 1)?;
    let w = item_at(value, 2)?;
    let q = item_at(value, 3)?;
    Some(Link { v, p, w, q })
}

fn item_at(value: &Value, place: usize) -> Option<u16>
    ensures { result ≡ item_at place (view value.now) }
{
    let number = value.get(place).and_then(Value::as_u64)?;
    u16::try_from(number).ok()
}
