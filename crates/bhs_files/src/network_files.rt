//! Reading a network file.

ghost use Rattle.std.specs.Prelude.{◌≡◌, None, option_map, IfOk, IfErr};
ghost use Rattle.toml.specs.Data.{array, item, no_items};
ghost use Rattle.toml.specs.View.{view, items_view, table_view};
ghost use Rattle.bhs_files.specs.declared.file_keys.FileKey.TheVariants as keys;
ghost use Rattle.bhs_files.specs.Shapes.{each};
ghost use Rattle.bhs_files.specs.Reading.{GivesUnlessMemory};
ghost use Rattle.bhs_files.specs.NetworkFiles.{link, links, listing_of, listing_within, listing_in};
ghost use Rattle.bhs_files.specs.NetworkFiles.{IsNetworkOf, RefusesFile};

use crate::faults::FileFault;
use crate::file_keys::FileKey;
use crate::limits::NETWORK_VERSION;
use crate::{documents, shapes, tables};
use bhs_model::SMALL_NODES;
use bhs_net::{Link, Memory, Net, NetFault};
use std::alloc::Global;
use toml::{Table, Value};

fn link(value: &Value) -> Option<Link>
    ensures { result ≡ link (view value.now) }
{
    match value.as_array()?.as_slice() {
        [v, p, w, q] => link_of(v, p, w, q),
        _ => None,
    }
}

fn link_of(v: &Value, p: &Value, w: &Value, q: &Value) -> Option<Link>
    ensures { result ≡ link (array (item (view v.now) (item (view p.now)
        (item (view w.now) (item (view q.now) no_items))))) }
{
    Some(Link {
        v: shapes::number(v)?,
        p: shapes::number(p)?,
        w: shapes::number(w)?,
        q: shapes::number(q)?,
    })
}

fn each_link(alloc: Global, items: &[Value]) -> Result<Option<Vec<Link>>, Memory>
    ensures { IfOk result
        (λ found. option_map (λ links. links.items) found ≡ each link (items_view items.now)) }
{
    let mut links = Vec::with_capacity(alloc, items.len())?;
    for item in items {
        let Some(link) = link(item) else {
            return Ok(None);
        };
        links.push(link)?;
    }
    Ok(Some(links))
}

fn links(alloc: Global, value: &Value) -> Result<Option<Vec<Link>>, Memory>
    ensures { IfOk result (λ found. option_map (λ links. links.items) found ≡ links (view value.now)) }
{
    match value.as_array() {
        Some(items) => each_link(alloc, items),
        None => Ok(None),
    }
}

#[tactic(auto, unfolding(crate::specs::NetworkFiles::listing_of))]
fn listing(alloc: Global, table: &Table) -> Result<(u16, Vec<Link>), FileFault>
    ensures { GivesUnlessMemory (λ listing. (listing.0, listing.1.items)) result
        (listing_of (table_view table.now)) }
{
    let nodes = tables::number(None, FileKey::Nodes, table)?;
    let value = tables::present(None, FileKey::Links, table)?;
    let links = tables::shaped(None, FileKey::Links, links(alloc, value)?)?;
    Ok((nodes, links))
}

// What a file of this version lists, if the version allows this number of nodes.
fn listing_within(version: u16, listing: (u16, Vec<Link>)) -> Result<(u16, Vec<Link>), FileFault>
    ensures { GivesUnlessMemory (λ listing. (listing.0, listing.1.items)) result
        (listing_within version (listing.0, listing.1.items)) }
{
    if version < 2 && listing.0 > SMALL_NODES {
        return Err(FileFault::Net(NetFault::Nodes));
    }
    Ok(listing)
}

// What a network file lists. Its table is dropped before the network is judged, which may then use that memory.
#[tactic(auto, unfolding(crate::specs::NetworkFiles::listing_in))]
fn listing_in(alloc: Global, text: &str) -> Result<(u16, Vec<Link>), FileFault>
    ensures { GivesUnlessMemory (λ listing. (listing.0, listing.1.items)) result (listing_in text.now) }
{
    let (version, table) = documents::document(alloc, text, NETWORK_VERSION)?;
    listing_within(version, listing(alloc, &table)?)
}

/// Reads a network file of version 1 or 2. The first fault is told: the text is no TOML document, then its version,
/// then `nodes` and `links`, whatever the order in the file, and then the first fault of the network that is listed.
/// Other keys are ignored.
pub fn read_network(alloc: Global, text: &str) -> Result<Net, FileFault>
    ensures made { IfOk result (IsNetworkOf (listing_in text.now)) }
    ensures refused { IfErr result (RefusesFile (listing_in text.now)) }
{
    let (nodes, links) = listing_in(alloc, text)?;
    Ok(Net::try_new(alloc, nodes, &links)?)
}
