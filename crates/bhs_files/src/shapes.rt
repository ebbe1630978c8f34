//! Reading the values of a file, each in its shape.

ghost use Rattle.std.specs.Prelude.{◌≡◌, ◌≤◌, length, option_copied, option_map, IfOk, IfSome, map, vec_len};
ghost use Rattle.toml.specs.Data.{as_table};
ghost use Rattle.toml.specs.View.{view, items_view, table_view};
ghost use Rattle.bhs_files.specs.Shapes.{number, is_sized, is_network_name, team};
ghost use Rattle.bhs_files.specs.Shapes.{network_name, key, seed, hole, holes, pair, each, ends, keys, matches};
ghost use Rattle.bhs_files.specs.Shapes.{is_oblivious, delay_scales, delay_odds};

use crate::limits::{MAX_KEY, MAX_KEYS, MAX_MATCHES, MAX_NETWORK_NAME};
use bhs_model::{SEED_BYTES, Text};
use bhs_net::Memory;
use bhs_text::is_team;
use bhs_time::MAX_SCALES;
use hex::FromHex;
use std::alloc::Global;
use toml::{Table, Value};

fn is_network_name(name: &str) -> bool
    ensures { result ≡ is_network_name name.now }
{
    is_sized(name, MAX_NETWORK_NAME) && name.as_bytes().iter().all(|byte| *byte != 0)
}

fn is_sized(text: &str, most: usize) -> bool
    ensures { result ≡ is_sized most text.now }
{
    1 <= text.len() && text.len() <= most
}

/// A whole number 0 to 65,535.
pub fn number(value: &Value) -> Option<u16>
    ensures { result ≡ number (view value.now) }
{
    match value.as_integer() {
        Some(number) => u16::try_from(number).ok(),
        None => None,
    }
}

pub fn team(value: &Value) -> Option<&str>
    ensures { option_copied result ≡ team (view value.now) }
{
    match value.as_str() {
        Some(name) if is_team(name) => Some(name),
        _ => None,
    }
}

pub fn network_name(value: &Value) -> Option<&str>
    ensures { option_copied result ≡ network_name (view value.now) }
{
    match value.as_str() {
        Some(name) if is_network_name(name) => Some(name),
        _ => None,
    }
}

pub fn key(value: &Value) -> Option<&str>
    ensures { option_copied result ≡ key (view value.now) }
{
    match value.as_str() {
        Some(key) if is_sized(key, MAX_KEY) => Some(key),
        _ => None,
    }
}

pub fn seed(value: &Value) -> Option<[u8; SEED_BYTES]>
    ensures { result ≡ seed (view value.now) }
{
    match value.as_str() {
        Some(digits) => <[u8; SEED_BYTES] as FromHex>::from_hex(digits).ok(),
        None => None,
    }
}

/// Returns whether the name is that of the oblivious schedule.
pub fn is_oblivious(value: &Value) -> Option<bool>
    ensures { result ≡ is_oblivious (view value.now) }
{
    match value.as_str() {
        Some(text) if text == "oblivious" => Some(true),
        Some(text) if text == "adaptive" => Some(false),
        _ => None,
    }
}

pub fn delay_scales(value: &Value) -> Option<u16>
    ensures shape { result ≡ delay_scales (view value.now) }
    ensures few { IfSome result (λ scales. scales ≤ MAX_SCALES) }
{
    match number(value) {
        Some(scales) if scales <= MAX_SCALES => Some(scales),
        _ => None,
    }
}

pub fn delay_odds(scales: u16, value: &Value) -> Option<u16>
    ensures shape { result ≡ delay_odds scales (view value.now) }
    ensures some { IfSome result (λ odds. (1 ≤ odds) × (scales ≤ odds)) }
{
    match number(value) {
        Some(odds) if 1 <= odds && scales <= odds => Some(odds),
        _ => None,
    }
}

pub fn hole(value: &Value) -> Option<Option<u16>>
    ensures { result ≡ hole (view value.now) }
{
    match value.as_str() {
        Some(text) if text == "none" => Some(None),
        Some(_) => None,
        None => Some(Some(number(value)?)),
    }
}

pub fn pair(value: &Value) -> Option<(u16, u16)>
    ensures { result ≡ pair (view value.now) }
{
    match value.as_array()?.as_slice() {
        [node, port] => Some((number(node)?, number(port)?)),
        _ => None,
    }
}

/// A copy of the text.
pub fn copied(alloc: Global, text: &str) -> Result<Text, Memory>
    ensures { IfOk result (λ copy. copy ≡ text.now) }
{
    Ok(Text::new(alloc, text)?)
}

fn key_texts(alloc: Global, items: &[Value]) -> Result<Option<Vec<Text>>, Memory>
    ensures reads { IfOk result
        (λ found. option_map (λ keys. keys.items) found ≡ each key (items_view items.now)) }
    ensures few { IfOk result (λ found. IfSome found (λ keys. vec_len keys ≤ length items.now)) }
{
    let mut keys = Vec::new(alloc);
    for item in items {
        let Some(text) = key(item) else {
            return Ok(None);
        };
        keys.push(copied(alloc, text)?)?;
    }
    Ok(Some(keys))
}

fn numbers(alloc: Global, items: &[Value]) -> Result<Option<Vec<u16>>, Memory>
    ensures { IfOk result
        (λ found. option_map (λ numbers. numbers.items) found ≡ each number (items_view items.now)) }
{
    let mut numbers = Vec::new(alloc);
    for item in items {
        let Some(number) = number(item) else {
            return Ok(None);
        };
        numbers.push(number)?;
    }
    Ok(Some(numbers))
}

fn pairs(alloc: Global, items: &[Value]) -> Result<Option<Vec<(u16, u16)>>, Memory>
    ensures { IfOk result
        (λ found. option_map (λ pairs. pairs.items) found ≡ each pair (items_view items.now)) }
{
    let mut pairs = Vec::new(alloc);
    for item in items {
        let Some(pair) = pair(item) else {
            return Ok(None);
        };
        pairs.push(pair)?;
    }
    Ok(Some(pairs))
}

fn tables(alloc: Global, items: &[Value]) -> Result<Option<Vec<&Table>>, Memory>
    ensures reads { IfOk result
        (λ found. option_map (λ tables. map (λ table. table_view table.now) tables.items) found
        ≡ each as_table (items_view items.now)) }
    ensures few { IfOk result (λ found. IfSome found (λ tables. vec_len tables ≤ length items.now)) }
{
    let mut tables = Vec::new(alloc);
    for item in items {
        let Some(table) = item.as_table() else {
            return Ok(None);
        };
        tables.push(table)?;
    }
    Ok(Some(tables))
}

/// The keys of a match's agents: at most `MAX_KEYS` texts of 1 to `MAX_KEY` bytes.
#[tactic(auto, using(crate::proofs::Each::counts_all))]
pub fn keys(alloc: Global, value: &Value) -> Result<Option<Vec<Text>>, Memory>
    ensures reads { IfOk result (λ found. option_map (λ keys. keys.items) found ≡ keys (view value.now)) }
    ensures few { IfOk result (λ found. IfSome found (λ keys. vec_len keys ≤ MAX_KEYS)) }
{
    match value.as_array() {
        Some(items) if items.len() <= MAX_KEYS => key_texts(alloc, items),
        _ => Ok(None),
    }
}

/// Black holes, each as a node.
pub fn holes(alloc: Global, value: &Value) -> Result<Option<Vec<u16>>, Memory>
    ensures { IfOk result (λ found. option_map (λ numbers. numbers.items) found ≡ holes (view value.now)) }
{
    match value.as_array() {
        Some(items) => numbers(alloc, items),
        None => Ok(None),
    }
}

/// Links, each as a node and a port.
pub fn ends(alloc: Global, value: &Value) -> Result<Option<Vec<(u16, u16)>>, Memory>
    ensures { IfOk result (λ found. option_map (λ pairs. pairs.items) found ≡ ends (view value.now)) }
{
    match value.as_array() {
        Some(items) => pairs(alloc, items),
        None => Ok(None),
    }
}

/// The tables of 1 to `MAX_MATCHES` matches.
#[tactic(auto, using(crate::proofs::Each::counts_all))]
pub fn matches(alloc: Global, value: &Value) -> Result<Option<Vec<&Table>>, Memory>
    ensures reads { IfOk result
        (λ found. option_map (λ tables. map (λ table. table_view table.now) tables.items) found
        ≡ matches (view value.now)) }
    ensures few { IfOk result (λ found. IfSome found (λ tables. vec_len tables ≤ MAX_MATCHES)) }
{
    match value.as_array() {
        Some(items) if 1 <= items.len() && items.len() <= MAX_MATCHES => tables(alloc, items),
        _ => Ok(None),
    }
}
