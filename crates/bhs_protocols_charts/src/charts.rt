//! The chart of an unknown network, as agents read it on the whiteboard of the home base, change it and write it.

ghost use Rattle.std.specs.Prelude.{◌≡◌, ◌<◌, ◌≤◌, ◌+◌, ◌/◌, ◌%◌, ◌^◌, ◌++◌, [], ◌∷◌, false, Some, None, IsTrue};
ghost use Rattle.std.specs.Prelude.{IfOk, IfErr, OnOk, string_bytes, slice_set, length, map, drop, count_by};
ghost use Rattle.std.specs.List.{list_all};
ghost use Rattle.bhs_protocols_charts.specs.Charts as specs;
ghost use Rattle.bhs_protocols_charts.specs.Programs as programs;

use bhs_text::Text;
use std::alloc::{AllocError, Global};
use std::collections::VecDeque;
use std::marker::Model;

/// The state of a port that nobody has claimed.
pub const FREE: u8 = 0;

/// A port's state after an agent has claimed it and before the agent returns.
pub const CLAIMED: u8 = 1;

/// The state of a port from which an agent has come back.
pub const DONE: u8 = 2;

/// Why a text cannot be written.
#[derive(Clone, Copy, Debug, PartialEq, Eq)]
pub enum ChartFault {
    /// A number has no two characters: the network has 4,096 nodes or more, or a whiteboard has a strange text.
    TooLarge,
    /// Memory ran out.
    Memory,
}

impl From<AllocError> for ChartFault {
    ghost use Rattle.bhs_protocols_charts.specs.declared.charts.ChartFault.TheVariants as faults;

    ghost from_gives = { λ _ fault. fault ≡ faults.Memory };

    fn from(_refused: AllocError) -> ChartFault {
        ChartFault::Memory
    }
}

/// The ports that an agent seeks on the chart.
#[derive(Clone, Copy, Debug, PartialEq, Eq)]
pub enum PortKind {
    /// Nobody has claimed them.
    Free,
    /// Nobody has come back from them.
    Open,
}

/// A node behind a port that an agent has crossed: the row of the node before it, the port there, and the number of
/// its own ports.
#[derive(Clone, Copy, Debug, PartialEq, Eq)]
pub struct FoundNode {
    pub father: usize,
    pub port: u16,
    pub ports: u16,
}

/// What the chart says of a node.
#[derive(Debug, Drop)]
pub struct NodeRow {
    father: usize,
    port: u16,
    states: Vec<u8>,
}

impl Model for NodeRow {
    ghost use Rattle.std.specs.Prelude.{◌<◌, vec_len};
    ghost use Rattle.bhs_protocols_charts.specs.Charts.{ChartRow};

    ghost Value = { ChartRow };

    ghost view = { λ row. record { father = row.father; port = row.port; states = row.states.items } };

    ghost invariant = { λ row. vec_len row.states < 65536 };
}

impl NodeRow {
    /// The row of a node of which no port is claimed.
    pub fn new(alloc: Global, found: FoundNode) -> Result<NodeRow, AllocError>
        ensures { IfOk result (λ row. row ≡ programs.row_found found) }
    {
        Ok(NodeRow {
            father: found.father,
            port: found.port,
            states: vec![in alloc; FREE; usize::from(found.ports)]?,
        })
    }

    /// The number of its ports.
    pub fn ports(&self) -> usize
        ensures { result ≡ length self.now.states }
    {
        self.states.len()
    }

    /// How many ports nobody has come back from.
    pub fn open_ports(&self) -> usize
        ensures { result ≡ count_by specs.is_open self.now.states }
    {
        self.states.iter().filter(|state| **state != DONE).count()
    }

    // The row with these numbers and these characters for its states.
    fn read(alloc: Global, father: u16, port: u16, codes: &[u8]) -> Result<NodeRow, AllocError>
        requires { length codes.now < 65536 }
        ensures { IfOk result (λ row. row ≡ programs.row_read father port codes.now) }
    {
        Ok(NodeRow {
            father: usize::from(father),
            port,
            states: codes
                .iter()
                .map(|code| code.saturating_sub(32))
                .collect(alloc)?,
        })
    }

    // Returns the father's row and the port there.
    fn name(&self) -> (usize, u16)
        ensures { result ≡ (self.now.father, self.now.port) }
    {
        (self.father, self.port)
    }

    fn is_small(&self) -> bool
        ensures { result ≡ programs.is_small self.now }
    {
        if self.father >= 4096 || self.port >= 4096 || self.states.len() >= 4096 {
            return false;
        }
        are_small(&self.states)
    }

    // Adds its characters to a text.
    fn write(&self, text: &mut String) -> Result<(), AllocError>
        requires { IsTrue (programs.is_small self.now) }
        ensures { OnOk result (string_bytes text.new ≡ string_bytes text.old ++ specs.row_text self.now) }
    {
        push_number(text, self.father as u16)?;
        push_number(text, self.port)?;
        push_number(text, self.states.len() as u16)?;
        push_states(text, &self.states)
    }

    fn set_state(&mut self, port: u16, state: u8)
        ensures { self.new ≡ record self.old { states = slice_set self.old.states port state } }
    {
        if usize::from(port) < self.states.len() {
            self.states[usize::from(port)] = state;
        }
    }

    // Returns whether the row describes this node.
    fn is_of(&self, found: FoundNode) -> bool
        ensures { result ≡ specs.is_same_name (programs.row_found found) self.now }
    {
        found.father == self.father && found.port == self.port
    }

    // The first port of a kind.
    fn first_port(&self, kind: PortKind) -> Option<u16>
        ensures { result ≡ specs.first_port (programs.test_of kind) self.now.states 0 }
    {
        let mut port = 0;
        for state in &self.states {
            if is_of_kind(kind, *state) {
                return Some(port);
            }
            port += 1;
        }
        None
    }
}

fn is_of_kind(kind: PortKind, state: u8) -> bool
    ensures { result ≡ programs.test_of kind state }
{
    match kind {
        PortKind::Free => state == FREE,
        PortKind::Open => state != DONE,
    }
}

/// How many ports the nodes of the chart have together.
pub fn ends_of(chart: &[NodeRow]) -> usize
    requires { specs.ends_of chart.now < 2 ^ 64 }
    ensures { result ≡ specs.ends_of chart.now }
{
    chart.iter().map(|row| row.ports()).sum()
}

/// From how many of them nobody has come back.
pub fn open_ends_of(chart: &[NodeRow]) -> usize
    requires { specs.open_ends_of chart.now < 2 ^ 64 }
    ensures { result ≡ specs.open_ends_of chart.now }
{
    chart.iter().map(|row| row.open_ports()).sum()
}

/// The row and the number of the first port of a kind.
pub fn first_end(chart: &[NodeRow], kind: PortKind) -> Option<(usize, u16)>
    ensures { result ≡ specs.first_end (programs.test_of kind) chart.now 0 }
{
    for (at, row) in chart.iter().enumerate() {
        if let Some(port) = row.first_port(kind) {
            return Some((at, port));
        }
    }
    None
}

/// Changes the state of a port.
pub fn set_state(chart: &mut [NodeRow], row: usize, port: u16, state: u8)
    ensures { chart.new ≡ specs.with_state chart.old row port state }
{
    if row < chart.len() {
        chart[row].set_state(port, state);
    }
}

fn has_row(chart: &[NodeRow], found: FoundNode) -> bool
    ensures { result ≡ specs.has_row chart.now (programs.row_found found) }
{
    chart.iter().skip(1).any(|row| row.is_of(found))
}

/// Adds the row of a node that was found, if the chart lacks it.
pub fn join(
    alloc: Global,
    chart: &mut Vec<NodeRow>,
    found: Option<FoundNode>,
) -> Result<(), AllocError>
    ensures { OnOk result (chart.new.items ≡ specs.joined chart.old.items (programs.rows_found found)) }
{
    if let Some(found) = found {
        if !has_row(chart, found) {
            chart.push(NodeRow::new(alloc, found)?)?;
        }
    }
    Ok(())
}

// Returns the row of the father of a row's node, and the port there.
fn name_at(chart: &[NodeRow], row: usize) -> (usize, u16)
    ensures { result ≡ ((specs.row_at chart.now row).father, (specs.row_at chart.now row).port) }
{
    match chart.get(row) {
        Some(it) => it.name(),
        None => (0, 0),
    }
}

/// The ports by which one goes from the home base to the node of a row.
pub fn path(alloc: Global, chart: &[NodeRow], row: usize) -> Result<VecDeque<u16>, AllocError>
    ensures { IfOk result (λ ports. ports.items ≡ specs.path chart.now row) }
{
    let mut ports = VecDeque::new(alloc);
    let mut at = row;
    let mut fuel = row;
    while fuel > 0 && at != 0 {
        let (father, port) = name_at(chart, at);
        ports.push_front(port)?;
        at = father;
        fuel -= 1;
    }
    Ok(ports)
}

// ---- the texts

fn value(by_64: u8, ones: u8) -> u16
    ensures { result ≡ specs.value by_64 ones }
{
    u16::from(by_64.saturating_sub(32)) * 64 + u16::from(ones.saturating_sub(32))
}

// The first row in a text, and how many characters it has.
fn first_row(alloc: Global, text: &[u8]) -> Result<(NodeRow, usize), AllocError>
    requires { 6 ≤ length text.now }
    ensures row { IfOk result (λ first. specs.rows_in (length text.now) text.now
        ≡ first.0 ∷ specs.rows_in (length (drop first.1 text.now)) (drop first.1 text.now)) }
    ensures some { IfOk result (λ first. 0 < first.1) }
    ensures within { IfOk result (λ first. first.1 ≤ length text.now) }
{
    let ports = usize::from(value(text[4], text[5])).min(text.len() - 6);
    let father = value(text[0], text[1]);
    let states = &text[6..6 + ports];
    let row = NodeRow::read(alloc, father, value(text[2], text[3]), states)?;
    Ok((row, 6 + ports))
}

fn rows_in(alloc: Global, text: &[u8]) -> Result<Vec<NodeRow>, AllocError>
    ensures { IfOk result (λ rows. rows.items ≡ specs.rows_in (length text.now) text.now) }
{
    let mut rows = Vec::new(alloc);
    let mut rest = text;
    while rest.len() >= 6 {
        let (row, length) = first_row(alloc, rest)?;
        rows.push(row)?;
        rest = &rest[length..];
    }
    Ok(rows)
}

/// The chart on the whiteboard of a home base with this number of ports.
pub fn chart_of(alloc: Global, ports: u16, text: &[u8]) -> Result<Vec<NodeRow>, AllocError>
    ensures chart { IfOk result (λ chart. chart.items ≡ specs.chart_of ports text.now) }
    ensures few { IfOk result (λ chart. specs.ends_of chart.items < 2 ^ 64) }
{
    let mut rows = rows_in(alloc, text)?;
    if !rows.is_empty() {
        return Ok(rows);
    }
    let (father, port) = (0, 0);
    rows.push(NodeRow::new(
        alloc,
        FoundNode {
            father,
            port,
            ports,
        },
    )?)?;
    Ok(rows)
}

/// What the whiteboard of a node with this number of ports says of it; the home base's says nothing.
pub fn row_named(ports: u16, text: &[u8]) -> Option<FoundNode>
    ensures { programs.rows_found result ≡ specs.row_named ports text.now }
{
    match text {
        [a, b, c, d] => Some(FoundNode {
            father: usize::from(value(*a, *b)),
            port: value(*c, *d),
            ports,
        }),
        _ => None,
    }
}

/// The text of a chart.
pub fn text_of(alloc: Global, chart: &[NodeRow]) -> Result<Text, ChartFault>
    ensures text { IfOk result (λ text. text ≡ specs.text_of chart.now) }
    ensures large { IfErr result (λ fault. fault ≡ ChartFault.TooLarge → programs.are_small chart.now ≡ false) }
{
    let mut text = String::new(alloc);
    for row in chart {
        if !row.is_small() {
            return Err(ChartFault::TooLarge);
        }
        row.write(&mut text)?;
    }
    Ok(Text::new(alloc, text.as_str())?)
}

/// Returns the name for a node's whiteboard, from its father's row and the port there.
pub fn name_of(alloc: Global, father: usize, port: u16) -> Result<Text, ChartFault>
    ensures text { IfOk result (λ text. text ≡ specs.name_of father port) }
    ensures large { IfErr result (λ fault. fault ≡ ChartFault.TooLarge
        → programs.is_small (specs.new_row father port 0) ≡ false) }
{
    if father >= 4096 || port >= 4096 {
        return Err(ChartFault::TooLarge);
    }
    let mut text = String::new(alloc);
    push_number(&mut text, father as u16)?;
    push_number(&mut text, port)?;
    Ok(Text::new(alloc, text.as_str())?)
}

fn are_small(states: &[u8]) -> bool
    ensures { result ≡ list_all programs.is_small_state states.now }
{
    states.iter().all(|state| *state < 96)
}

fn push_states(text: &mut String, states: &[u8]) -> Result<(), AllocError>
    requires { IsTrue (list_all programs.is_small_state states.now) }
    ensures { OnOk result (string_bytes text.new
        ≡ string_bytes text.old ++ map (λ state. 32 + state) states.now) }
{
    for state in states {
        push(text, *state)?;
    }
    Ok(())
}

fn push_number(text: &mut String, number: u16) -> Result<(), AllocError>
    requires { number < 4096 }
    ensures { OnOk result (string_bytes text.new
        ≡ string_bytes text.old ++ (32 + number / 64) ∷ (32 + number % 64) ∷ []) }
{
    push(text, (number / 64) as u8)?;
    push(text, (number % 64) as u8)
}

fn push(text: &mut String, digit: u8) -> Result<(), AllocError>
    requires { digit < 96 }
    ensures { OnOk result (string_bytes text.new ≡ string_bytes text.old ++ (32 + digit) ∷ []) }
{
    text.push(char::from(b' ' + digit))
}
