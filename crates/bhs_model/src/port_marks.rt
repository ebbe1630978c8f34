//! Marks of ports, by which a link is looked up in one step. Each node has a row, which is as long as its marks need.

ghost use Rattle.std.specs.Prelude.{◌≡◌, ◌<◌, length, IfOk, OnOk};
ghost use Rattle.bhs_model.specs.PortMarks.{marks_of, row_at, mark_at, unmarked, marked_at, HasMoreRoom};

use std::alloc::{AllocError, Global};

/// An empty row for each of as many nodes.
pub fn no_port_marks(alloc: Global, nodes: u16) -> Result<Vec<Vec<bool>>, AllocError>
    ensures { IfOk result (λ marks. marks_of marks.items ≡ unmarked nodes) }
{
    let mut marks = Vec::with_capacity(alloc, usize::from(nodes))?;
    for _ in 0..nodes {
        marks.push(Vec::new(alloc))?;
    }
    Ok(marks)
}

/// Makes room for the mark of a port. That changes no mark, and takes room from no other port.
pub fn make_room(marks: &mut Vec<Vec<bool>>, node: u16, port: u16) -> Result<(), AllocError>
    requires { node < length marks.old.items }
    ensures more { HasMoreRoom (marks_of marks.old.items) (marks_of marks.new.items) }
    ensures room { OnOk result (port < length (row_at (marks_of marks.new.items) node)) }
{
    let row = &mut marks[usize::from(node)];
    let length = row.len().max(usize::from(port) + 1);
    row.resize(length, false)
}

/// Sets the mark of a port.
pub fn mark_port(marks: &mut Vec<Vec<bool>>, node: u16, port: u16)
    requires node { node < length marks.old.items }
    requires port { port < length (row_at (marks_of marks.old.items) node) }
    ensures { marks_of marks.new.items ≡ marked_at (marks_of marks.old.items) node port }
{
    let row = &mut marks[usize::from(node)];
    row[usize::from(port)] = true;
}

/// Returns the mark of a port; false if the row is shorter or missing.
pub fn is_port_marked(marks: &[Vec<bool>], node: u16, port: u16) -> bool
    ensures { result ≡ mark_at (marks_of marks.now) node port }
{
    match marks.get(usize::from(node)) {
        Some(row) => row.get(usize::from(port)).copied().unwrap_or(false),
        None => false,
    }
}
