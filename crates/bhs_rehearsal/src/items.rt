//! What waits in the queue of a connection.

use bhs_wire::Raw;

// What a connection's input brings.
#[derive(Drop)]
pub(crate) enum Item<'s> {
    // A line.
    Says(Raw<'s>),
    // Its end.
    Ends,
}
