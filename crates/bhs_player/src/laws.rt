//! What clients say. The function does nothing.

ghost use Rattle.bhs_player.specs.Clients.{ClientsTalk};

use bhs_stream::{Input, Output};

/// The bytes that a client wrote and read until its agent ended are those of an agent that says what its strategy says,
/// line by line.
pub fn clients_talk<R: Input, W: Output>()
    ensures { ClientsTalk R.gives W.takes W.flushes }
{}
