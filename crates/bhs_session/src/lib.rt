//! Sessions: a client's lines are taken one by one, told to a port, and answered by lines.
#![tactic(auto)]

mod answers;
mod endings;
mod last_line;
mod laws;
mod lines;
mod port;
mod reader;
mod replies;
mod session;

pub use endings::{Ended, ending_of};
pub use laws::{lines_in_order, no_turns};
pub use lines::{command_in, key_in};
pub use port::{Entered, Port};
pub use replies::{push_denial, push_reply};
pub use session::serve;
