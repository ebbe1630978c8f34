//! The replies that lines of a server say.

ghost use Rattle.std.specs.Prelude.{◌≡◌, IfOk};
ghost use Rattle.bhs_client.specs.ReplyLines.{reply_on};

use bhs_model::Reply;
use bhs_net::Memory;
use bhs_replay::reply_in;
use serde_json::Value;
use std::alloc::Global;

/// The reply that a line of a server says, if it says one. Further keys of its object are ignored.
pub fn reply_of(alloc: Global, line: &str) -> Result<Option<Reply>, Memory>
    ensures { IfOk result (λ reply. reply ≡ reply_on line.now) }
{
    match Value::from_str(alloc, line) {
        Ok(value) => reply_in(alloc, &value),
        Err(error) => {
            if error.is_memory() {
                Err(Memory)
            } else {
                Ok(None)
            }
        }
    }
}
