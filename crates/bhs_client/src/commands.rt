//! The lines of commands.

ghost use Rattle.std.specs.Prelude.{◌≡◌, ◌≤◌, length, false, string_bytes, Some, IfOk, OnOk};
ghost use Rattle.std.specs.List.{list_any};
ghost use Rattle.serde_json.specs.View.{view};
ghost use Rattle.bhs_model.specs.declared.limits.TheConstants.{MAX_LINE};
ghost use Rattle.bhs_wire.specs.First.{says};
ghost use Rattle.bhs_wire.specs.Lines.{is_line_feed};
ghost use Rattle.bhs_client.specs.CommandLines as specs;

use bhs_model::Command;
use serde_json::{Value, json};
use std::alloc::{AllocError, Global};

/// The line by which a client that enters with this key says a command, without its line feed. A server takes it for
/// the command, unless it is too long.
pub fn line_of(alloc: Global, key: &str, command: &Command) -> Result<String, AllocError>
    ensures meant { IfOk result (λ line. length (string_bytes line) ≤ MAX_LINE
        → says (string_bytes line) ≡ Some (specs.meant key.now command.now)) }
    ensures flat { IfOk result (λ line. list_any is_line_feed (string_bytes line) ≡ false) }
{
    value_of(alloc, key, command)?.to_string(alloc)
}

fn value_of(alloc: Global, key: &str, command: &Command) -> Result<Value, AllocError>
    ensures value { IfOk result (λ value. view value ≡ specs.data_of key.now command.now) }
    ensures fits { OnOk result (specs.PortFits command.now) }
{
    match command {
        Command::Enter => json!(in alloc; {"do": "enter", "key": key}),
        Command::Look => json!(in alloc; {"do": "look"}),
        Command::Write { expect, put } => {
            json!(in alloc; {"do": "write", "expect": expect.as_str(), "put": put.as_str()})
        }
        Command::Depart { port } => json!(in alloc; {"do": "depart", "port": *port}),
        Command::Accuse { port } => json!(in alloc; {"do": "accuse", "port": *port}),
        Command::Leave => json!(in alloc; {"do": "leave"}),
        Command::Bad => Ok(Value::Null),
    }
}
