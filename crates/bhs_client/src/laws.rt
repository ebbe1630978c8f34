//! What is read of the lines that a server writes, and how long a client's lines are. The functions do nothing.

ghost use Rattle.std.specs.Prelude.{◌≡◌, ℕ, List, length, Some};
ghost use Rattle.serde_json.specs.Written.{compact_text};
ghost use Rattle.bhs_model.specs.declared.commands.Command.TheVariants.{Write};
ghost use Rattle.bhs_model.specs.declared.replies.Reply.{Reply};
ghost use Rattle.bhs_wire.specs.Reply.{line};
ghost use Rattle.bhs_wire.specs.ReplyNumbers.{NumbersFit};
ghost use Rattle.bhs_wasm_team.specs.Agents.{write_length};
ghost use Rattle.bhs_client.specs.CommandLines.{data_of};
ghost use Rattle.bhs_client.specs.ReplyLines.{reply_on};

/// A client reads of the line of a reply that very reply.
pub fn replies_are_read()
    ensures { (reply : Reply) → NumbersFit reply → reply_on (line reply) ≡ Some reply }
{}

/// The line of a Write has the length by which a module's Write is judged.
pub fn writes_have_this_length()
    ensures { (key expect put : List ℕ)
        → length (compact_text (data_of key (Write expect put))) ≡ write_length expect put }
{}
