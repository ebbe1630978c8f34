//! Reasons to turn a client away.

ghost use Rattle.std.specs.Prelude.{◌≡◌};
ghost use Rattle.bhs_wire.specs.Denial.{denial_line};

/// Why a session ends before its agent has entered.
#[derive(Clone, Copy, Debug, PartialEq, Eq)]
pub enum Denial {
    /// The first line was no enter.
    Enter,
    /// No agent has the key.
    Key,
    /// The key was used before.
    Taken,
}

/// The line that tells a client why it is denied, without its line feed. Takes no memory.
pub fn denial_of(denial: Denial) -> &'static str
    ensures { result.now ≡ denial_line denial }
{
    match denial {
        Denial::Enter => "{\"no\":\"enter\"}",
        Denial::Key => "{\"no\":\"key\"}",
        Denial::Taken => "{\"no\":\"taken\"}",
    }
}
