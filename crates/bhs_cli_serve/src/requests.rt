//! What the operator of a contest asks for on standard input.

ghost use Rattle.std.specs.Prelude.{◌≡◌};
ghost use Rattle.bhs_cli_serve.specs.Asking.{asked_in, closes};

use bhs_script::number_of;

/// What the operator asks for.
#[derive(Clone, Copy, Debug, PartialEq, Eq)]
pub(crate) enum OperatorRequest {
    /// That all matches be closed.
    CloseAll,
    /// That the match of this number be closed.
    Close(u32),
    /// That it is reported how the contest stands.
    Status,
}

/// What a line of the operator asks for in a contest of this number of matches, if it asks for something.
pub(crate) fn asked_in(matches: usize, line: &[u8]) -> Option<OperatorRequest>
    ensures { result ≡ asked_in matches line.now }
{
    if line == b"close".as_slice() {
        Some(OperatorRequest::CloseAll)
    } else if line == b"status".as_slice() {
        Some(OperatorRequest::Status)
    } else {
        closes(matches, line)
    }
}

fn closes(matches: usize, line: &[u8]) -> Option<OperatorRequest>
    ensures { result ≡ closes matches line.now }
{
    let number = number_of(line.strip_prefix(b"close ".as_slice())?)?;
    if (number as usize) < matches {
        Some(OperatorRequest::Close(number))
    } else {
        None
    }
}
