//! Reasons to turn a client away, and the line that reports them.

ghost use Rattle.std.specs.Prelude.{◌≡◌};
ghost use Rattle.bhs_server.specs.Rejections.{rejection_line};

use std::io::Write;
use std::net::{Shutdown, TcpStream};

/// The reason to turn a client away.
#[derive(Clone, Copy, Debug, PartialEq, Eq)]
pub enum Rejection {
    /// The number of agents has reached its limit, or most waiting clients come from the client's network.
    Full,
    /// Its first line was too long in coming, or it made room for another.
    Late,
    /// Memory or a thread was missing for the client.
    Memory,
}

/// The line that tells a client why it is not served, with its line feed. Takes no memory, and depends on no match.
pub fn rejection_line(why: Rejection) -> &'static str
    ensures { result.now ≡ rejection_line why }
{
    match why {
        Rejection::Full => "{\"no\":\"full\"}\n",
        Rejection::Late => "{\"no\":\"late\"}\n",
        Rejection::Memory => "{\"no\":\"memory\"}\n",
    }
}

/// Tells a client why it is not served. It was sent nothing before, so this waits for nobody.
pub(crate) fn reject(stream: &TcpStream, why: Rejection) {
    let _ = (&mut &*stream).write_all(rejection_line(why).as_bytes());
    let _ = stream.shutdown(Shutdown::Write);
}
