//! Why a call of a rehearsal is refused.

/// Why a rehearsal refuses a call.
#[derive(Clone, Copy, Debug, PartialEq, Eq)]
pub enum RehearsalFault {
    /// No connection has this number.
    Conn = 1,
    /// No match has this number.
    NoGame = 2,
    /// Memory ran out, in this call or in an earlier one.
    Memory = 3,
}
