//! What a connection is sent.

/// Bytes that a connection is sent.
#[derive(Clone, Debug, PartialEq, Eq, Drop)]
pub struct Out {
    /// The number of the connection.
    pub conn: u16,
    /// At least one byte.
    pub bytes: Vec<u8>,
}
