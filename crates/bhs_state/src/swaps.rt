//! What comes of a Write.

/// What comes of a write on a whiteboard.
#[derive(Clone, Copy, Debug, PartialEq, Eq)]
pub enum Swap {
    /// The new text has more bytes than the whiteboard holds. This is tested first.
    Long,
    /// The whiteboard shows another text than the expected one.
    Differs,
    /// The whiteboard shows the new text.
    Took,
}
