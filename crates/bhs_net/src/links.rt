//! A link, by its two ends.

/// One link of a network: port `p` of node `v` is joined to port `q` of node `w`.
#[derive(Clone, Copy, Debug, PartialEq, Eq)]
pub struct Link {
    pub v: u16,
    pub p: u16,
    pub w: u16,
    pub q: u16,
}
