//! Where clients connect from.

use std::net::IpAddr;

/// An address split into network and host: the first 24 bits of an IPv4 address, or the first 64 bits of an IPv6
/// address, and the remaining bits.
#[derive(Clone, Copy, Debug, PartialEq, Eq)]
pub(crate) struct Origin {
    pub(crate) network: u64,
    pub(crate) place: u64,
}

/// Returns the origin of a client's address. An IPv4-mapped IPv6 address counts as IPv4.
pub(crate) fn origin_of(address: IpAddr) -> Origin {
    match address.to_canonical() {
        IpAddr::V4(address) => {
            let [a, b, c, d] = address.octets();
            Origin {
                network: u64::from_be_bytes([0, 0, 0, 0, 0, a, b, c]),
                place: u64::from(d),
            }
        }
        IpAddr::V6(address) => {
            let [a, b, c, d, e, f, g, h, i, j, k, l, m, n, o, p] = address.octets();
            Origin {
                network: u64::from_be_bytes([a, b, c, d, e, f, g, h]),
                place: u64::from_be_bytes([i, j, k, l, m, n, o, p]),
            }
        }
    }
}
