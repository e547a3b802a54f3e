//! Where a packet comes from and goes to.

/// An address of the Internet protocol, version 4, with a port.
#[derive(Clone, Copy, Debug, PartialEq, Eq)]
pub struct Addr {
    /// The four bytes of the address, the first the highest: 127.0.0.1 is 7F000001 hex.
    pub ip: u32,
    pub port: u16,
}
