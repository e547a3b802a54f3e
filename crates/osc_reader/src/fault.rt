//! What is wrong with a packet, and where.

ghost use Rattle.std.specs.Prelude.{◌≡◌, ◌-◌, length};
ghost use Rattle.osc_reader.specs.Places.{kind_number, fault_at};

/// What is wrong with a packet.
#[derive(Clone, Copy, Debug, PartialEq, Eq)]
pub enum PacketKind {
    /// The packet has fewer than 4 bytes, more than 8192, or no multiple of 4; or an element's size
    /// is 0 or no multiple of 4.
    Size,
    /// A string or a blob doesn't end in zeros, or an address doesn't begin with `/`.
    Text,
    /// The tags are missing, don't begin with `,`, or have a letter other than `i`, `s`, `f` and
    /// `b`.
    Tags,
    /// A field passes the end of its part.
    Short,
    /// Bytes are left over behind the arguments.
    Extra,
    /// A bundle stands within 8 bundles.
    Depth,
    /// There was no memory. It says nothing of the packet.
    Memory,
}

impl PacketKind {
    /// The number of the kind, 1 to 7.
    pub fn number(self) -> u8
        ensures { result ≡ kind_number self }
    {
        self as u8 + 1
    }
}

/// The first fault of a packet.
#[derive(Clone, Copy, Debug, PartialEq, Eq)]
pub struct PacketFault {
    pub kind: PacketKind,
    /// The offset in bytes of the field that has it; 0 for want of memory.
    pub at: u16,
}

/// The answer for want of memory.
pub(crate) const NO_MEMORY: PacketFault = PacketFault {
    kind: PacketKind::Memory,
    at: 0,
};

/// The offset of what is left of a part, by that of its end.
pub(crate) fn place(end: u16, left: &[u8]) -> u16
    ensures { result ≡ end - length left.now }
{
    let left = left.len();
    if left >= end as usize {
        0
    } else {
        end - left as u16
    }
}

/// A fault in the field at the front of what is left of a part.
pub(crate) fn fault_at(kind: PacketKind, end: u16, left: &[u8]) -> PacketFault
    ensures { result ≡ fault_at kind end left.now }
{
    PacketFault {
        kind,
        at: place(end, left),
    }
}
