//! Packets whose reading is known, and a message whose bytes are.

use super::*;
use arrayvec::{ArrayString, ArrayVec};
use std::test::Fail;

/// Packets, and how many messages they say, or their first fault.
const PACKETS: [(&[u8], Result<usize, (PacketKind, u16)>); 14] = [
    (b"/sl/0/hit\0\0\0,s\0\0record\0\0", Ok(1)),
    (b"/sl/0/hit\0\0\0,s\0\0record\0", Err((PacketKind::Size, 0))),
    (
        b"/sl/0/hit\0\0\0,s\0\0record\0\x01",
        Err((PacketKind::Text, 16)),
    ),
    (b"/sl/0/hit\0\0\0,f\0\0\0\0\0\0", Ok(1)),
    (b"/a\0\0\0\0\0\0", Err((PacketKind::Tags, 4))),
    (b"/a\0\0", Err((PacketKind::Tags, 4))),
    (b"/a\0\0,i\0\0", Err((PacketKind::Short, 8))),
    (b"/a\0\0,\0\0\0\0\0\0\0", Err((PacketKind::Extra, 8))),
    (b"/a\0\0,b\0\0\xff\xff\xff\xff", Err((PacketKind::Short, 8))),
    (b"#bundle\0\0\0\0\0\0\0\0\x01", Ok(0)),
    (
        b"#bundle\0\0\0\0\0\0\0\0\x01\0\0\0\0",
        Err((PacketKind::Size, 16)),
    ),
    (
        b"#bundle\0\0\0\0\0\0\0\0\x01\0\0\0\x06/a\0\0,\0\0\0",
        Err((PacketKind::Size, 16)),
    ),
    (
        b"#bundle\0\0\0\0\0\0\0\0\x01\0\0\0\x08/a\0\0",
        Err((PacketKind::Short, 16)),
    ),
    (
        b"#bundle\0\0\0\0\0\0\0\0\x01\0\0\0\x08/a\0\0,\0\0\0\0\0\0\x08/b\0\0,\0\0\0",
        Ok(2),
    ),
];

#[test]
fn packets_say_their_messages_or_their_first_fault(rt: HostRuntime) {
    for (bytes, expected) in PACKETS {
        let given = match read_packet(rt.alloc(), bytes) {
            Ok(messages) => Ok(messages.len()),
            Err(fault) => Err((fault.kind, fault.at)),
        };
        assert_eq!(rt; given, expected, "{bytes:?}");
    }
}

#[test]
fn a_reply_is_written_in_its_bytes(rt: HostRuntime) -> Result<(), Fail> {
    let name = ArrayString::from("loop_len").ok().ok_or("too long")?;
    let mut out = ArrayVec::new();
    let args = [OutArg::Int(0), OutArg::Text(name), OutArg::Int(4)];
    assert!(rt; write_message(&mut out, b"/r", &args));
    assert_eq!(rt;
        out.as_slice(),
        b"/r\0\0,isi\0\0\0\0\0\0\0\0loop_len\0\0\0\0\0\0\0\x04".as_slice()
    );
    let mut full = ArrayVec::new();
    let long = [b'/'; 1024];
    assert!(rt; !write_message(&mut full, &long, &args));
    assert_eq!(rt; full.len(), 0);
    Ok(())
}
