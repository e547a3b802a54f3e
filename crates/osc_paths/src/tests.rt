//! Messages whose answer is known, read from their packets, and return addresses.

use super::*;
use osc_reader::read_packet;
use sl_base::Addr;
use sl_commands::{Command, Target, Verb};

/// Where the packets come from.
const FROM: Addr = Addr {
    ip: 0xc0a80107,
    port: 40001,
};

/// The number of the fault of a packet's first message, or 0 for a command, 8 for a ping, 9 for no
/// message.
fn fault_of(rt: &HostRuntime, packet: &[u8], loops: u8) -> u8 {
    match read_packet(rt.alloc(), packet) {
        Ok(messages) => match messages.as_slice() {
            [message, ..] => match command_of(message, loops, FROM) {
                Ok(Request::Play(_, _)) => 0,
                Ok(Request::Ping(_)) => 8,
                Err(fault) => fault.number(),
            },
            [] => 9,
        },
        Err(_) => 9,
    }
}

/// Packets with the numbers of loops and of the fault.
const PACKETS: [(&[u8], u8, u8); 10] = [
    (b"/sl/0/hit\0\0\0,s\0\0record\0\0", 1, 0),
    (b"/sl/0/hit\0\0\0,s\0\0record\0\0", 0, 1),
    (b"/sl/0/hit\0\0\0,f\0\0\0\0\0\0", 1, 2),
    (b"/sl/0/set\0\0\0,si\0nothing\0\0\0\0\x05", 1, 4),
    (b"/sl/0/set\0\0\0,si\0feedback\0\0\0\0\0\0\x03\xe9", 1, 5),
    (b"/sl/0/set\0\0\0,ss\0feedback\0\0\0\0\0\0\0\0", 1, 2),
    (b"/ping\0\0\0,ss\0\0\0\0\0/r\0\0", 1, 8),
    (b"/sl/-1/get\0\0,sss\0\0\0\0wet\0\0\0\0\0/r\0\0", 1, 1),
    (b"/sl/00/hit\0\0,s\0\0record\0\0", 1, 1),
    (b"/quit\0\0\0,\0\0\0", 1, 0),
];

#[test]
fn messages_are_commands_or_have_their_first_fault(rt: HostRuntime) {
    for (packet, loops, fault) in PACKETS {
        assert_eq!(rt; fault_of(&rt, packet, loops), fault, "{packet:?}");
    }
}

#[test]
fn a_hit_is_the_command_that_it_names(rt: HostRuntime) {
    let packet = b"/sl/-3/hit\0\0,s\0\0undo_all\0\0\0\0";
    let messages = read_packet(rt.alloc(), packet);
    let hit = match &messages {
        Ok(messages) => match messages.as_slice() {
            [message] => match command_of(message, 1, FROM) {
                Ok(Request::Play(command, None)) => command
                    == Command::Hit(Target::Selected, Verb::UndoAll),
                _ => false,
            },
            _ => false,
        },
        Err(_) => false,
    };
    assert!(rt; hit);
}

#[test]
fn return_addresses_have_their_spelling(rt: HostRuntime) {
    let local = Addr {
        ip: 0x7f000001,
        port: 9000,
    };
    let rows: [(&[u8], Option<Addr>); 8] = [
        (b"", Some(FROM)),
        (b"osc.udp://localhost:9000/", Some(local)),
        (b"127.0.0.1:9000", Some(local)),
        (b"127.0.0.01:9000", None),
        (b"localhost:09000", None),
        (b"localhost:0", None),
        (b"osc.udp://myhost:9000/", None),
        (b"localhost:9000//", None),
    ];
    for (bytes, addr) in rows {
        assert_eq!(rt; url_of(bytes, FROM), addr, "{bytes:?}");
    }
}
