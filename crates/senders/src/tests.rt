//! Packets, bytes, floods and quotas, as calls.

ghost use Rattle.std.specs.Prelude.{◌≤◌};

use crate::{Decision, MidiSender, OscSender, Refusal};
use event_rings::ring_with;
use midi_bindings::read_bindings;
use sl_base::Addr;
use sl_commands::Command;
use std::alloc::Global;
use std::sync::Wait;
use std::test::Fail;

const FROM: Addr = Addr {
    ip: 2130706433,
    port: 9951,
};

const HIT: &[u8] = b"/sl/0/hit\0\0\0,s\0\0record\0\0";

const QUIT: &[u8] = b"/quit\0\0\0,\0\0\0";

fn sender<R: Wait>(alloc: Global, wait: &R, quota: u32) -> Result<OscSender, Fail>
    requires { quota ≤ 1048576 }
{
    let Ok((putter, _taker)) = ring_with::<Command, R>(alloc, wait, 256, 1048576, 0) else {
        return Err(Fail::from("no ring"));
    };
    match OscSender::new(alloc, quota, 1, putter) {
        Ok(sender) => Ok(sender),
        Err(_) => Err(Fail::from("no sender")),
    }
}

// A decision in numbers: its place among the variants, and what it has.
fn numbers(decision: &Decision) -> (u8, u32) {
    match decision {
        Decision::Accepted(number) => (0, *number),
        Decision::Ping(_) => (1, 0),
        Decision::RingFull => (2, 0),
        Decision::SessionFull => (3, 0),
        Decision::Ended => (4, 0),
        Decision::Packet(fault) => (5, fault.kind.number() as u32),
        Decision::Path(fault) => (6, fault.number() as u32),
    }
}

// What is decided of a packet with one message or a fault.
fn decided<R: Wait>(
    alloc: Global,
    wait: &R,
    sender: &mut OscSender,
    bytes: &[u8],
) -> Result<(u8, u32), Fail> {
    match sender.packet(alloc, wait, bytes, FROM) {
        Ok(decisions) => match decisions.as_slice() {
            [decision] => Ok(numbers(decision)),
            _ => Err(Fail::from("not one decision")),
        },
        Err(_) => Err(Fail::from("memory")),
    }
}

#[test]
fn a_packet_is_accepted_or_refused_with_a_reason(rt: HostRuntime) -> Result<(), Fail> {
    let mut sender = sender(rt.alloc(), &rt, 100)?;
    let rows: [(&[u8], (u8, u32)); 8] = [
        (HIT, (0, 0)),
        (b"/sl/0/hit\0\0\0,s\0\0record\0", (5, 1)),
        (b"/sl/0/hit\0\0\0,s\0\0record\0\x01", (5, 2)),
        (b"/sl/0/hit\0\0\0,f\0\0\0\0\0\0", (6, 2)),
        (b"/sl/0/set\0\0\0,si\0nothing\0\0\0\0\x05", (6, 4)),
        (b"/sl/0/set\0\0\0,si\0feedback\0\0\0\0\0\0\x03\xe9", (6, 5)),
        (b"/sl/0/set\0\0\0,ss\0feedback\0\0\0\0x\0\0\0", (6, 2)),
        (b"/ping\0\0\0,ss\0\0\0\0\0/p\0\0", (1, 0)),
    ];
    for (bytes, wanted) in rows {
        assert_eq!(rt; decided(rt.alloc(), &rt, &mut sender, bytes)?, wanted);
    }
    Ok(())
}

#[test]
fn a_quota_is_used_up(rt: HostRuntime) -> Result<(), Fail> {
    let mut sender = sender(rt.alloc(), &rt, 2)?;
    for wanted in [(0u8, 0u32), (0, 1), (3, 0)] {
        assert_eq!(rt; decided(rt.alloc(), &rt, &mut sender, HIT)?, wanted);
    }
    Ok(())
}

#[test]
fn nothing_is_accepted_behind_a_quit(rt: HostRuntime) -> Result<(), Fail> {
    let mut sender = sender(rt.alloc(), &rt, 1)?;
    assert_eq!(rt; decided(rt.alloc(), &rt, &mut sender, QUIT)?, (0, 0));
    assert_eq!(rt; decided(rt.alloc(), &rt, &mut sender, HIT)?, (4, 0));
    sender.note_unsent();
    assert_eq!(rt; sender.account().unsent, 1);
    Ok(())
}

// A bundle of 292 hits: 8192 bytes.
fn flood(alloc: Global) -> Result<Vec<u8>, Fail> {
    let mut bytes = Vec::new(alloc);
    bytes.extend_from_slice(b"#bundle\0\0\0\0\0\0\0\0\x01")?;
    for _ in 0..292u32 {
        bytes.extend_from_slice(b"\0\0\0\x18")?;
        bytes.extend_from_slice(HIT)?;
    }
    Ok(bytes)
}

#[test]
fn a_flood_fills_the_ring(rt: HostRuntime) -> Result<(), Fail> {
    let mut sender = sender(rt.alloc(), &rt, 65536)?;
    let sent = sender.packet(rt.alloc(), &rt, &flood(rt.alloc())?, FROM);
    assert!(rt; sent.is_ok());
    let tally = &sender.account().tally;
    assert_eq!(rt; tally.count(), 256);
    assert_eq!(rt; tally.ring_full(), 36);
    assert_eq!(rt; tally.last().len(), 32);
    for refusal in tally.last().iter() {
        assert!(rt; *refusal == Refusal { group: 3, code: 1 });
    }
    Ok(())
}

#[test]
fn a_flood_uses_up_a_quota(rt: HostRuntime) -> Result<(), Fail> {
    let mut sender = sender(rt.alloc(), &rt, 200)?;
    let sent = sender.packet(rt.alloc(), &rt, &flood(rt.alloc())?, FROM);
    assert!(rt; sent.is_ok());
    let tally = &sender.account().tally;
    assert_eq!(rt; tally.count(), 200);
    assert_eq!(rt; tally.session_full(), 92);
    assert_eq!(rt; tally.ring_full(), 0);
    Ok(())
}

#[test]
fn a_byte_gives_what_its_event_is_bound_to(rt: HostRuntime) -> Result<(), Fail> {
    let text = b"looper bindings 1\non 1 60 hit 0 overdub\nend\n";
    let Ok(bindings) = read_bindings(rt.alloc(), text, 1) else {
        return Err(Fail::from("no bindings"));
    };
    let Ok((putter, mut taker)) = ring_with::<Command, HostRuntime>(rt.alloc(), &rt, 4, 1048576, 0)
    else {
        return Err(Fail::from("no ring"));
    };
    let Ok(mut sender) = MidiSender::new(rt.alloc(), 10, bindings, putter) else {
        return Err(Fail::from("no sender"));
    };
    assert!(rt; sender.byte(&rt, 144).is_none());
    assert!(rt; sender.byte(&rt, 60).is_none());
    assert!(rt; matches!(sender.byte(&rt, 64), Some(Decision::Accepted(0))));
    assert!(rt; taker.take(&rt).is_some());
    Ok(())
}
