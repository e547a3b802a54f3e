//! Serving over a source in memory, with each of its ends.

use crate::{MidiEnd, serve_midi};
use event_rings::{Taker, ring_with};
use live_ports::MemSource;
use midi_bindings::read_bindings;
use senders::MidiSender;
use sl_commands::Command;
use std::alloc::Global;
use std::sync::Wait;
use std::test::Fail;

const BINDINGS: &[u8] = b"looper bindings 1\non 1 60 hit 0 overdub\nend\n";

// A sender for one loop.
fn sender<R: Wait>(alloc: Global, wait: &R) -> Result<MidiSender, Fail> {
    let Ok(bindings) = read_bindings(alloc, BINDINGS, 1) else {
        return Err(Fail::from("no bindings"));
    };
    let Ok((putter, _taker)) = ring_with::<Command, R>(alloc, wait, 4, 1048576, 0) else {
        return Err(Fail::from("no ring"));
    };
    match MidiSender::new(alloc, 10, bindings, putter) {
        Ok(sender) => Ok(sender),
        Err(_) => Err(Fail::from("no sender")),
    }
}

// The session's end, told before serving begins or never.
fn over<R: Wait>(alloc: Global, wait: &R, told: bool) -> Result<Taker<u64>, Fail> {
    let Ok((mut putter, taker)) = ring_with::<u64, R>(alloc, wait, 1, 1, 0) else {
        return Err(Fail::from("no ring"));
    };
    if told && putter.put(wait, 480).is_err() {
        return Err(Fail::from("full"));
    }
    Ok(taker)
}

// Two notes that are bound are there for the first read, and the second gives nothing for now. One
// read fails, or none.
fn served<R: Wait>(
    alloc: Global,
    wait: &R,
    failing: u64,
    told: bool,
) -> Result<(MidiEnd, u32), Fail> {
    let bytes = Vec::from_slice(alloc, b"\x90\x3c\x40\x3c\x40")?;
    let mut source = MemSource::new(bytes, vec![in alloc; failing]?, vec![in alloc; 2]?);
    let mut sender = sender(alloc, wait)?;
    let mut over = over(alloc, wait, told)?;
    let end = serve_midi(wait, &mut source, &mut sender, &mut over);
    Ok((end, sender.account().tally.count()))
}

#[test]
fn serving_midi_ends_for_its_cause(rt: HostRuntime) -> Result<(), Fail> {
    let rows = [
        (9, false, (MidiEnd::End, 2)),
        (3, false, (MidiEnd::ReadFault, 2)),
        (1, false, (MidiEnd::ReadFault, 0)),
        (1, true, (MidiEnd::ReadFault, 0)),
        (9, true, (MidiEnd::Over, 2)),
    ];
    for (failing, told, wanted) in rows {
        assert_eq!(rt; served(rt.alloc(), &rt, failing, told)?, wanted);
    }
    Ok(())
}
