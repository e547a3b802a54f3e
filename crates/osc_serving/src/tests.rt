//! Serving over a link in memory, with its ends.

use crate::{OscEnd, serve_osc};
use event_rings::{Taker, ring_with};
use live_ports::MemLink;
use senders::OscSender;
use sl_base::Addr;
use sl_commands::{Command, Control, Reply, What};
use std::alloc::Global;
use std::sync::Wait;
use std::test::Fail;
use std::time::Clock;

const FROM: Addr = Addr {
    ip: 2130706433,
    port: 9951,
};

const GET: &[u8] = b"/sl/0/get\0\0\0,sss\0\0\0\0loop_len\0\0\0\0\0\0\0\0/r\0\0";

const PING: &[u8] = b"/ping\0\0\0,ss\0\0\0\0\0/p\0\0";

const TOLD: &[u8] = b"/r\0\0,isi\0\0\0\0\0\0\0\0loop_len\0\0\0\0\0\0\0\x04";

const PONG: &[u8] = b"/p\0\0,ssi\0\0\0\0looper\0\01.0.0\0\0\0\0\0\0\x01";

// The answer 4 to a question about the length of the first loop.
fn reply(seq: u32) -> Reply {
    Reply {
        sender: 0,
        seq,
        index: 0,
        what: What::Value(Control::LoopLen),
        value: 4,
    }
}

// A sender for one loop, which accepted one question.
fn asked<R: Wait>(alloc: Global, wait: &R) -> Result<OscSender, Fail> {
    let Ok((putter, _taker)) = ring_with::<Command, R>(alloc, wait, 4, 1048576, 0) else {
        return Err(Fail::from("no ring"));
    };
    let Ok(mut sender) = OscSender::new(alloc, 10, 1, putter) else {
        return Err(Fail::from("no sender"));
    };
    match sender.packet(alloc, wait, GET, FROM) {
        Ok(_) => Ok(sender),
        Err(_) => Err(Fail::from("memory")),
    }
}

// The reply with this number, in its ring.
fn replies<R: Wait>(alloc: Global, wait: &R, seq: u32) -> Result<Taker<Reply>, Fail> {
    let Ok((mut putter, taker)) = ring_with::<Reply, R>(alloc, wait, 4, 4, 0) else {
        return Err(Fail::from("no ring"));
    };
    match putter.put(wait, reply(seq)) {
        Ok(()) => Ok(taker),
        Err(_) => Err(Fail::from("full")),
    }
}

// The session's end, told.
fn over<R: Wait>(alloc: Global, wait: &R) -> Result<Taker<u64>, Fail> {
    let Ok((mut putter, taker)) = ring_with::<u64, R>(alloc, wait, 1, 1, 0) else {
        return Err(Fail::from("no ring"));
    };
    match putter.put(wait, 480) {
        Ok(()) => Ok(taker),
        Err(_) => Err(Fail::from("full")),
    }
}

// A link with one ping, of which one receive and one send fail.
fn pinged(alloc: Global, failing: u64, unsent: u64) -> Result<MemLink, Fail> {
    let mut link = MemLink::new(
        alloc,
        vec![in alloc; failing]?,
        Vec::new(alloc),
        vec![in alloc; unsent]?,
    );
    match link.give(FROM, PING) {
        Ok(()) => Ok(link),
        Err(_) => Err(Fail::from("memory")),
    }
}

// Why serving ended, how many answers weren't sent, and the link.
fn served<R: Wait + Clock>(
    alloc: Global,
    rt: &R,
    seq: u32,
    failing: u64,
    unsent: u64,
) -> Result<(OscEnd, u64, MemLink), Fail> {
    let mut link = pinged(alloc, failing, unsent)?;
    let mut sender = asked(alloc, rt)?;
    let mut replies = replies(alloc, rt, seq)?;
    let mut over = over(alloc, rt)?;
    let end = serve_osc(alloc, rt, &mut link, &mut sender, &mut replies, &mut over);
    Ok((end, sender.account().unsent, link))
}

fn sent(link: &MemLink, place: usize) -> Option<&[u8]> {
    Some(link.out().get(place)?.bytes())
}

#[test]
fn a_reply_and_a_ping_are_answered(rt: HostRuntime) -> Result<(), Fail> {
    let (end, unsent, link) = served(rt.alloc(), &rt, 0, 9, 9)?;
    assert!(rt; end == OscEnd::Over && unsent == 0);
    assert!(rt; sent(&link, 0) == Some(TOLD));
    assert!(rt; sent(&link, 1) == Some(PONG));
    Ok(())
}

#[test]
fn a_send_that_fails_is_counted(rt: HostRuntime) -> Result<(), Fail> {
    let (end, unsent, link) = served(rt.alloc(), &rt, 0, 9, 1)?;
    assert!(rt; end == OscEnd::Over && unsent == 1);
    assert!(rt; sent(&link, 0) == Some(PONG));
    Ok(())
}

#[test]
fn serving_osc_ends_for_its_cause(rt: HostRuntime) -> Result<(), Fail> {
    let (end, _, link) = served(rt.alloc(), &rt, 0, 1, 9)?;
    assert!(rt; end == OscEnd::LinkFault);
    assert!(rt; sent(&link, 0) == Some(TOLD));
    let (end, _, link) = served(rt.alloc(), &rt, 1, 9, 9)?;
    assert!(rt; end == OscEnd::Strange(reply(1)));
    assert!(rt; sent(&link, 0).is_none());
    Ok(())
}
