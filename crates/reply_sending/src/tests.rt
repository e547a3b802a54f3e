//! A reply with no return address, and one that is sent.

use crate::send_reply;
use event_rings::ring_with;
use live_ports::MemLink;
use senders::OscSender;
use sl_base::Addr;
use sl_commands::{Command, Control, Reply, What};
use std::test::Fail;

const FROM: Addr = Addr {
    ip: 2130706433,
    port: 9951,
};

const GET: &[u8] = b"/sl/0/get\0\0\0,sss\0\0\0\0loop_len\0\0\0\0\0\0\0\0/r\0\0";

const TOLD: &[u8] = b"/r\0\0,isi\0\0\0\0\0\0\0\0loop_len\0\0\0\0\0\0\0\x04";

#[test]
fn a_reply_is_sent_where_its_command_says(rt: HostRuntime) -> Result<(), Fail> {
    let alloc = rt.alloc();
    let Ok((putter, _taker)) = ring_with::<Command, HostRuntime>(alloc, &rt, 4, 1048576, 0) else {
        return Err(Fail::from("no ring"));
    };
    let Ok(mut sender) = OscSender::new(alloc, 10, 1, putter) else {
        return Err(Fail::from("no sender"));
    };
    let mut link = MemLink::new(alloc, Vec::new(alloc), Vec::new(alloc), Vec::new(alloc));
    let reply = Reply {
        sender: 0,
        seq: 0,
        index: 0,
        what: What::Value(Control::LoopLen),
        value: 4,
    };
    assert!(rt; !send_reply(&mut link, &mut sender, reply));
    let heard = sender.packet(alloc, &rt, GET, FROM);
    assert!(rt; heard.is_ok());
    assert!(rt; send_reply(&mut link, &mut sender, reply));
    match link.out() {
        [packet] => assert!(rt; packet.bytes() == TOLD),
        _ => return Err(Fail::from("not one packet")),
    }
    Ok(())
}
