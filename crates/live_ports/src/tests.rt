//! Each end once, over memory and over real files and sockets.

use crate::{
    FileSource, Link, LinkAnswer, Listen, MemLink, MemSource, Source, SourceAnswer, StdSource,
    UdpLink,
};
use sl_base::Addr;
use sl_ports::SinkAnswer;
use std::fs;
use std::fs::File;
use std::test::Fail;
use std::time::Duration;

const LOCALHOST: u32 = 2130706433;

fn wait() -> Duration {
    Duration::from_millis(200)
}

#[test]
fn a_source_in_memory_gives_what_fits(rt: HostRuntime) -> Result<(), Fail> {
    let alloc = rt.alloc();
    let bytes = Vec::from_slice(alloc, b"abcdef")?;
    let mut source = MemSource::new(bytes, vec![in alloc; 2]?, vec![in alloc; 3]?);
    let mut buf = [0; 4];
    assert_eq!(rt; source.read(&mut buf), SourceAnswer::Got(4));
    assert_eq!(rt; buf.as_slice(), b"abcd".as_slice());
    assert_eq!(rt; source.read(&mut buf), SourceAnswer::Failed);
    assert_eq!(rt; source.read(&mut buf), SourceAnswer::Idle);
    assert_eq!(rt; source.read(&mut buf), SourceAnswer::Got(2));
    assert!(rt; buf.starts_with(b"ef"));
    assert_eq!(rt; source.read(&mut buf), SourceAnswer::End);
    assert_eq!(rt; source.read(&mut buf), SourceAnswer::End);
    Ok(())
}

#[test]
fn a_link_in_memory_gives_its_packets(rt: HostRuntime) -> Result<(), Fail> {
    let alloc = rt.alloc();
    let from = Addr {
        ip: LOCALHOST,
        port: 9951,
    };
    let mut link = MemLink::new(
        alloc,
        vec![in alloc; 2]?,
        vec![in alloc; 1]?,
        Vec::new(alloc),
    );
    let first = link.give(from, b"first");
    assert!(rt; first.is_ok());
    let mut buf = [0; 8192];
    assert_eq!(rt; link.recv(&mut buf), LinkAnswer::Idle);
    assert_eq!(rt; link.recv(&mut buf), LinkAnswer::Failed);
    assert_eq!(rt; link.recv(&mut buf), LinkAnswer::Got(5, from));
    assert!(rt; buf.starts_with(b"first"));
    assert_eq!(rt; link.recv(&mut buf), LinkAnswer::End);
    Ok(())
}

#[test]
fn a_long_packet_is_cut(rt: HostRuntime) -> Result<(), Fail> {
    let alloc = rt.alloc();
    let from = Addr { ip: 1, port: 2 };
    let mut link = MemLink::new(alloc, Vec::new(alloc), Vec::new(alloc), Vec::new(alloc));
    let long = vec![in alloc; 7u8; 9000]?;
    let given = link.give(from, long.as_slice());
    assert!(rt; given.is_ok());
    let mut buf = [0; 8192];
    assert_eq!(rt; link.recv(&mut buf), LinkAnswer::Got(8192, from));
    Ok(())
}

#[test]
fn a_link_in_memory_keeps_what_is_sent(rt: HostRuntime) -> Result<(), Fail> {
    let alloc = rt.alloc();
    let to = Addr { ip: 1, port: 2 };
    let mut link = MemLink::new(alloc, Vec::new(alloc), Vec::new(alloc), vec![in alloc; 2]?);
    assert_eq!(rt; link.send(to, b"one"), SinkAnswer::Done);
    assert_eq!(rt; link.send(to, b"two"), SinkAnswer::Failed);
    assert_eq!(rt; link.send(to, b"three"), SinkAnswer::Done);
    let last = link.out().get(1).ok_or("no packet")?;
    assert_eq!(rt; last.bytes(), b"three".as_slice());
    assert_eq!(rt; last.addr(), to);
    Ok(())
}

#[test]
fn a_packet_passes_over_loopback(rt: HostRuntime) -> Result<(), Fail> {
    let mut one = UdpLink::bind(&rt, Listen::Local, 0, wait());
    let mut other = UdpLink::bind(&rt, Listen::All, 0, wait());
    let to = Addr {
        ip: LOCALHOST,
        port: one.port().ok_or("no port")?,
    };
    let mut buf = [0; 8192];
    assert_eq!(rt; one.recv(&mut buf), LinkAnswer::Idle);
    assert_eq!(rt; other.send(to, b"hello"), SinkAnswer::Done);
    let from = Addr {
        ip: LOCALHOST,
        port: other.port().ok_or("no port")?,
    };
    assert_eq!(rt; one.recv(&mut buf), LinkAnswer::Got(5, from));
    assert!(rt; buf.starts_with(b"hello"));
    let long = vec![in rt.alloc(); 7u8; 70000]?;
    assert_eq!(rt; other.send(to, long.as_slice()), SinkAnswer::Failed);
    assert!(rt; other.first_fault().is_some());
    Ok(())
}

#[test]
fn a_link_without_a_socket_fails_and_none_has_ended(rt: HostRuntime) -> Result<(), Fail> {
    let held = UdpLink::bind(&rt, Listen::All, 0, wait());
    let port = held.port().ok_or("no port")?;
    let mut second = UdpLink::bind(&rt, Listen::All, port, wait());
    let mut buf = [0; 8192];
    assert_eq!(rt; second.recv(&mut buf), LinkAnswer::Failed);
    let to = Addr {
        ip: LOCALHOST,
        port,
    };
    assert_eq!(rt; second.send(to, b"x"), SinkAnswer::Failed);
    assert!(rt; second.first_fault().is_some());
    let mut none = UdpLink::none();
    assert_eq!(rt; none.recv(&mut buf), LinkAnswer::End);
    assert_eq!(rt; none.send(to, b"x"), SinkAnswer::Failed);
    Ok(())
}

#[test]
fn a_file_is_read_to_its_end(rt: HostRuntime) -> Result<(), Fail> {
    let path = "live_ports-test.tmp";
    fs::write(&rt, path, b"ninety bytes")?;
    let mut source: FileSource<File> = FileSource::open(rt.alloc(), &rt, path, wait());
    let mut buf = [0; 8];
    assert_eq!(rt; source.read(&mut buf), SourceAnswer::Got(8));
    assert_eq!(rt; buf.as_slice(), b"ninety b".as_slice());
    assert_eq!(rt; source.read(&mut buf), SourceAnswer::Got(4));
    assert_eq!(rt; source.read(&mut buf), SourceAnswer::End);
    fs::write(&rt, path, b"ninety bytes and more")?;
    assert_eq!(rt; source.read(&mut buf), SourceAnswer::End);
    fs::remove_file(&rt, path)?;
    let mut missing: FileSource<File> = FileSource::open(rt.alloc(), &rt, path, wait());
    assert_eq!(rt; missing.read(&mut buf), SourceAnswer::Failed);
    assert!(rt; missing.first_fault().is_some());
    let mut none: FileSource<File> = FileSource::none();
    assert_eq!(rt; none.read(&mut buf), SourceAnswer::End);
    Ok(())
}

#[test]
fn a_stream_is_read_as_it_comes(rt: HostRuntime) -> Result<(), Fail> {
    let mut source = StdSource::new(b"abcde".as_slice());
    let mut buf = [0; 3];
    assert_eq!(rt; source.read(&mut buf), SourceAnswer::Got(3));
    assert_eq!(rt; source.read(&mut buf), SourceAnswer::Got(2));
    assert!(rt; buf.starts_with(b"de"));
    assert_eq!(rt; source.read(&mut buf), SourceAnswer::End);
    Ok(())
}
