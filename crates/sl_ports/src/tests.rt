//! Each end once, over memory and over real files and streams.

use crate::keepers::{FileAnswer, KeepAnswer, Keeper};
use crate::new_file::LOCKED;
use crate::sinks::{Sink, SinkAnswer};
use crate::{DirKeeper, MemKeeper, MemSink, StdSink};
use sl_base::Name;
use std::fs;
use std::test::Fail;

fn name(text: &str) -> Result<Name, Fail> {
    Ok(Name::read(text.as_bytes()).ok_or("not a name")?)
}

// The answer with the bytes of the file in words that can be compared.
fn told(answer: &FileAnswer) -> &[u8] {
    match answer {
        FileAnswer::Bytes(bytes) => bytes.as_slice(),
        FileAnswer::Missing => b"(missing)".as_slice(),
        FileAnswer::Failed => b"(failed)".as_slice(),
        FileAnswer::Memory => b"(memory)".as_slice(),
    }
}

#[test]
fn a_memory_sink_fails_at_the_listed_writes(rt: HostRuntime) -> Result<(), Fail> {
    let alloc = rt.alloc();
    let mut sink = MemSink::new(alloc, vec![in alloc; 2]?);
    assert_eq!(rt; sink.write_all(b"one "), SinkAnswer::Done);
    assert_eq!(rt; sink.write_all(b"two "), SinkAnswer::Failed);
    assert_eq!(rt; sink.write_all(b"three"), SinkAnswer::Done);
    assert_eq!(rt; sink.bytes(), b"one three".as_slice());
    Ok(())
}

#[test]
fn a_memory_keeper_fails_at_the_listed_calls(rt: HostRuntime) -> Result<(), Fail> {
    let alloc = rt.alloc();
    let mut keeper = MemKeeper::new(alloc, vec![in alloc; 1]?, vec![in alloc; 2]?);
    let (take, other) = (name("take.wav")?, name("other.wav")?);
    let put = keeper.put(alloc, &other, b"other");
    assert!(rt; put.is_ok());
    assert_eq!(rt; keeper.write_file(alloc, &take, b"first"), KeepAnswer::Done);
    assert_eq!(rt;
        told(&keeper.read_file(alloc, &take)),
        b"(failed)".as_slice()
    );
    assert_eq!(rt;
        keeper.write_file(alloc, &take, b"second"),
        KeepAnswer::Failed
    );
    assert_eq!(rt; told(&keeper.read_file(alloc, &take)), b"first".as_slice());
    assert_eq!(rt; keeper.write_file(alloc, &take, b"third"), KeepAnswer::Done);
    assert_eq!(rt; told(&keeper.read_file(alloc, &take)), b"third".as_slice());
    assert_eq!(rt; keeper.file(&other).ok_or("other")?, b"other".as_slice());
    assert!(rt; keeper.file(&name("none")?).is_none());
    Ok(())
}

#[test]
fn a_real_file_is_read_as_it_was_written(rt: HostRuntime) -> Result<(), Fail> {
    let alloc = rt.alloc();
    let file = name("sl_ports-test.tmp")?;
    let mut keeper = DirKeeper::new(rt);
    // Three pieces, of which the last is not whole.
    let long = vec![in alloc; 7u8; 150000]?;
    assert_eq!(rt;
        keeper.write_file(alloc, &file, long.as_slice()),
        KeepAnswer::Done
    );
    let read = keeper.read_file(alloc, &file);
    assert_eq!(rt; told(&read), long.as_slice());
    assert_eq!(rt; keeper.write_file(alloc, &file, b"short"), KeepAnswer::Done);
    assert_eq!(rt; told(&keeper.read_file(alloc, &file)), b"short".as_slice());
    assert!(rt; !fs::exists(&rt, LOCKED[0])?, "the new file has its name");
    fs::remove_file(&rt, file.as_str())?;
    assert_eq!(rt;
        told(&keeper.read_file(alloc, &file)),
        b"(missing)".as_slice()
    );
    Ok(())
}

#[test]
fn a_directory_is_neither_read_nor_written(rt: HostRuntime) -> Result<(), Fail> {
    let alloc = rt.alloc();
    let folder = name("sl_ports-test.dir")?;
    fs::create_dir(&rt, folder.as_str())?;
    let mut keeper = DirKeeper::new(rt);
    let read = keeper.read_file(alloc, &folder);
    let wrote = keeper.write_file(alloc, &folder, b"bytes");
    fs::remove_dir(&rt, folder.as_str())?;
    assert!(rt; !fs::exists(&rt, LOCKED[0])?, "no rest is left");
    assert_eq!(rt; told(&read), b"(failed)".as_slice());
    assert_eq!(rt; wrote, KeepAnswer::Failed);
    let first = keeper.first_fault().ok_or("no fault")?;
    let text = format!(in alloc; "{first}")?;
    assert_eq!(rt;
        text.as_str(),
        "cannot read sl_ports-test.dir: Is a directory (os error 21)"
    );
    Ok(())
}

#[test]
fn standard_output_takes_a_line(rt: HostRuntime) -> Result<(), Fail> {
    let mut sink = StdSink::new(rt);
    assert_eq!(rt; sink.write_all(b"a line\n"), SinkAnswer::Done);
    Ok(())
}
