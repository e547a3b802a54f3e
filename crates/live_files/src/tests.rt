//! Live sessions read from files in memory.

ghost use Rattle.std.specs.Prelude.{◌≤◌, length, IfOk, IfSome};

use super::*;
use run_files::FilesFault;
use session_file::session_text;
use sl_base::Name;
use sl_commands::{Globals, Settings, StripSettings, Strips};
use sl_ports::MemKeeper;
use std::alloc::Global;
use std::test::Fail;

fn name(text: &str) -> Result<Name, Fail> {
    Ok(Name::read(text.as_bytes()).ok_or("not a name")?)
}

/// The name, where it has at most 48 bytes.
fn short(name: Name) -> Option<Name>
    ensures { IfSome result (λ n. length n ≤ 48) }
{
    if name.as_bytes().len() <= 48 {
        Some(name)
    } else {
        None
    }
}

/// Two frames in 2 channels of 24 bits.
const LIST: &[u8] =
    b"RIFF\x30\0\0\0WAVEfmt \x10\0\0\0\x01\0\x02\0\x80\xbb\0\0\0\x65\x04\0\x06\0\x18\0data\x0c\0\0\0\x01\0\0\xff\xff\xff\x02\0\0\0\x01\0";

/// A binding for a looper of two loops at least.
const BINDINGS: &[u8] = b"looper bindings 1\non 1 60 hit 1 record\nend\n";

/// The text of a session of two loops, of no frame and of two.
fn session(alloc: Global) -> Result<Vec<u8>, Fail> {
    let mut strips = Strips::new();
    strips.push(StripSettings::default());
    strips.push(StripSettings {
        length: 2,
        cycle: 2,
        ..StripSettings::default()
    });
    let settings = Settings::of(44100, Globals::default(), strips).ok_or("not in range")?;
    Ok(session_text(alloc, &settings).ok().ok_or("no memory")?)
}

/// A keeper without files, of which these readings fail.
fn keeper(alloc: Global, failing: &[u64]) -> Result<MemKeeper, Fail> {
    Ok(MemKeeper::new(alloc, Vec::from_slice(alloc, failing)?, Vec::new(alloc)))
}

fn put(alloc: Global, keeper: &mut MemKeeper, text: &str, bytes: &[u8]) -> Result<(), Fail> {
    Ok(
        keeper
            .put(alloc, &name(text)?, bytes)
            .ok()
            .ok_or("no memory")?,
    )
}

/// Puts all files of a session of two loops there.
fn put_all(alloc: Global, keeper: &mut MemKeeper) -> Result<(), Fail> {
    put(alloc, keeper, "set", &session(alloc)?)?;
    put(alloc, keeper, "set-1.wav", LIST)?;
    put(alloc, keeper, "pads", BINDINGS)
}

/// A session with bindings over so many chunks.
fn from_set(chunks: u32) -> Result<LiveSources, Fail> {
    let set = short(name("set")?).ok_or("too long")?;
    Ok(LiveSources {
        session: Some(set),
        bind: Some(name("pads")?),
        rate: 48000,
        loops: 1,
        chunks,
    })
}

/// The file that a fault names, with its number and line.
fn named(fault: FilesFault) -> Option<(Name, u8, u32)> {
    match fault {
        FilesFault::File(name, kind, line) => Some((name, kind, line)),
        FilesFault::Read => None,
        FilesFault::Memory => None,
        FilesFault::Limit => None,
    }
}

fn is_named(name: &Name, text: &str) -> bool {
    name.as_bytes() == text.as_bytes()
}

/// Whether this is the bad file that was told.
fn is_told(answer: Result<LiveFiles, FilesFault>, text: &str, kind: u8, line: u32) -> bool {
    let Err(fault) = answer else {
        return false;
    };
    let Some((name, number, place)) = named(fault) else {
        return false;
    };
    is_named(&name, text) && number == kind && place == line
}

#[test]
fn a_session_has_its_own_loops_and_the_bindings_are_for_them(rt: HostRuntime) -> Result<(), Fail> {
    let mut keeper = keeper(rt.alloc(), &[])?;
    put_all(rt.alloc(), &mut keeper)?;
    let files = read_live(rt.alloc(), &mut keeper, &from_set(1)?)
        .ok()
        .ok_or("not read")?;
    assert!(rt; files.settings.rate == 44100 && files.settings.loop_count() == 2);
    assert!(rt; files.initial.len() == 2 && files.initial.as_slice()[1].len() == 2);
    assert!(rt; files.bindings.count() == 1);
    Ok(())
}

#[test]
fn where_nothing_is_named_nothing_is_read(rt: HostRuntime) -> Result<(), Fail> {
    let mut keeper = keeper(rt.alloc(), &[1])?;
    let nothing = LiveSources {
        session: None,
        bind: None,
        rate: 48000,
        loops: 3,
        chunks: 1,
    };
    let files = read_live(rt.alloc(), &mut keeper, &nothing)
        .ok()
        .ok_or("not read")?;
    assert!(rt; files.settings.rate == 48000 && files.settings.loop_count() == 3);
    assert!(rt; files.initial.len() == 0 && files.bindings.count() == 0);
    Ok(())
}

#[test]
fn the_first_bad_file_is_told_by_the_order_of_reading(rt: HostRuntime) -> Result<(), Fail> {
    let alloc = rt.alloc();
    let mut keeper = keeper(alloc, &[])?;
    let sources = from_set(0)?;
    let told = read_live(alloc, &mut keeper, &sources);
    assert!(rt;
        is_told(told, "set", 0, 0),
        "before the bindings, which are missing too"
    );
    put(alloc, &mut keeper, "set", &session(alloc)?)?;
    let told = read_live(alloc, &mut keeper, &sources);
    assert!(rt; is_told(told, "set-1.wav", 0, 0));
    put(alloc, &mut keeper, "set-1.wav", LIST)?;
    let told = read_live(alloc, &mut keeper, &sources);
    assert!(rt; is_told(told, "pads", 0, 0));
    put(
        alloc,
        &mut keeper,
        "pads",
        b"looper bindings 1\non 1 60 hit 2 record\nend\n",
    )?;
    let told = read_live(alloc, &mut keeper, &sources);
    assert!(rt; is_told(told, "pads", 3, 2), "there is no third loop");
    put(alloc, &mut keeper, "pads", BINDINGS)?;
    let told = read_live(alloc, &mut keeper, &sources);
    assert!(rt; matches!(told, Err(FilesFault::Limit)), "a chunk is needed");
    Ok(())
}

#[test]
fn a_failed_reading_is_told_as_one(rt: HostRuntime) -> Result<(), Fail> {
    for failing in 1..4 {
        let mut keeper = keeper(rt.alloc(), &[failing])?;
        put_all(rt.alloc(), &mut keeper)?;
        let told = read_live(rt.alloc(), &mut keeper, &from_set(1)?);
        assert!(rt; matches!(told, Err(FilesFault::Read)));
    }
    Ok(())
}
