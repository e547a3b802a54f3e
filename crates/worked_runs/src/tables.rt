//! The form of a run: what it is given, and how it has to end.

use looper_cli::plain_run;
use sl_base::Name;
use sl_ports::{MemKeeper, MemSink};
use std::alloc::{AllocError, Global};
use std::process::Abort;
use std::test::Fail;

/// A run: its words, its files, and the numbers of the calls that fail. Then how it has to end.
#[derive(Clone, Copy)]
pub struct Run {
    pub title: &'static str,
    pub words: &'static [&'static str],
    /// Bytes of a sample in IN and OUT, which have one channel: 2 or 3.
    pub size: u32,
    /// The samples of IN.
    pub input: &'static [i32],
    /// The bytes of IN where they aren't those of its samples.
    pub bad_input: Option<&'static [u8]>,
    pub journal: &'static [u8],
    /// The text of the session set1, and the file of its first loop.
    pub set: Option<&'static [u8]>,
    pub list: Option<&'static [u8]>,
    pub failing_reads: &'static [u64],
    pub failing_writes: &'static [u64],
    pub failing_texts: &'static [u64],
    pub status: u8,
    pub console: &'static [u8],
    /// The samples of out.wav at the end, or None where it isn't there.
    pub out: Option<&'static [i32]>,
    /// The files take.wav, set1-0.wav and set1 at the end.
    pub take: Option<&'static [u8]>,
    pub list_left: Option<&'static [u8]>,
    pub set_left: Option<&'static [u8]>,
}

/// A run of `render` over an empty IN.
pub fn render() -> Run {
    Run {
        title: "no samples and no entries",
        words: &["render", "in.wav", "journal.txt", "out.wav"],
        size: 2,
        input: &[],
        bad_input: None,
        journal: b"looper journal 1\nend\n",
        set: None,
        list: None,
        failing_reads: &[],
        failing_writes: &[],
        failing_texts: &[],
        status: 0,
        console: b"frames 0 entries 0 replies 0 saves 0 refused 0\nstatus 0\n",
        out: Some(&[]),
        take: None,
        list_left: None,
        set_left: None,
    }
}

/// Appends the lowest bytes of a number, two to four.
fn push_low(bytes: &mut Vec<u8>, number: [u8; 4], count: u32) -> Result<(), AllocError> {
    let [first, second, third, fourth] = number;
    bytes.push(first)?;
    bytes.push(second)?;
    if count > 2 {
        bytes.push(third)?;
    }
    if count > 3 {
        bytes.push(fourth)?;
    }
    Ok(())
}

/// The bytes of a WAV file at 48000 frames a second: samples of so many bytes in so many channels,
/// interleaved, and silent ones behind them. Behind an odd number of bytes stands a zero byte.
pub fn wav(
    alloc: Global,
    channels: u32,
    size: u32,
    samples: &[i32],
    silent: u32,
) -> Result<Vec<u8>, AllocError> {
    let count = u32::try_from(samples.len()).unwrap_or(0);
    let data = count.wrapping_add(silent).wrapping_mul(size);
    let step = channels.wrapping_mul(size);
    let mut bytes = Vec::new(alloc);
    bytes.extend_from_slice(b"RIFF")?;
    push_low(
        &mut bytes,
        data.wrapping_add(36).wrapping_add(data % 2).to_le_bytes(),
        4,
    )?;
    bytes.extend_from_slice(b"WAVEfmt \x10\0\0\0\x01\0")?;
    push_low(&mut bytes, channels.to_le_bytes(), 2)?;
    push_low(&mut bytes, 48000u32.to_le_bytes(), 4)?;
    push_low(&mut bytes, step.wrapping_mul(48000).to_le_bytes(), 4)?;
    push_low(&mut bytes, step.to_le_bytes(), 2)?;
    push_low(&mut bytes, size.wrapping_mul(8).to_le_bytes(), 2)?;
    bytes.extend_from_slice(b"data")?;
    push_low(&mut bytes, data.to_le_bytes(), 4)?;
    for sample in samples {
        push_low(&mut bytes, sample.to_le_bytes(), size)?;
    }
    for _ in 0..silent {
        push_low(&mut bytes, [0, 0, 0, 0], size)?;
    }
    if data % 2 == 1 {
        bytes.push(0)?;
    }
    Ok(bytes)
}

pub fn name(text: &str) -> Result<Name, Fail> {
    Ok(Name::read(text.as_bytes()).ok_or("not a name")?)
}

pub fn put(alloc: Global, keeper: &mut MemKeeper, file: &str, bytes: &[u8]) -> Result<(), Fail> {
    keeper
        .put(alloc, &name(file)?, bytes)
        .ok()
        .ok_or("no memory")?;
    Ok(())
}

/// A keeper with the files of a run.
pub fn given(alloc: Global, run: &Run) -> Result<MemKeeper, Fail> {
    let mut keeper = MemKeeper::new(
        alloc,
        Vec::from_slice(alloc, run.failing_reads)?,
        Vec::from_slice(alloc, run.failing_writes)?,
    );
    match run.bad_input {
        Some(bytes) => put(alloc, &mut keeper, "in.wav", bytes)?,
        None => put(
            alloc,
            &mut keeper,
            "in.wav",
            &wav(alloc, 1, run.size, run.input, 0)?,
        )?,
    }
    put(alloc, &mut keeper, "journal.txt", run.journal)?;
    if let Some(text) = run.set {
        put(alloc, &mut keeper, "set1", text)?;
    }
    if let Some(list) = run.list {
        put(alloc, &mut keeper, "set1-0.wav", list)?;
    }
    Ok(keeper)
}

fn is_same(left: Option<&[u8]>, wanted: Option<&[u8]>) -> bool {
    match left {
        Some(bytes) => match wanted {
            Some(others) => bytes == others,
            None => false,
        },
        None => wanted.is_none(),
    }
}

/// Whether a file has these bytes at the end, or isn't there.
fn is_left(keeper: &MemKeeper, file: &str, wanted: Option<&[u8]>) -> Result<bool, Fail> {
    Ok(is_same(keeper.file(&name(file)?), wanted))
}

/// Whether OUT has these samples at the end, or isn't there.
fn is_heard(alloc: Global, keeper: &MemKeeper, run: &Run) -> Result<bool, Fail> {
    match run.out {
        Some(samples) => {
            let wanted = wav(alloc, 1, run.size, samples, 0)?;
            is_left(keeper, "out.wav", Some(wanted.as_slice()))
        }
        None => is_left(keeper, "out.wav", None),
    }
}

/// Makes the run with some more words over a keeper's files, and sees that it ends as it has to.
pub fn ends_over(
    rt: &impl Abort,
    alloc: Global,
    run: &Run,
    more: &[&str],
    keeper: &mut MemKeeper,
) -> Result<(), Fail> {
    let mut words = Vec::new(alloc);
    for word in run.words {
        words.push(String::from_str(alloc, word)?)?;
    }
    for word in more {
        words.push(String::from_str(alloc, word)?)?;
    }
    let mut console = MemSink::new(alloc, Vec::from_slice(alloc, run.failing_texts)?);
    let status = plain_run(alloc, &words, keeper, &mut console);
    // Compared at once, so that a run that ends otherwise shows its whole end.
    assert_eq!(rt;
        (status, console.bytes()),
        (run.status, run.console),
        "{}",
        run.title
    );
    assert!(rt; is_heard(alloc, keeper, run)?, "OUT of {}", run.title);
    assert!(rt;
        is_left(keeper, "take.wav", run.take)?,
        "take.wav of {}",
        run.title
    );
    assert!(rt;
        is_left(keeper, "set1-0.wav", run.list_left)?,
        "set1-0.wav of {}",
        run.title
    );
    assert!(rt;
        is_left(keeper, "set1", run.set_left)?,
        "set1 of {}",
        run.title
    );
    Ok(())
}

/// Makes each of the runs, and sees that it ends as it has to.
pub fn end(rt: &impl Abort, alloc: Global, runs: &[Run]) -> Result<(), Fail> {
    for run in runs {
        ends_over(rt, alloc, run, &[], &mut given(alloc, run)?)?;
    }
    Ok(())
}
