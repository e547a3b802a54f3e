//! A device or a file as a source, with a bounded wait.

ghost use Rattle.std.specs.Prelude.{◌≡◌};
ghost use Rattle.live_ports.specs.Sources.{unread, untold};

use crate::reads::Reads;
use crate::source::{Source, SourceAnswer};
use crate::watch::Watch;
use std::alloc::Global;
use std::fs::File;
use std::io::Read;
use std::marker::Model;
use std::net::Net;
use std::os::fd::AsRawFd;
use std::os::unix::fs::FileTypeExt;
use std::rt::Files;
use std::time::Duration;
use std::{fs, io};

/// Reads a MIDI device, a FIFO, a terminal or a file. A read waits for so long at most, and then
/// gives nothing for now. It tells nothing of what it holds. One that couldn't be opened fails at
/// each read.
///
/// A FIFO is held open to write as well: to open it waits for no writer, and where one closes it
/// the next one is heard. Opening a device that another program holds may wait.
#[derive(Drop)]
pub struct FileSource<F> {
    file: Option<F>,
    watch: Option<Watch>,
    wait: Duration,
    is_none: bool,
    reads: Reads,
}

impl<F> Model for FileSource<F> {
    ghost use Rattle.live_ports.specs.Sources.{ReadCounts};

    ghost Value = { ReadCounts };

    ghost view = { λ s. s.reads };
}

fn opened<R: Files>(rt: &R, path: &str) -> io::Result<R::File> {
    let is_fifo = fs::metadata(rt, path)?.file_type().is_fifo();
    File::options().read(true).write(is_fifo).open(rt, path)
}

fn watched<R: Files + Net>(
    alloc: Global,
    rt: &R,
    path: &str,
) -> io::Result<(R::File, Option<Watch>)>
where
    R::File: AsRawFd,
{
    let file = opened(rt, path)?;
    let watch = Watch::over(alloc, rt, &file)?;
    Ok((file, watch))
}

impl<F> FileSource<F> {
    fn new(
        file: Option<F>,
        watch: Option<Watch>,
        wait: Duration,
        first: Option<io::Error>,
    ) -> FileSource<F>
        ensures { result ≡ unread }
    {
        FileSource {
            file,
            watch,
            wait,
            is_none: false,
            reads: Reads::new(first),
        }
    }

    /// A source over the file of this path.
    pub fn open<R: Files<File = F> + Net>(
        alloc: Global,
        rt: &R,
        path: &str,
        wait: Duration,
    ) -> FileSource<F>
    where
        F: AsRawFd,
        ensures { result ≡ unread }
    {
        match watched(alloc, rt, path) {
            Ok((file, watch)) => FileSource::new(Some(file), watch, wait, None),
            Err(e) => FileSource::new(None, None, wait, Some(e)),
        }
    }

    /// A source of nothing, which is at its end.
    pub fn none() -> FileSource<F>
        ensures { result ≡ unread }
    {
        FileSource {
            file: None,
            watch: None,
            wait: Duration::ZERO,
            is_none: true,
            reads: Reads::new(None),
        }
    }

    /// The system's error at opening, or at the first read that failed, if any did.
    pub fn first_fault(&self) -> Option<&io::Error> {
        self.reads.first_fault()
    }
}

impl<F: Read + AsRawFd + Drop> Source for FileSource<F> {
    ghost seen = { untold };

    fn read(&mut self, buf: &mut [u8]) -> SourceAnswer {
        if self.is_none || self.reads.has_ended() {
            return self.reads.end(buf);
        }
        let Some(file) = &mut self.file else {
            return self.reads.fail(buf);
        };
        if let Some(watch) = &mut self.watch {
            if !watch.is_ready(file, self.wait) {
                return self.reads.idle(buf);
            }
        }
        let read = file.read(buf);
        self.reads.answer(read, buf)
    }
}
