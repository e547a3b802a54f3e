//! Waiting for a file, for a bounded time.

use mio::unix::SourceFd;
use mio::{Events, Interest, Poll, Token};
use std::alloc::Global;
use std::io;
use std::io::ErrorKind;
use std::net::Net;
use std::os::fd::AsRawFd;
use std::time::Duration;

const TOKEN: Token = Token(0);

/// What the system tells of a file that may have something to read.
#[derive(Drop)]
pub struct Watch {
    poll: Poll,
    events: Events<Global>,
}

impl Watch {
    /// Watches a file. None for one that the system doesn't wait for, as a regular one.
    pub fn over<R: Net, F: AsRawFd>(alloc: Global, rt: &R, file: &F) -> io::Result<Option<Watch>> {
        let poll = Poll::new(rt)?;
        let events = Events::with_capacity(alloc, 1)?;
        let fd = file.as_raw_fd();
        let mut source = SourceFd(&fd);
        match poll
            .registry()
            .register(&mut source, TOKEN, Interest::READABLE)
        {
            Ok(()) => Ok(Some(Watch { poll, events })),
            Err(e) if e.kind() == ErrorKind::PermissionDenied => Ok(None),
            Err(e) => Err(e),
        }
    }

    /// Waits until the file has something to read, or is closed or broken, or for so long.
    pub fn is_ready<F: AsRawFd>(&mut self, file: &F, wait: Duration) -> bool {
        let fd = file.as_raw_fd();
        let mut source = SourceFd(&fd);
        // What was told once is told again only if it is asked for anew.
        let _ = self
            .poll
            .registry()
            .reregister(&mut source, TOKEN, Interest::READABLE);
        match self.poll.poll(&mut self.events, Some(wait)) {
            Ok(()) => self.events.iter().count() > 0,
            Err(_) => false,
        }
    }
}
