//! Whole files and texts through the system's reads and writes, each of which may take a part.

ghost use Rattle.std.specs.Prelude.{OnOk, IfOk};
ghost use Rattle.std.specs.Io.{ReadsAtMost, WritesAtMost};
ghost use Rattle.std.specs.Io.KnownBytes.{Appends, ReadConsumes, WriteAppends};
ghost use Rattle.sl_ports.specs.Transfers.{ReadsWhole};

use std::alloc::Global;
use std::fs::OpenFile;
use std::io;
use std::io::{ErrorKind, Read, Write};

// The turns in which a file has to end. Each takes at least one byte.
const TURNS: u64 = 4294967296;

// The bytes asked for in one turn. They stand on the stack.
const PIECE: usize = 8192;

// The tries of one call that a signal breaks off.
const TRIES: u64 = 1000;

// One read. What a signal breaks off is tried again.
fn read_piece<F: Read>(file: &mut F, piece: &mut [u8]) -> io::Result<usize>
    ensures within { ReadsAtMost result piece.new }
    ensures value { ReadConsumes (F.remaining file.old) (F.remaining file.new) result piece.new }
{
    'tries: for _ in 0..TRIES {
        match file.read(piece) {
            Ok(count) => return Ok(count),
            Err(e) => {
                if e.kind() != ErrorKind::Interrupted {
                    return Err(e);
                }
            }
        }
    }
    Err(io::Error::from(ErrorKind::Interrupted))
}

// One write. What a signal breaks off is tried again.
fn write_piece<W: Write>(to: &mut W, piece: &[u8]) -> io::Result<usize>
    ensures within { WritesAtMost result piece.now }
    ensures value { WriteAppends (W.contents to.old) (W.contents to.new) result piece.now }
{
    'tries: for _ in 0..TRIES {
        match to.write(piece) {
            Ok(count) => return Ok(count),
            Err(e) => {
                if e.kind() != ErrorKind::Interrupted {
                    return Err(e);
                }
            }
        }
    }
    Err(io::Error::from(ErrorKind::Interrupted))
}

/// The bytes that an open file is said to have, or 0 where that isn't said.
fn said_length<F: OpenFile>(file: &F) -> usize {
    match file.metadata() {
        Ok(metadata) => metadata.len() as usize,
        Err(_) => 0,
    }
}

/// Reads an open file to its end. What the file is said to have is reserved at once, so that its
/// memory is not doubled on the way.
pub fn read_whole<F: Read + OpenFile>(alloc: Global, file: &mut F) -> io::Result<Vec<u8>>
    ensures { IfOk result (λ bytes. ReadsWhole (F.remaining file.old) bytes.items) }
{
    let mut bytes = Vec::with_capacity(alloc, said_length(file))?;
    let mut piece = [0; PIECE];
    'turns: for _ in 0..TURNS {
        let count = read_piece(file, &mut piece)?;
        if count == 0 {
            return Ok(bytes);
        }
        bytes.extend_from_slice(&piece[..count])?;
    }
    Err(io::Error::other("the file has no end"))
}

/// Writes all of the bytes. To take none of a piece that has some is an error.
pub fn write_whole<W: Write>(to: &mut W, bytes: &[u8]) -> io::Result<()>
    ensures { OnOk result (Appends (W.contents to.old) (W.contents to.new) bytes.now) }
{
    let mut done = 0;
    while done < bytes.len() {
        let (_, rest) = bytes.split_at(done);
        let count = write_piece(to, rest)?;
        if count == 0 {
            return Err(io::Error::from(ErrorKind::WriteZero));
        }
        done += count;
    }
    Ok(())
}
