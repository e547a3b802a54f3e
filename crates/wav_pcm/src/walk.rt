//! The walk over the chunks of a file.

ghost use Rattle.std.specs.Prelude.{◌≡◌, ◌+◌, ◌%◌, ◌≤◌, drop, length, IfSome};
ghost use Rattle.byteorder.specs.Endian.{little_number};
ghost use Rattle.wav_pcm.specs.Reading.{is_riff, step_of, walk_of};
ghost use Rattle.wav_pcm.specs.Walking.{first_of, seen_bytes, seen_step, seen_walk, PartsWithin};

use byteorder::{ByteOrder, LittleEndian};

/// What the walk found: the body of the first format, and what stands behind the name of `data`.
#[derive(Clone, Copy)]
pub struct Walk<'a> {
    pub format: Option<&'a [u8]>,
    pub part: Option<&'a [u8]>,
}

/// One step of the walk.
enum Step<'a> {
    /// Nothing more can be walked.
    Stop,
    /// The first `data`: what stands behind its name.
    Data(&'a [u8]),
    /// A whole chunk: its name, its body, and what stands behind it.
    Chunk(&'a [u8], &'a [u8], &'a [u8]),
}

/// The number of two bytes at a place.
pub fn u16_at(bytes: &[u8], place: usize) -> u16
    requires { place + 2 ≤ length bytes.now }
    ensures { result ≡ little_number 2 (drop place bytes.now) }
{
    LittleEndian::read_u16(bytes.split_at(place).1)
}

/// The number of four bytes at a place.
pub fn u32_at(bytes: &[u8], place: usize) -> u32
    requires { place + 4 ≤ length bytes.now }
    ensures { result ≡ little_number 4 (drop place bytes.now) }
{
    LittleEndian::read_u32(bytes.split_at(place).1)
}

/// The file begins as one of RIFF WAVE does.
pub fn is_riff(bytes: &[u8]) -> bool
    ensures { result ≡ is_riff bytes.now }
{
    if bytes.len() < 12 {
        return false;
    }
    let (name, _) = bytes.split_at(4);
    let (_, behind) = bytes.split_at(8);
    let (form, _) = behind.split_at(4);
    name == b"RIFF".as_slice() && form == b"WAVE".as_slice()
}

/// The step from here on.
fn next_step<'a>(at: &'a [u8]) -> Step<'a>
    ensures value { seen_step result ≡ step_of at.now }
    ensures within { PartsWithin (length at.now) result }
{
    if at.len() < 8 {
        return Step::Stop;
    }
    let (name, behind) = at.split_at(4);
    if name == b"data".as_slice() {
        return Step::Data(behind);
    }
    let size = u32_at(at, 4) as usize;
    let (_, bytes) = at.split_at(8);
    if bytes.len() < size {
        return Step::Stop;
    }
    let (body, _) = bytes.split_at(size);
    Step::Chunk(name, body, behind_chunk(at, size))
}

/// What stands behind a chunk and its pad, which may be missing at the end.
fn behind_chunk<'a>(at: &'a [u8], size: usize) -> &'a [u8]
    requires { 8 + size ≤ length at.now }
    ensures { result.now ≡ drop (8 + (size + size % 2)) at.now }
{
    let end = 8 + (size + size % 2);
    if at.len() < end {
        at.split_at(at.len()).1
    } else {
        at.split_at(end).1
    }
}

/// The format, where one was met before this chunk, and else the chunk's body where it is one.
fn first_of<'a>(format: Option<&'a [u8]>, name: &[u8], body: &'a [u8]) -> Option<&'a [u8]>
    ensures { seen_bytes result ≡ first_of (seen_bytes format.entry) name.now body.now }
{
    match format {
        Some(format) => Some(format),
        None => {
            if name == b"fmt ".as_slice() {
                Some(body)
            } else {
                None
            }
        }
    }
}

/// The whole walk from here on. Each turn takes at least eight bytes.
pub fn walk_over<'a>(at: &'a [u8]) -> Walk<'a>
    ensures value { seen_walk result ≡ walk_of at.now }
    ensures within { IfSome result.part (λ part. length part.now ≤ length at.now) }
    ensures long { IfSome result.part (λ part. 4 ≤ length part.now) }
{
    let mut rest = at;
    let mut format = None;
    for _ in 0..at.len() {
        match next_step(rest) {
            Step::Stop => return Walk { format, part: None },
            Step::Data(part) => {
                return Walk {
                    format,
                    part: Some(part),
                };
            }
            Step::Chunk(name, body, behind) => {
                format = first_of(format, name, body);
                rest = behind;
            }
        }
    }
    Walk { format, part: None }
}
