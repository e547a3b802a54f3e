//! Bytes from a source, as many as there is room for.

ghost use Rattle.std.specs.Prelude.{◌≡◌, ◌≤◌, ◌++◌, length, take, drop};
ghost use Rattle.audio_ends.specs.Fills.{HasRead, CameBehind, Halts};
ghost use Rattle.audio_ends.specs.declared.fill.Halt.TheVariants.{Whole};

use arrayvec::ArrayVec;
use live_ports::{Source, SourceAnswer};

/// Why no more bytes came.
#[derive(Clone, Copy, Debug, PartialEq, Eq)]
pub enum Halt {
    /// There was room for no more.
    Whole,
    /// The source had none for now.
    Idle,
    /// The source has none left.
    End,
    /// The source failed.
    Failed,
}

/// How many bytes there are, and why no more came.
#[derive(Clone, Copy)]
pub struct Came {
    pub count: usize,
    pub halt: Halt,
}

/// Reads behind the bytes that are kept, until there is no more room or the source gives none.
fn fill_behind<A: Source>(source: &mut A, bytes: &mut [u8], kept: usize) -> Came
    requires { kept ≤ length bytes.old }
    ensures within { (kept ≤ result.count) × (result.count ≤ length bytes.old) }
    ensures read { HasRead (A.seen source.old).left (A.seen source.new).left kept result.count
        bytes.old bytes.new }
    ensures halts { Halts (A.seen source.old) (A.seen source.new) result.halt }
    ensures whole { result.halt ≡ Whole → result.count ≡ length bytes.old }
{
    let mut done = kept;
    while done < bytes.len() {
        match source.read(&mut bytes[done..]) {
            SourceAnswer::Got(n) => done += n,
            SourceAnswer::Idle => {
                return Came {
                    count: done,
                    halt: Halt::Idle,
                };
            }
            SourceAnswer::End => {
                return Came {
                    count: done,
                    halt: Halt::End,
                };
            }
            SourceAnswer::Failed => {
                return Came {
                    count: done,
                    halt: Halt::Failed,
                };
            }
        }
    }
    Came {
        count: done,
        halt: Halt::Whole,
    }
}

/// Puts these bytes in front.
fn put_front(bytes: &mut [u8], front: &[u8])
    requires { length front.now ≤ length bytes.old }
    ensures { bytes.new ≡ front.now ++ drop (length front.now) bytes.old }
{
    bytes[..front.len()].copy_from_slice(front);
}

/// Puts the bytes that were kept in front, and reads behind them until there is no more room or the
/// source gives none.
pub fn fill_bytes<A: Source>(source: &mut A, kept: &[u8], bytes: &mut [u8]) -> Came
    requires { length kept.now ≤ length bytes.old }
    ensures within { result.count ≤ length bytes.old }
    ensures came { CameBehind (A.seen source.old).left (A.seen source.new).left kept.now
        (take result.count bytes.new) }
    ensures halts { Halts (A.seen source.old) (A.seen source.new) result.halt }
    ensures whole { result.halt ≡ Whole → result.count ≡ length bytes.old }
{
    put_front(bytes, kept);
    fill_behind(source, bytes, kept.len())
}

/// These bytes, fewer than a frame has.
pub fn kept_of(bytes: &[u8]) -> ArrayVec<u8, 4>
    requires { length bytes.now ≤ 4 }
    ensures { result.items ≡ bytes.now }
{
    let mut kept = ArrayVec::new();
    for index in 0..bytes.len() {
        kept.push(bytes[index]);
    }
    kept
}
