//! Frames of a world's own input, played.

ghost use Rattle.std.specs.Prelude.{◌≡◌, ◌≤◌, ◌+◌, ◌≤ℤ◌, pos, negsuc, IfOk};
ghost use Rattle.sl_base.specs.Limits.{max_session_frames};
ghost use Rattle.ring_world.specs.Inputs.{left_at, input_at, input_from};
ghost use Rattle.ring_world.specs.Stepping.{played, Does};

use crate::lists::Lists;
use crate::step::Outcome;
use sl_base::{Frame, Memory};
use std::alloc::Global;

/// The left side of a frame of the input.
fn left_at(number: u32, frame: u64) -> i32
    requires { frame ≤ max_session_frames }
    ensures value { result ≡ left_at number frame }
    ensures from { negsuc 9999 ≤ℤ result }
    ensures to { result ≤ℤ pos 10000 }
{
    ((frame * 7919 + number as u64) % 20001) as i32 - 10000
}

/// A frame of the input.
fn input_at(number: u32, frame: u64) -> Frame
    requires { frame ≤ max_session_frames }
    ensures { result ≡ input_at number frame }
{
    let left = left_at(number, frame);
    Frame { left, right: -left }
}

/// So many frames of the input, from this one on.
#[tactic(auto, using(crate::proofs::CountLemmas::frame_more, crate::proofs::CountLemmas::no_frame_more))]
fn input_from(alloc: Global, number: u32, frame: u64, frames: u16) -> Result<Vec<Frame>, Memory>
    requires { frame + frames ≤ max_session_frames }
    ensures { IfOk result (λ input. input.items ≡ input_from number frame frames) }
{
    let mut input = Vec::with_capacity(alloc, frames as usize)?;
    for done in 0..frames {
        input.push(input_at(number, frame + done as u64))?;
    }
    Ok(input)
}

/// Plays so many frames.
pub fn play(alloc: Global, number: u32, lists: &mut Lists, frames: u16) -> Result<Outcome, Memory>
    requires { lists.old.engine.frames + frames ≤ max_session_frames }
    ensures { Does result lists.old lists.new
        (played (input_from number lists.old.engine.frames frames) lists.old) }
{
    let input = input_from(alloc, number, lists.engine.frames_done(), frames)?;
    lists.output.play(&mut lists.engine, &input)?;
    Ok(Outcome::Done)
}
