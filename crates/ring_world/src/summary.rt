//! The numbers of a world.

ghost use Rattle.std.specs.Prelude.{◌≡◌, ◌≤◌, ◌<◌, ◌+◌, ◌+ℤ◌, length};
ghost use Rattle.sl_base.specs.Limits.{max_session_frames};
ghost use Rattle.ring_world.specs.Standing.{IsWorld};
ghost use Rattle.ring_world.specs.Summaries.{left_sum, summary_of, IsSumOf};

use crate::lists::Lists;
use sl_base::Frame;

/// The numbers of a world, in the order in which they are told.
#[derive(Clone, Copy, Debug, PartialEq, Eq)]
pub struct Summary {
    /// Commands of senders 0 and 1 that were put.
    pub accepted: u64,
    /// Commands that found their ring full. It stays at 2^64 - 1.
    pub full: u64,
    /// Entries of the journal.
    pub stamped: u64,
    /// Frames done.
    pub frames: u64,
    /// Replies that were taken.
    pub replies: u64,
    /// Saves that were made.
    pub saves: u64,
    /// How often a loop refused an opening, a write or an extension.
    pub refused: u64,
    /// The left sides of all output frames, added.
    pub left: i64,
}

/// The sum of so many left sides, with the one of one more frame.
fn with_left(sum: i64, done: u64, frame: &Frame) -> i64
    requires within { IsSumOf done sum }
    requires few { done < max_session_frames }
    ensures value { result ≡ sum +ℤ frame.now.left }
    ensures within { IsSumOf (done + 1) result }
{
    sum + frame.left as i64
}

/// The left sides of frames, added.
#[tactic(auto, using(crate::proofs::SumLemmas::left_more))]
fn left_sum(frames: &[Frame]) -> i64
    requires { length frames.now ≤ max_session_frames }
    ensures { result ≡ left_sum frames.now }
{
    let mut sum = 0;
    for index in 0..frames.len() {
        sum = with_left(sum, index as u64, &frames[index]);
    }
    sum
}

/// The numbers of lists.
#[tactic(auto, using(crate::proofs::WorldLemmas::output_is_short, crate::proofs::WorldLemmas::puts_are_few))]
pub(crate) fn summary_of(lists: &Lists) -> Summary
    requires { IsWorld lists.now }
    ensures { result ≡ summary_of lists.now }
{
    let journal = lists.engine.journal();
    journal.facts();
    let frames = lists.engine.frames_done();
    Summary {
        accepted: lists.osc.sent() as u64 + lists.midi.sent() as u64,
        full: lists.full,
        stamped: journal.entries().len() as u64,
        frames,
        replies: lists.replies.taken().len() as u64,
        saves: lists.engine.saves() as u64,
        refused: lists.engine.refused(),
        left: left_sum(lists.output.as_slice()),
    }
}
