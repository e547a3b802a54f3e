//! The blocks of the first save, whose lists are read from the pins.

ghost use Rattle.std.specs.Prelude.{◌≡◌, ◌≤◌, ◌<◌, ◌+◌, [], ◌∷◌, length, map, take, drop};
ghost use Rattle.sl_base.specs.Limits.{max_loops};
ghost use Rattle.sl_commands.specs.Blocks.{first_index};
ghost use Rattle.looper_engine.specs.Steps.{block_count, step_at, block_of};
ghost use Rattle.looper_engine.specs.declared.step.Step.TheVariants.{Head};
ghost use Rattle.whole_looper.specs.Loopers.{pinned_at};
ghost use Rattle.looper_engine.specs.Holding.{lists_for, pinned_on, CanRead, Reads};

use crate::queue::Pending;
use crate::step::{Step, block_count, step_at};
use arrayvec::ArrayVec;
use sl_base::Frame;
use sl_commands::{Block, PartFrames, Target};
use whole_looper::Looper;

/// The lengths of the lists that the pins hold for a save with this target.
fn lengths_for(looper: &Looper, target: Target) -> ArrayVec<u32, 16>
    requires { CanRead target looper.now }
    ensures value { result.items ≡ map length (lists_for target looper.now) }
    ensures few { length result.items ≤ max_loops }
{
    match target {
        Target::One(index) => one_length(looper, index),
        _ => all_lengths(looper),
    }
}

/// The length of one pinned list.
fn one_length(looper: &Looper, index: u8) -> ArrayVec<u32, 16>
    requires { index < length looper.now.tracks }
    ensures { result.items ≡ length (pinned_at index looper.now) ∷ [] }
{
    let mut lengths = ArrayVec::new();
    lengths.push(looper.pinned_length(index));
    lengths
}

/// The lengths of all pinned lists.
fn all_lengths(looper: &Looper) -> ArrayVec<u32, 16>
    ensures { result.items ≡ map length (map pinned_on looper.now.tracks) }
{
    let mut lengths = ArrayVec::new();
    for index in 0..looper.loops() {
        lengths.push(looper.pinned_length(index));
    }
    lengths
}

/// How many blocks a save with this target has.
pub(crate) fn block_total(looper: &Looper, target: Target) -> u32
    requires { CanRead target looper.now }
    ensures { result ≡ block_count (map length (lists_for target looper.now)) }
{
    let lengths = lengths_for(looper, target);
    block_count(lengths.as_slice())
}

/// What the block of this number is, of a save with this target.
fn step_for(looper: &Looper, target: Target, block: u32) -> Step
    requires { CanRead target looper.now }
    ensures value { result ≡ step_at (map length (lists_for target looper.now)) block }
    ensures reads { Reads target looper.now result }
{
    let lengths = lengths_for(looper, target);
    step_at(lengths.as_slice(), block)
}

/// So many frames of a pinned list from a place on.
fn frames_at(looper: &Looper, index: u8, place: u32, count: u32) -> PartFrames
    requires index { index < length looper.now.tracks }
    requires few { count ≤ 256 }
    requires within { place + count ≤ length (pinned_at index looper.now) }
    ensures { result ≡ take count (drop place (pinned_at index looper.now)) }
{
    let mut span = [Frame::silence(); 256];
    looper.saved_span(index, place, &mut span[..count as usize]);
    part_of(&span[..count as usize])
}

/// These frames as a part.
fn part_of(frames: &[Frame]) -> PartFrames
    requires { length frames.now ≤ 256 }
    ensures { result ≡ frames.now }
{
    let mut part = PartFrames::new();
    for index in 0..frames.len() {
        part.push(frames[index]);
    }
    part
}

/// The head of a save.
fn head_of(pending: &Pending) -> Block
    ensures { result ≡ block_of Head pending.now.number pending.now.name pending.now.target
        pending.now.settings [] }
{
    Block::Head {
        save: pending.number,
        name: pending.name.duplicate(),
        target: pending.target,
        settings: pending.settings.duplicate(),
    }
}

/// The block that this step of a save is.
fn block_of(looper: &Looper, pending: &Pending, step: Step) -> Block
    requires { Reads pending.now.target looper.now step }
    ensures { result ≡ block_of step pending.now.number pending.now.name pending.now.target
        pending.now.settings (lists_for pending.now.target looper.now) }
{
    match step {
        Step::Head => head_of(pending),
        Step::Part { list, place, count } => {
            let index = pending.target.first_index() + list as u8;
            Block::Part {
                save: pending.number,
                index,
                frames: frames_at(looper, index, place, count),
            }
        }
        Step::End => Block::End {
            save: pending.number,
        },
    }
}

/// The block of this number of a save.
pub(crate) fn block_at(looper: &Looper, pending: &Pending, block: u32) -> Block
    requires { CanRead pending.now.target looper.now }
    ensures { result ≡ block_of
        (step_at (map length (lists_for pending.now.target looper.now)) block) pending.now.number
        pending.now.name pending.now.target pending.now.settings
        (lists_for pending.now.target looper.now) }
{
    block_of(looper, pending, step_for(looper, pending.target, block))
}

/// Where the block of this number is a part, its frames are looked up here once, and `block_at`
/// searches nothing.
pub(crate) fn seek_block(looper: &mut Looper, target: Target, block: u32)
    requires { CanRead target looper.old }
    ensures { looper.new ≡ looper.old }
{
    match step_for(looper, target, block) {
        Step::Part { list, place, .. } => looper.seek_saved(
            target.first_index() + list as u8,
            place,
        ),
        _ => {}
    }
}
