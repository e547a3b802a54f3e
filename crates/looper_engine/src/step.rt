//! The steps of a save.

ghost use Rattle.std.specs.Prelude.{◌≡◌, ◌≤◌, ◌<◌, length};
ghost use Rattle.sl_base.specs.Limits.{max_loops, max_list_frames};
ghost use Rattle.looper_engine.specs.Steps.{part_count, parts_in, block_count, part_step, step_behind, step_at};

/// What a block of a save is. `list` counts the lists of the save from 0; `place` is a multiple of
/// 256, and `count` 1 to 256 frames.
#[derive(Clone, Copy, PartialEq, Eq)]
pub enum Step {
    Head,
    Part { list: u32, place: u32, count: u32 },
    End,
}

/// How many parts a list of so many frames has.
fn part_count(length: u32) -> u32
    ensures value { result ≡ part_count length }
    ensures within { result ≤ max_list_frames }
{
    ((length as u64 + 255) / 256) as u32
}

/// How many blocks a save with lists of these lengths has, in frames; there are 16 lists at most.
pub fn block_count(lengths: &[u32]) -> u32
    requires { length lengths.now ≤ max_loops }
    ensures { result ≡ block_count lengths.now }
{
    let mut count = 2;
    for length in lengths {
        count += part_count(*length);
    }
    count
}

/// The part of this number of a list.
fn part_step(list: u32, length: u32, part: u32) -> Step
    requires { part < part_count length }
    ensures { result ≡ part_step list length part }
{
    let place = part * 256;
    Step::Part {
        list,
        place,
        count: (length - place).min(256),
    }
}

/// What the block of this number is, of a save with lists of these lengths in frames. The first
/// block has the number 0, and numbers past the last one are ends too.
pub fn step_at(lengths: &[u32], block: u32) -> Step
    requires { length lengths.now ≤ max_loops }
    ensures { result ≡ step_at lengths.now block }
{
    if block == 0 {
        return Step::Head;
    }
    let mut part = block - 1;
    for list in 0..lengths.len() {
        let parts = part_count(lengths[list]);
        if part < parts {
            return part_step(list as u32, lengths[list], part);
        }
        part -= parts;
    }
    Step::End
}
