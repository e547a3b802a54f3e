//! What is done to all tracks in turn, or to one of them.

ghost use Rattle.std.specs.Prelude.{◌≡◌, ◌<◌, false, IsTrue};
ghost use Rattle.sl_commands.specs.Controls.{is_in_range};
ghost use Rattle.looper_rules.specs.Looper.{on_loop, swept, itself, at_index, at_target};
ghost use Rattle.looper_rules.specs.Saves.{pinned_for, any_pinned, loop_released, session_released};
ghost use Rattle.looper_rules.specs.Entries.{sets};
ghost use Rattle.looper_rules.specs.Frame.{at_boundary};
ghost use Rattle.loop_strip.specs.Strips.{gives};
ghost use Rattle.looper_tracks.specs.Track.{AreIn, DidAll, tracks_in};
ghost use Rattle.looper_tracks.specs.Tracks.{IsFreeAt};

use crate::asker::Asker;
use crate::track::Track;
use loop_strip::{Given, Pool};
use sl_commands::{Control, Face, Globals, Target};

/// A verb given to all.
fn give_all(tracks: &mut [Track], pool: &mut Pool, given: Given)
    requires inside { AreIn pool.old tracks.old }
    ensures { DidAll (swept itself (on_loop (gives given)))
        tracks.old tracks.new pool.old pool.new }
{
    for k in 0..tracks.len() {
        tracks[k].give(pool, given);
    }
}

/// A verb given to the track of this index, where there is one.
fn give_one(tracks: &mut [Track], pool: &mut Pool, index: usize, given: Given)
    requires inside { AreIn pool.old tracks.old }
    ensures { DidAll (at_index index (on_loop (gives given)))
        tracks.old tracks.new pool.old pool.new }
{
    if index < tracks.len() {
        tracks[index].give(pool, given);
    }
}

/// A verb given to the tracks of a target.
pub(crate) fn give_to(
    tracks: &mut [Track],
    pool: &mut Pool,
    target: Target,
    selected: u8,
    given: Given,
)
    requires inside { AreIn pool.old tracks.old }
    ensures { DidAll (at_target target selected (on_loop (gives given)))
        tracks.old tracks.new pool.old pool.new }
{
    match target {
        Target::One(index) => give_one(tracks, pool, index as usize, given),
        Target::All => give_all(tracks, pool, given),
        Target::Selected => give_one(tracks, pool, selected as usize, given),
    }
}

/// A control set of all. The pool stays as it is.
fn set_all(tracks: &mut [Track], pool: &Pool, control: Control, value: i32)
    requires inside { AreIn pool.now tracks.old }
    requires range { IsTrue (is_in_range control value 0) }
    ensures { DidAll (swept itself (on_loop (sets control value)))
        tracks.old tracks.new pool.now pool.now }
{
    for k in 0..tracks.len() {
        tracks[k].set(control, value);
    }
}

/// A control set of the track of this index, where there is one.
fn set_one(tracks: &mut [Track], pool: &Pool, index: usize, control: Control, value: i32)
    requires inside { AreIn pool.now tracks.old }
    requires range { IsTrue (is_in_range control value 0) }
    ensures { DidAll (at_index index (on_loop (sets control value)))
        tracks.old tracks.new pool.now pool.now }
{
    if index < tracks.len() {
        tracks[index].set(control, value);
    }
}

/// A control set of the tracks of a target.
pub(crate) fn set_to(
    tracks: &mut [Track],
    pool: &Pool,
    target: Target,
    selected: u8,
    control: Control,
    value: i32,
)
    requires inside { AreIn pool.now tracks.old }
    requires range { IsTrue (is_in_range control value 0) }
    ensures { DidAll (at_target target selected (on_loop (sets control value)))
        tracks.old tracks.new pool.now pool.now }
{
    match target {
        Target::One(index) => set_one(tracks, pool, index as usize, control, value),
        Target::All => set_all(tracks, pool, control, value),
        Target::Selected => set_one(tracks, pool, selected as usize, control, value),
    }
}

/// The waiting verbs act, where this frame is a boundary by these faces.
pub(crate) fn meet_boundaries(
    tracks: &mut [Track],
    pool: &mut Pool,
    faces: &[Face],
    globals: &Globals,
    frame: u64,
)
    requires inside { AreIn pool.old tracks.old }
    ensures { DidAll (swept itself (on_loop (at_boundary globals.now frame faces.now)))
        tracks.old tracks.new pool.old pool.new }
{
    for k in 0..tracks.len() {
        tracks[k].boundary(pool, faces, globals, frame);
    }
}

/// All lists pinned for someone who asked for a save.
pub(crate) fn pin_all(tracks: &mut [Track], pool: &Pool, asker: Asker)
    requires inside { AreIn pool.now tracks.old }
    requires free { any_pinned (tracks_in pool.now tracks.old) ≡ false }
    ensures { DidAll (swept itself (λ reach t. pinned_for asker t))
        tracks.old tracks.new pool.now pool.now }
{
    for k in 0..tracks.len() {
        tracks[k].pin(asker);
    }
}

/// The list of the track of this index pinned for someone who asked for a save.
pub(crate) fn pin_one(tracks: &mut [Track], pool: &Pool, index: usize, asker: Asker)
    requires inside { AreIn pool.now tracks.old }
    requires free { IsFreeAt index (tracks_in pool.now tracks.old) }
    ensures { DidAll (at_index index (λ reach t. pinned_for asker t))
        tracks.old tracks.new pool.now pool.now }
{
    if index < tracks.len() {
        tracks[index].pin(asker);
    }
}

/// The pins of a session's save taken away.
pub(crate) fn release_all(tracks: &mut [Track], pool: &Pool)
    requires inside { AreIn pool.now tracks.old }
    ensures { DidAll (swept itself (λ reach t. session_released t))
        tracks.old tracks.new pool.now pool.now }
{
    for k in 0..tracks.len() {
        tracks[k].release_session();
    }
}

/// The pin of a loop's save taken away from the track of this index, where it is one.
pub(crate) fn release_one(tracks: &mut [Track], pool: &Pool, index: usize)
    requires inside { AreIn pool.now tracks.old }
    ensures { DidAll (at_index index (λ reach t. loop_released t))
        tracks.old tracks.new pool.now pool.now }
{
    if index < tracks.len() {
        tracks[index].release_loop();
    }
}
