//! What is read of all tracks, and of one of them.

ghost use Rattle.std.specs.Prelude.{◌≡◌, ◌≤◌, ◌<◌, ◌+◌, ◌==◌, length, slice_get, option_map, sum_by};
ghost use Rattle.std.specs.Option.{option_and_then};
ghost use Rattle.looper_rules.specs.Saves.{any_pinned, save_refusal, loop_asker, running_session, loop_refusal};
ghost use Rattle.looper_rules.specs.Entries.{value_on};
ghost use Rattle.loop_tape.specs.Pools.{PoolOf};
ghost use Rattle.loop_strip.specs.Strips.{free_in};
ghost use Rattle.looper_tracks.specs.Track.{tracks_in};
ghost use Rattle.looper_tracks.specs.Tracks.{free_among, refused_on};

use crate::asker::{Asker, loop_asker, session_asker};
use crate::track::Track;
use crate::tracks::Tracks;
use loop_strip::Pool;
use sl_commands::{Control, Face};

/// The value of a control of the track of this index, where there is one.
fn value_at(tracks: &[Track], pool: &Pool, index: usize, control: Control) -> Option<i32>
    ensures { result ≡ option_map (value_on control (free_in pool.now))
        (slice_get (tracks_in pool.now tracks.now) index) }
{
    if index < tracks.len() {
        Some(tracks[index].value(pool, control))
    } else {
        None
    }
}

/// The answer at once to a save of what has this face.
fn refusal_of(face: Face) -> Option<u8>
    ensures { result ≡ loop_refusal face.pinned (face.length == 0) }
{
    if face.pinned {
        Some(2)
    } else if face.length == 0 {
        Some(3)
    } else {
        None
    }
}

/// The answer at once to a save of the track of this index, where there is one.
fn refusal_at(tracks: &[Track], index: usize) -> Option<u8>
    ensures { (p : PoolOf) → result ≡
        option_and_then save_refusal (slice_get (tracks_in p tracks.now) index) }
{
    if index < tracks.len() {
        refusal_of(tracks[index].face())
    } else {
        None
    }
}

/// Who asked for the save of the loop of this index, where one runs.
fn loop_asker_at(tracks: &[Track], index: usize) -> Option<Asker>
    ensures { (p : PoolOf) → result ≡
        option_and_then (λ t. loop_asker t.asker) (slice_get (tracks_in p tracks.now) index) }
{
    if index < tracks.len() {
        loop_asker(tracks[index].asker())
    } else {
        None
    }
}

/// Who asked for the session's save that runs, where one does.
fn running_session(tracks: &[Track]) -> Option<Asker>
    ensures { (p : PoolOf) → result ≡ running_session (tracks_in p tracks.now) }
{
    for k in 0..tracks.len() {
        let asker = session_asker(tracks[k].asker());
        if asker.is_some() {
            return asker;
        }
    }
    None
}

/// Whether a pin stands on one of them.
fn any_pinned(tracks: &[Track]) -> bool
    ensures { (p : PoolOf) → result ≡ any_pinned (tracks_in p tracks.now) }
{
    for k in 0..tracks.len() {
        if tracks[k].face().pinned {
            return true;
        }
    }
    false
}

/// How often something was refused, over all of them.
fn refused(tracks: &[Track]) -> u64
    requires few { length tracks.now ≤ 16 }
    ensures { (p : PoolOf) → result ≡ sum_by refused_on (tracks_in p tracks.now) }
{
    let mut sum = 0;
    for k in 0..tracks.len() {
        sum += tracks[k].face().refused as u64;
    }
    sum
}

impl Tracks {
    /// The value of a control of the loop of this index, where there is one.
    pub fn value(&self, index: usize, control: Control) -> Option<i32>
        ensures { result ≡
            option_map (value_on control (free_among self.now)) (slice_get self.now.tracks index) }
    {
        value_at(&self.tracks, &self.pool, index, control)
    }

    /// The answer at once to a save of the loop of this index, where there is one.
    pub fn save_refusal(&self, index: usize) -> Option<u8>
        ensures { result ≡ option_and_then save_refusal (slice_get self.now.tracks index) }
    {
        refusal_at(&self.tracks, index)
    }

    /// Who asked for the save of the loop of this index, where one runs.
    pub fn loop_asker(&self, index: usize) -> Option<Asker>
        ensures { result ≡ option_and_then (λ t. loop_asker t.asker)
            (slice_get self.now.tracks index) }
    {
        loop_asker_at(&self.tracks, index)
    }

    /// Who asked for the session's save that runs, where one does.
    pub fn running_session(&self) -> Option<Asker>
        ensures { result ≡ running_session self.now.tracks }
    {
        running_session(&self.tracks)
    }

    /// Whether a pin stands on one of them.
    pub fn any_pinned(&self) -> bool
        ensures { result ≡ any_pinned self.now.tracks }
    {
        any_pinned(&self.tracks)
    }

    /// How often something was refused, over all loops.
    pub fn refused(&self) -> u64
        requires few { length self.now.tracks ≤ 16 }
        ensures { result ≡ sum_by refused_on self.now.tracks }
    {
        refused(&self.tracks)
    }
}
