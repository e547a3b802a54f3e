//! What a save sends of all tracks: their settings, and the lists that are pinned.

ghost use Rattle.std.specs.Prelude.{◌≡◌, ◌≤◌, ◌<◌, ◌+◌, length, map, take, drop, slice_get};
ghost use Rattle.looper_rules.specs.Saves.{strip_on};
ghost use Rattle.loop_tape.specs.Pools.{PoolOf};
ghost use Rattle.looper_tracks.specs.Track.{tracks_in};
ghost use Rattle.looper_tracks.specs.Tracks.{held_on};

use crate::track::Track;
use crate::tracks::Tracks;
use sl_base::Frame;
use sl_commands::Strips;

/// The settings of all tracks.
fn strips_of(tracks: &[Track]) -> Strips
    requires few { length tracks.now ≤ 16 }
    ensures { (p : PoolOf) → result ≡ map strip_on (tracks_in p tracks.now) }
{
    let mut strips = Strips::new();
    for k in 0..tracks.len() {
        strips.push(tracks[k].settings());
    }
    strips
}

impl Tracks {
    /// The settings of all loops.
    pub fn settings(&self) -> Strips
        requires few { length self.now.tracks ≤ 16 }
        ensures { result ≡ map strip_on self.now.tracks }
    {
        strips_of(&self.tracks)
    }

    /// The length of the pinned list of the loop of this index.
    pub fn pinned_length(&self, index: usize) -> u32
        requires index { index < length self.now.tracks }
        ensures { result ≡ length (held_on (slice_get self.now.tracks index)) }
    {
        self.tracks[index].pinned_length()
    }

    /// The frames of the pinned list of the loop of this index, from a place on.
    pub fn saved_span(&self, index: usize, place: u32, out: &mut [Frame])
        requires index { index < length self.now.tracks }
        requires place { place + length out.old ≤ length (held_on
            (slice_get self.now.tracks index)) }
        ensures { out.new ≡
            take (length out.old) (drop place (held_on (slice_get self.now.tracks index))) }
    {
        self.tracks[index].saved_span(&self.pool, place, out);
    }

    /// Later reads of that list near this place search nothing.
    pub fn seek_saved(&mut self, index: usize, place: u32)
        ensures { self.new ≡ self.old }
    {
        if index < self.tracks.len() {
            self.tracks[index].seek_saved(place);
        }
    }
}
