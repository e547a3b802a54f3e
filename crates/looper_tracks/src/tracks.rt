//! All tracks of a looper, and the pool under them.

ghost use Rattle.std.specs.Prelude.{◌≡◌, ◌≤◌, ◌<◌, ◌-◌, false, length, map, take, IsTrue, IsFalse};
ghost use Rattle.std.specs.List.{AllByRecursion};
ghost use Rattle.std.specs.Vec.{vec_capacity};
ghost use Rattle.sl_commands.specs.Controls.{is_in_range};
ghost use Rattle.looper_rules.specs.Looper.{on_loop, swept, itself, at_index, at_target, face_on};
ghost use Rattle.looper_rules.specs.Saves.{pinned_for, any_pinned, loop_released, session_released};
ghost use Rattle.looper_rules.specs.Entries.{sets};
ghost use Rattle.looper_rules.specs.Frame.{at_boundary};
ghost use Rattle.looper_rules.specs.TrackSpans.{track_over, all_over, given_of};
ghost use Rattle.looper_rules.specs.GainSpans.{added_all};
ghost use Rattle.looper_laws.specs.Spans.{IsQuietBehindFor, NoVerbWaits, KeepsTime, IsClearFor};
ghost use Rattle.loop_strip.specs.Strips.{gives};
ghost use Rattle.mixer_fades.specs.Sums.{AreSumsOf};
ghost use Rattle.looper_tracks.specs.Tracks.{free_among, IsFreeAt, DidTracks};

use crate::asker::Asker;
use crate::calm::calm_frames;
use crate::faces::take_faces;
use crate::span::{any_waits, play_all, quiet_frames};
use crate::sweep::{give_to, meet_boundaries, pin_all, pin_one, release_all, release_one, set_to};
use crate::track::Track;
use loop_strip::{Given, Pool};
use mixer_fades::Sum;
use sl_base::Frame;
use sl_commands::{Control, Face, Globals, Target};
use std::marker::Model;

/// The tracks by index, over one pool.
#[derive(Drop)]
pub struct Tracks {
    pub(crate) pool: Pool,
    pub(crate) tracks: Vec<Track>,
}

impl Model for Tracks {
    ghost use Rattle.looper_tracks.specs.Track.{AreIn};
    ghost use Rattle.looper_tracks.specs.Tracks.{TracksOf, tracks_of};

    ghost Value = { TracksOf };

    ghost view = { λ t. tracks_of t.pool t.tracks.items };

    ghost invariant = { λ t. AreIn t.pool t.tracks.items };
}

impl Tracks {
    /// How many there are.
    pub fn len(&self) -> usize
        ensures { result ≡ length self.now.tracks }
    {
        self.tracks.len()
    }

    /// A verb given to the loops of a target.
    pub fn give(&mut self, target: Target, selected: u8, given: Given)
        ensures { DidTracks
            (at_target target selected (on_loop (gives given)))
            self.old self.new }
    {
        give_to(&mut self.tracks, &mut self.pool, target, selected, given);
    }

    /// A control set of the loops of a target.
    pub fn set(&mut self, target: Target, selected: u8, control: Control, value: i32)
        requires range { IsTrue (is_in_range control value 0) }
        ensures { DidTracks (at_target target selected (on_loop (sets control value)))
            self.old self.new }
    {
        set_to(
            &mut self.tracks,
            &self.pool,
            target,
            selected,
            control,
            value,
        );
    }

    /// The waiting verbs act, where this frame is a boundary by these faces.
    pub fn boundaries(&mut self, faces: &[Face], globals: &Globals, frame: u64)
        ensures { DidTracks (swept itself (on_loop (at_boundary globals.now frame faces.now)))
            self.old self.new }
    {
        meet_boundaries(&mut self.tracks, &mut self.pool, faces, globals, frame);
    }

    /// All faces, in the room of a list.
    pub fn faces(&self, faces: &mut Vec<Face>)
        requires room { length self.now.tracks ≤ vec_capacity faces.old }
        ensures faces { faces.new.items ≡ map face_on self.now.tracks }
        ensures room { vec_capacity faces.new ≡ vec_capacity faces.old }
    {
        take_faces(&self.tracks, faces);
    }

    /// Some frames, one track after another. What is heard of each is added to the sums, which
    /// begin with nothing.
    pub fn play(&mut self, input: &[Frame], heard: &mut [Frame], sums: &mut [Sum], step: u16)
        requires few { length self.old.tracks ≤ 16 }
        requires step { step ≤ 1000 }
        requires heard { length input.now ≡ length heard.old }
        requires lengths { length input.now ≡ length sums.old }
        requires nothing { AreSumsOf 0 sums.old }
        ensures tracks { DidTracks (swept itself (track_over step input.now)) self.old self.new }
        ensures sums { sums.new ≡ added_all sums.old
            (map given_of (all_over step input.now (free_among self.old) self.old.tracks)) }
        ensures within { AreSumsOf 16 sums.new }
    {
        play_all(&mut self.tracks, &mut self.pool, input, heard, sums, step);
    }

    /// For how many of these frames, from the first on, those behind the first are quiet for every
    /// loop.
    pub fn quiet_frames(&self, input: &[Frame]) -> usize
        requires some { 1 ≤ length input.now }
        ensures some { 1 ≤ result }
        ensures within { result ≤ length input.now }
        ensures quiet { AllByRecursion (IsQuietBehindFor (take result input.now)) self.now.tracks }
    {
        quiet_frames(&self.tracks, input)
    }

    /// Whether a verb waits on one of them.
    pub fn any_waits(&self) -> bool
        ensures { IsFalse result → AllByRecursion NoVerbWaits self.now.tracks }
    {
        any_waits(&self.tracks)
    }

    /// The list of the loop of this index pinned for someone who asked for a save.
    pub fn pin(&mut self, index: usize, asker: Asker)
        requires free { IsFreeAt index self.old.tracks }
        ensures { DidTracks (at_index index (λ reach t. pinned_for asker t)) self.old self.new }
    {
        pin_one(&mut self.tracks, &self.pool, index, asker);
    }

    /// All lists pinned for someone who asked for a save.
    pub fn pin_all(&mut self, asker: Asker)
        requires free { any_pinned self.old.tracks ≡ false }
        ensures { DidTracks (swept itself (λ reach t. pinned_for asker t)) self.old self.new }
    {
        pin_all(&mut self.tracks, &self.pool, asker);
    }

    /// The pin of a loop's save taken away from the loop of this index, where it is one.
    pub fn release(&mut self, index: usize)
        ensures { DidTracks (at_index index (λ reach t. loop_released t)) self.old self.new }
    {
        release_one(&mut self.tracks, &self.pool, index);
    }

    /// The pins of a session's save taken away.
    pub fn release_all(&mut self)
        ensures { DidTracks (swept itself (λ reach t. session_released t)) self.old self.new }
    {
        release_all(&mut self.tracks, &self.pool);
    }

    /// How many of so many frames pass before a verb that waits on one of them may act, these being
    /// their faces.
    pub fn calm_frames(&self, faces: &[Face], globals: &Globals, frame: u64, most: u32) -> u32
        requires some { 1 ≤ most }
        ensures some { 1 ≤ result }
        ensures within { result ≤ most }
        ensures time { 1 < result → KeepsTime globals.now.sync_source faces.now }
        ensures calm { 1 < result →
            AllByRecursion (IsClearFor globals.now frame faces.now (result - 1)) self.now.tracks }
    {
        calm_frames(&self.tracks, faces, globals, frame, most)
    }
}
