//! One loop with its gain and the asker of its save.

ghost use Rattle.std.specs.Prelude.{◌≡◌, ℕ, ◌≤◌, ◌+◌, ◌<◌, length, take, drop, IsTrue, IfOk};
ghost use Rattle.std.specs.declared.option.Option.TheVariants.{None};
ghost use Rattle.sl_base.specs.Limits.{max_chunks, max_list_frames};
ghost use Rattle.sl_commands.specs.Controls.{is_in_range};
ghost use Rattle.sl_commands.specs.Settings.{is_strip};
ghost use Rattle.looper_rules.specs.Room.{chunks_of};
ghost use Rattle.looper_rules.specs.Stack.{pinned_list};
ghost use Rattle.looper_rules.specs.Loop.{face_of};
ghost use Rattle.looper_rules.specs.Looper.{on_loop};
ghost use Rattle.looper_rules.specs.Saves.{strip_of, pinned_for, freed, loop_released, session_released};
ghost use Rattle.looper_rules.specs.Run.{first_track};
ghost use Rattle.looper_rules.specs.Entries.{sets, value_on};
ghost use Rattle.looper_rules.specs.Frame.{at_boundary};
ghost use Rattle.looper_rules.specs.TrackSpans.{track_over, given_over};
ghost use Rattle.looper_rules.specs.GainSpans.{added};
ghost use Rattle.looper_laws.specs.Spans.{IsQuietBehindFor};
ghost use Rattle.loop_tape.specs.Pools.{PoolOf};
ghost use Rattle.loop_strip.specs.Strips.{seen, free_in, reach_in, Owns, gives};
ghost use Rattle.loop_strip.specs.Loading.{IsNew, loads};
ghost use Rattle.mixer_fades.specs.Sums.{AreSumsOf};
ghost use Rattle.looper_tracks.specs.Track.{track_in, DidTrack, DidTrackAlone};
ghost use Rattle.looper_tracks.specs.Beginnings.{new_track, MayLoad};

use crate::asker::{Asker, loop_asker, session_asker};
use loop_strip::{Given, Pool, Strip};
use mixer_fades::{Gain, Sum, add_span};
use quantise_sync::{SyncSetup, boundary};
use sl_base::{Frame, Memory};
use sl_commands::{Control, Face, Globals, StripSettings};
use std::alloc::Global;
use std::marker::Model;

/// A strip, its gain, and who asked for the save that pins it.
#[derive(Drop)]
pub(crate) struct Track {
    strip: Strip,
    gain: Gain,
    asker: Option<Asker>,
}

impl Model for Track {
    ghost use Rattle.looper_tracks.specs.Track.{TrackOf};

    ghost Value = { TrackOf };

    ghost view = { λ l. record { strip = l.strip; gain = l.gain; asker = l.asker } };
}

impl Track {
    /// A track of no list, with these controls and room for a tape of so many chunks.
    pub(crate) fn new(alloc: Global, settings: StripSettings, chunks: u32) -> Result<Track, Memory>
        requires settings { IsTrue (is_strip settings) }
        requires chunks { chunks ≤ max_chunks }
        ensures { IfOk result (λ l. l ≡ new_track chunks settings) }
    {
        Ok(Track {
            strip: Strip::new(alloc, settings, chunks)?,
            gain: Gain::new(settings.wet),
            asker: None,
        })
    }

    /// A new track begins with this list, of 1 to 16777216 frames, and this cycle in frames. There
    /// are chunks for all frames.
    pub(crate) fn load(&mut self, pool: &mut Pool, list: &[Frame], cycle: u32)
        requires owns { Owns self.old.strip pool.old }
        requires new { IsNew self.old.strip.loop }
        requires some { 1 ≤ length list.now }
        requires short { length list.now ≤ max_list_frames }
        requires cycle { 1 ≤ cycle }
        requires cycle_within { cycle ≤ length list.now }
        requires room { chunks_of (length list.now) ≤ free_in pool.old }
        ensures { DidTrack (on_loop (loads list.now cycle)) self.old self.new pool.old pool.new }
    {
        self.strip.load(pool, list, cycle);
    }

    /// A new track begins with its list, which may be empty.
    pub(crate) fn begin(
        &mut self,
        pool: &mut Pool,
        strip: StripSettings,
        list: &[Frame],
        chunks: u32,
    )
        requires { MayLoad strip list.now chunks self.old pool.old }
        ensures { DidTrack (λ reach t. first_track list.now strip)
            self.old self.new pool.old pool.new }
    {
        if !list.is_empty() {
            self.load(pool, list, strip.cycle);
        }
    }

    /// What is seen of its loop.
    pub(crate) fn face(&self) -> Face
        ensures { (p : PoolOf) → result ≡ face_of (seen self.now.strip p) }
    {
        self.strip.face()
    }

    /// The control of this name, 0 to 3.
    pub(crate) fn quantize(&self) -> u8
        ensures { (p : PoolOf) → result ≡ (seen self.now.strip p).controls.quantize }
    {
        self.strip.quantize()
    }

    /// The settings of its loop, as a save tells them.
    pub(crate) fn settings(&self) -> StripSettings
        ensures { (p : PoolOf) → result ≡ strip_of (seen self.now.strip p) }
    {
        self.strip.settings()
    }

    /// Who asked for the save that pins it.
    pub(crate) fn asker(&self) -> Option<Asker>
        ensures { result ≡ self.now.asker }
    {
        self.asker
    }

    /// A verb given to its loop.
    pub(crate) fn give(&mut self, pool: &mut Pool, given: Given)
        requires owns { Owns self.old.strip pool.old }
        ensures { DidTrack (on_loop (gives given))
            self.old self.new pool.old pool.new }
    {
        self.strip.give(pool, given);
    }

    /// The value of a control of its loop.
    pub(crate) fn value(&self, pool: &Pool, control: Control) -> i32
        ensures { result ≡ value_on control (free_in pool.now) (track_in pool.now self.now) }
    {
        self.strip.value(pool, control)
    }

    /// A control of its loop set.
    pub(crate) fn set(&mut self, control: Control, value: i32)
        requires range { IsTrue (is_in_range control value 0) }
        ensures { DidTrackAlone (on_loop (sets control value)) self.old self.new }
    {
        self.strip.set(control, value);
    }

    /// The waiting verb acts, where this frame is a boundary by these faces.
    pub(crate) fn boundary(
        &mut self,
        pool: &mut Pool,
        faces: &[Face],
        globals: &Globals,
        frame: u64,
    )
        requires owns { Owns self.old.strip pool.old }
        ensures { DidTrack (on_loop (at_boundary globals.now frame faces.now))
            self.old self.new pool.old pool.new }
    {
        let setup = SyncSetup {
            source: globals.sync_source,
            quantize: self.strip.quantize(),
            pulse: globals.pulse,
            frame,
        };
        if boundary(faces, &setup) {
            self.strip.boundary_act(pool);
        }
    }

    /// Some frames: what is heard of the loop is added to the sums, scaled by the gain, which moves
    /// by at most `step`.
    pub(crate) fn play(
        &mut self,
        pool: &mut Pool,
        input: &[Frame],
        heard: &mut [Frame],
        sums: &mut [Sum],
        step: u16,
    )
        requires owns { Owns self.old.strip pool.old }
        requires step { step ≤ 1000 }
        requires heard { length input.now ≡ length heard.old }
        requires lengths { length input.now ≡ length sums.old }
        requires within { AreSumsOf 16 sums.old }
        ensures track { DidTrack (track_over step input.now) self.old self.new pool.old pool.new }
        ensures sums { sums.new ≡ added sums.old
            (given_over step input.now (reach_in self.old.strip pool.old)
            (track_in pool.old self.old)) }
        ensures within { (givers : ℕ) → AreSumsOf givers sums.old
            → AreSumsOf (givers + 1) sums.new }
    {
        let wet = self.strip.wet();
        self.strip.play(pool, input, heard);
        add_span(sums, heard, &mut self.gain, wet, step);
    }

    /// For how many of these frames, from the first on, those behind the first are quiet.
    pub(crate) fn quiet_over(&self, input: &[Frame]) -> u32
        ensures some { 1 ≤ result }
        ensures quiet { (p : PoolOf) → IsQuietBehindFor (take result input.now)
            (track_in p self.now) }
    {
        self.strip.quiet_over(input)
    }

    /// Its list pinned for someone who asked for a save.
    pub(crate) fn pin(&mut self, asker: Asker)
        requires free { self.old.strip.loop.stack.pin ≡ None }
        ensures { DidTrackAlone (λ reach t. pinned_for asker t) self.old self.new }
    {
        self.strip.pin();
        self.asker = Some(asker);
    }

    /// The pin and its asker taken away.
    fn free(&mut self)
        ensures { DidTrackAlone (λ reach t. freed t) self.old self.new }
    {
        self.strip.release();
        self.asker = None;
    }

    /// The pin of a loop's save taken away, where it is one.
    pub(crate) fn release_loop(&mut self)
        ensures { DidTrackAlone (λ reach t. loop_released t) self.old self.new }
    {
        if loop_asker(self.asker).is_some() {
            self.free();
        }
    }

    /// The pin of a session's save taken away, where it is one.
    pub(crate) fn release_session(&mut self)
        ensures { DidTrackAlone (λ reach t. session_released t) self.old self.new }
    {
        if session_asker(self.asker).is_some() {
            self.free();
        }
    }

    /// How many frames the pinned list has.
    pub(crate) fn pinned_length(&self) -> u32
        ensures { (p : PoolOf) → result ≡ length (pinned_list (seen self.now.strip p).stack.pin) }
    {
        self.strip.pinned_length()
    }

    /// The frames of the pinned list from a place on.
    pub(crate) fn saved_span(&self, pool: &Pool, place: u32, out: &mut [Frame])
        requires owns { Owns self.now.strip pool.now }
        requires place { place + length out.old
            ≤ length (pinned_list (seen self.now.strip pool.now).stack.pin) }
        ensures { out.new ≡ take (length out.old)
            (drop place (pinned_list (seen self.now.strip pool.now).stack.pin)) }
    {
        self.strip.saved_span(pool, place, out);
    }

    /// Later reads of the pinned list near this place search nothing.
    pub(crate) fn seek_saved(&mut self, place: u32)
        ensures { self.new ≡ self.old }
    {
        self.strip.seek_saved(place);
    }
}
