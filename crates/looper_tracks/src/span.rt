//! A span of frames, played one track after another.

ghost use Rattle.std.specs.Prelude.{◌≡◌, ◌≤◌, length, map, take, IsFalse};
ghost use Rattle.std.specs.List.{AllByRecursion};
ghost use Rattle.looper_rules.specs.Looper.{swept, itself};
ghost use Rattle.looper_rules.specs.TrackSpans.{track_over, all_over, given_of};
ghost use Rattle.looper_rules.specs.GainSpans.{added_all};
ghost use Rattle.looper_laws.specs.Spans.{IsQuietBehindFor, NoVerbWaits};
ghost use Rattle.loop_tape.specs.Pools.{PoolOf};
ghost use Rattle.loop_strip.specs.Strips.{free_in};
ghost use Rattle.mixer_fades.specs.Sums.{AreSumsOf};
ghost use Rattle.looper_tracks.specs.Track.{AreIn, DidAll, tracks_in};

use crate::track::Track;
use loop_strip::Pool;
use mixer_fades::Sum;
use sl_base::Frame;

/// Some frames of all tracks. What is heard of each is added to the sums, which begin with nothing.
pub(crate) fn play_all(
    tracks: &mut [Track],
    pool: &mut Pool,
    input: &[Frame],
    heard: &mut [Frame],
    sums: &mut [Sum],
    step: u16,
)
    requires inside { AreIn pool.old tracks.old }
    requires few { length tracks.old ≤ 16 }
    requires step { step ≤ 1000 }
    requires heard { length input.now ≡ length heard.old }
    requires lengths { length input.now ≡ length sums.old }
    requires nothing { AreSumsOf 0 sums.old }
    ensures tracks { DidAll (swept itself (track_over step input.now))
        tracks.old tracks.new pool.old pool.new }
    ensures sums { sums.new ≡ added_all sums.old
        (map given_of
        (all_over step input.now (free_in pool.old) (tracks_in pool.old tracks.old))) }
    ensures within { AreSumsOf 16 sums.new }
{
    for k in 0..tracks.len() {
        tracks[k].play(pool, input, heard, sums, step);
    }
}

/// For how many of these frames, from the first on, those behind the first are quiet for every
/// track.
pub(crate) fn quiet_frames(tracks: &[Track], input: &[Frame]) -> usize
    requires some { 1 ≤ length input.now }
    ensures some { 1 ≤ result }
    ensures within { result ≤ length input.now }
    ensures quiet { (p : PoolOf) →
        AllByRecursion (IsQuietBehindFor (take result input.now)) (tracks_in p tracks.now) }
{
    let mut frames = input.len();
    for k in 0..tracks.len() {
        frames = frames.min(tracks[k].quiet_over(&input[..frames]) as usize);
    }
    frames
}

/// Whether a verb waits on one of them.
pub(crate) fn any_waits(tracks: &[Track]) -> bool
    ensures { IsFalse result → (p : PoolOf) → AllByRecursion NoVerbWaits (tracks_in p tracks.now) }
{
    for k in 0..tracks.len() {
        if tracks[k].face().waiting.is_some() {
            return true;
        }
    }
    false
}
