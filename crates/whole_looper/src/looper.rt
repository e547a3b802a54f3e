//! A whole looper, as it is called.

ghost use Rattle.std.specs.Prelude.{◌≡◌, ◌≤◌, ◌<◌, ◌+◌, [], length, take};
ghost use Rattle.sl_base.specs.Limits.{max_session_frames};
ghost use Rattle.looper_rules.specs.Frame.{at_boundaries};
ghost use Rattle.looper_rules.specs.TrackSpans.{spanned_from};
ghost use Rattle.looper_rules.specs.Run.{begun};
ghost use Rattle.whole_looper.specs.Spans.{IsSpan, HasBegun};

use crate::mix::play_span;
use looper_tracks::Tracks;
use mixer_fades::{Gain, Sum};
use sl_base::Frame;
use sl_commands::{Face, Globals};
use std::marker::Model;

/// The frames of a span at most.
pub(crate) const SPAN: usize = 1024;

/// What is heard of a loop over a span, and the sums of all.
#[derive(Drop)]
pub(crate) struct Buffers {
    heard: [Frame; SPAN],
    sums: [Sum; SPAN],
}

impl Buffers {
    /// Nothing heard and nothing added yet.
    pub(crate) fn new() -> Buffers {
        Buffers {
            heard: [Frame::silence(); SPAN],
            sums: [Sum::none(); SPAN],
        }
    }
}

/// All loops of a looper over one pool of chunks, its own controls and its dry gain.
#[derive(Drop)]
pub struct Looper {
    pub(crate) tracks: Tracks,
    pub(crate) globals: Globals,
    pub(crate) dry: Gain,
    pub(crate) rate: u32,
    pub(crate) saves: u32,
    pub(crate) faces: Vec<Face>,
    pub(crate) buffers: Buffers,
}

impl Model for Looper {
    ghost use Rattle.std.specs.Vec.{vec_capacity};
    ghost use Rattle.looper_rules.specs.Looper.{Looper as LooperOf};
    ghost use Rattle.whole_looper.specs.Loopers.{looper_of, IsWithinBounds};

    ghost Value = { LooperOf };

    ghost view = { λ l. looper_of l.rate l.globals l.dry l.saves l.tracks };

    ghost invariant = { λ l. IsWithinBounds l.globals l.tracks (vec_capacity l.faces) };
}

impl Looper {
    /// The waiting verbs act that have a boundary at this frame.
    fn meet_boundaries(&mut self, frame: u64)
        ensures { self.new ≡ at_boundaries frame self.old }
    {
        self.tracks.faces(&mut self.faces);
        self.tracks.boundaries(&self.faces, &self.globals, frame);
    }

    /// Some frames, one loop after another.
    fn play(&mut self, input: &[Frame], output: &mut [Frame])
        requires few { length input.now ≤ 1024 }
        requires lengths { length input.now ≡ length output.old }
        ensures { spanned_from input.now self.old
            ≡ record { output = output.new; looper = self.new } }
    {
        let n = input.len();
        play_span(
            &mut self.tracks,
            &self.globals,
            &mut self.dry,
            input,
            &mut self.buffers.heard[..n],
            &mut self.buffers.sums[..n],
            output,
        );
    }

    /// How many of these frames may be played one loop after another, the boundaries of the first
    /// being met.
    fn span_length(&mut self, frame: u64, input: &[Frame]) -> usize
        requires some { 1 ≤ length input.now }
        requires few { length input.now ≤ 1024 }
        ensures same { self.new ≡ self.old }
        ensures some { 1 ≤ result }
        ensures within { result ≤ length input.now }
        ensures span { IsSpan frame (take result input.now) self.old }
    {
        if !self.tracks.any_waits() {
            return self.tracks.quiet_frames(input);
        }
        self.tracks.faces(&mut self.faces);
        let calm = self
            .tracks
            .calm_frames(&self.faces, &self.globals, frame, input.len() as u32);
        self.tracks.quiet_frames(&input[..calm as usize])
    }

    /// Lets the waiting verbs act at this frame, and tells how many of these frames may then be
    /// played one loop after another.
    fn begin_span(&mut self, frame: u64, input: &[Frame]) -> usize
        requires some { 1 ≤ length input.now }
        requires few { length input.now ≤ 1024 }
        ensures met { self.new ≡ at_boundaries frame self.old }
        ensures some { 1 ≤ result }
        ensures within { result ≤ length input.now }
        ensures span { IsSpan frame (take result input.now) self.new }
    {
        if self.tracks.any_waits() {
            self.meet_boundaries(frame);
            return self.span_length(frame, input);
        }
        self.tracks.quiet_frames(input)
    }

    /// As many of these frames as may be played as one span. It gives how many.
    fn turn(&mut self, frame: u64, input: &[Frame], output: &mut [Frame]) -> usize
        requires some { 1 ≤ length input.now }
        requires lengths { length input.now ≡ length output.old }
        ensures some { 1 ≤ result }
        ensures within { result ≤ length input.now }
        ensures begun { HasBegun frame (take result input.now) (take result output.new)
            self.old self.new }
    {
        let most = input.len().min(SPAN);
        let n = self.begin_span(frame, &input[..most]);
        self.play(&input[..n], &mut output[..n]);
        n
    }

    /// Plays these frames, of which the first has this number, with no entry among them. `output`
    /// takes as many.
    pub fn frames(&mut self, frame: u64, input: &[Frame], output: &mut [Frame])
        requires lengths { length input.now ≡ length output.old }
        requires frame { frame + length input.now ≤ max_session_frames }
        ensures looper { self.new ≡ (begun frame [] input.now self.old).looper }
        ensures output { output.new ≡ (begun frame [] input.now self.old).output }
    {
        let mut done = 0;
        while done < input.len() {
            done += self.turn(frame + done as u64, &input[done..], &mut output[done..]);
        }
    }
}
