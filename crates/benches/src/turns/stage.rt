//! An engine between its rings, with the ends that turns of audio want.

ghost use Rattle.std.specs.Prelude.{◌≡◌, ◌≤◌};
ghost use Rattle.sl_base.specs.Limits.{max_period};
ghost use Rattle.looper_rules.specs.Reached.{IsBeginning};
ghost use Rattle.engine_steps.specs.Engines.{Beginning, first_engine};
ghost use Rattle.live_rings.specs.Rings.{AreNew};

use crate::clock::{least, now, since};
use crate::engine::session::{FRAMES, STRETCH, begun};
use crate::turns::ends::{Away, BYTES, Round};
use audio_ends::{AudioEnds, RingEnds};
use event_rings::Putter;
use live_audio::audio_turn;
use live_rings::{Ring, Rings, live_rings};
use looper_engine::Engine;
use sl_commands::{Command, Target, Verb};
use std::alloc::Global;
use std::marker::Model;
use std::sync::Wait;

/// How many commands there may be.
const QUOTA: u32 = 65536;

/// What turns go over, and the end on which commands are put.
#[derive(Drop)]
pub struct Stage {
    engine: Engine,
    ends: AudioEnds,
    source: Round,
    sink: Away,
    osc: Putter<Command>,
    /// How many commands were put.
    put: u32,
}

impl Model for Stage {
    ghost use Rattle.std.specs.Prelude.{◌≡◌, ℕ, length};
    ghost use Rattle.audio_ends.specs.Ends.{MayTurn};
    ghost use Rattle.audio_ends.specs.Did.{IsReady};

    ghost Value = { ℕ };

    ghost view = { λ s. s.put };

    ghost invariant = { λ s. MayTurn s.engine s.ends.rings × IsReady s.ends
        × (length s.osc.sent ≡ s.put) × (s.osc.limit ≡ 65536) };
}

/// An engine between these rings, of two channels and periods of at most so many frames.
fn staged(engine: Engine, rings: Rings, most: usize) -> Stage
    requires begins { (b : Beginning) × IsBeginning b.settings b.chunks b.initial
        × (b.quota ≡ 65536) × (engine ≡ first_engine b) }
    requires new { AreNew 65536 rings }
    requires some { 1 ≤ most }
    requires within { most ≤ max_period }
{
    let Rings {
        osc,
        midi,
        saver,
        replies,
        blocks,
    } = rings;
    let Ring {
        putter: osc,
        taker: from_osc,
    } = osc;
    let rings = RingEnds {
        osc: from_osc,
        midi: midi.taker,
        saver: saver.taker,
        replies: replies.putter,
        blocks: blocks.putter,
        held: None,
        quit: false,
    };
    Stage {
        engine,
        ends: AudioEnds::new(rings, 2, most),
        source: Round {
            bytes: [1; BYTES],
            next: 0,
        },
        sink: Away { sum: 0 },
        osc,
        put: 0,
    }
}

impl Stage {
    /// So many empty loops, stereo, periods of so many frames.
    fn begun<W: Wait>(alloc: Global, wait: &W, loops: u8, period: usize) -> Option<Stage>
        requires some { 1 ≤ loops }
        requires few { loops ≤ 16 }
        requires least { 1 ≤ period }
        requires most { period ≤ 8192 }
    {
        let engine = begun(alloc, loops)?;
        match live_rings(alloc, wait, QUOTA) {
            Ok(rings) => Some(staged(engine, rings, period)),
            Err(_) => None,
        }
    }

    /// All loops play a list of `FRAMES` frames or less than a period more.
    pub fn recorded<W: Wait>(alloc: Global, wait: &W, loops: u8, period: usize) -> Option<Stage>
        requires some { 1 ≤ loops }
        requires few { loops ≤ 16 }
        requires least { 1 ≤ period }
        requires most { period ≤ 8192 }
    {
        let mut stage = Stage::begun(alloc, wait, loops, period)?;
        stage.hit(wait, Target::All, Verb::Rec);
        stage.play(wait, FRAMES.div_ceil(period as u32));
        stage.hit(wait, Target::All, Verb::Rec);
        Some(stage)
    }

    /// A verb is hit, where there is room.
    pub fn hit<W: Wait>(&mut self, wait: &W, target: Target, verb: Verb) {
        if self.put < QUOTA && self.osc.put(wait, Command::Hit(target, verb)).is_ok() {
            self.put += 1;
        }
    }

    fn turn<W: Wait>(&mut self, wait: &W) {
        audio_turn(
            wait,
            &mut self.engine,
            &mut self.ends,
            &mut self.source,
            &mut self.sink,
        );
    }

    /// So many turns.
    pub fn play<W: Wait>(&mut self, wait: &W, turns: u32) {
        for _ in 0..turns {
            self.turn(wait);
        }
    }

    /// The least of a time so far and of each stretch of turns, in thousandths of a nanosecond for
    /// a frame.
    pub fn timed<W: Wait>(&mut self, rt: &HostRuntime, wait: &W, best: u64) -> u64 {
        let turns = STRETCH / (self.ends.most as u32).max(1);
        let mut least_time = best;
        for _ in 0..FRAMES / STRETCH {
            let start = now(rt);
            self.play(wait, turns);
            least_time = least(least_time, since(rt, start), STRETCH as u64);
        }
        least_time
    }

    /// The nanoseconds of one turn.
    pub fn timed_turn<W: Wait>(&mut self, rt: &HostRuntime, wait: &W) -> u64 {
        let start = now(rt);
        self.turn(wait);
        since(rt, start).unwrap_or(0)
    }

    /// How often a loop was refused room or layers, and what was put out; the figures say something
    /// only where the first is 0.
    pub fn refused(&self) -> u64 {
        self.engine.refused()
    }

    /// One byte of each write, added up.
    pub fn sum(&self) -> u64 {
        self.sink.sum
    }
}
