//! One loop over a pool, as it is called.

ghost use Rattle.std.specs.Prelude.{◌≡◌, ℕ, ◌≤◌, ◌<◌, ◌+◌, List, [], pos, length, take, drop, get_or, IsTrue, IfOk};
ghost use Rattle.sl_commands.specs.declared.StripSettings.{StripSettings};
ghost use Rattle.std.specs.declared.option.Option.TheVariants.{None};
ghost use Rattle.sl_base.specs.Limits.{max_chunks, max_list_frames};
ghost use Rattle.sl_base.specs.Sounds.{Sound, silence};
ghost use Rattle.sl_commands.specs.Settings.{is_strip};
ghost use Rattle.sl_commands.specs.Controls.{is_in_range};
ghost use Rattle.sl_commands.specs.declared.Mode.TheVariants.{Off, Playing};
ghost use Rattle.looper_rules.specs.Loop.{face_of, with_stack};
ghost use Rattle.looper_rules.specs.Stack.{pinned_list};
ghost use Rattle.looper_rules.specs.Values.{loop_value, reply_value};
ghost use Rattle.looper_rules.specs.Entries.{sets};
ghost use Rattle.looper_rules.specs.Presses.{waiting_acts};
ghost use Rattle.looper_rules.specs.Saves.{pinned, unpinned, strip_of as settings_of};
ghost use Rattle.looper_rules.specs.Room.{chunks_of};
ghost use Rattle.looper_rules.specs.Run.{first_loop};
ghost use Rattle.looper_rules.specs.LoopFrame.{frame_later};
ghost use Rattle.looper_rules.specs.LoopSpans.{loop_over, loop_heard_over, AreQuiet, AreQuietBehind};
ghost use Rattle.loop_tape.specs.Pools.{PoolOf};
ghost use Rattle.loop_strip.specs.Strips.{StripOf, seen, free_in, reach_in, Owns, Did, DidAlone, gives};
ghost use Rattle.loop_strip.specs.Loading.{IsNew, loads};

use crate::deck::{Controls, Deck};
use crate::given::Given;
use crate::parts::Parts;
use layer_memory::Layers;
use loop_tape::Pool;
use sl_base::{Frame, Memory};
use sl_commands::{Control, Face, StripSettings};
use std::alloc::Global;
use std::marker::Model;

/// One loop: its mode and place, its controls, and its layers on a tape of the pool.
#[derive(Drop)]
pub struct Strip {
    parts: Parts,
}

impl Model for Strip {
    ghost use Rattle.loop_strip.specs.Strips.{StripOf};
    ghost use Rattle.loop_strip.specs.Parts.{strip_of, IsWhole};

    ghost Value = { StripOf };

    ghost view = { λ s. strip_of s.parts };

    ghost invariant = { λ s. IsWhole s.parts };
}

impl Strip {
    /// A loop that is Off, with these controls and room for a tape of so many chunks. Only this
    /// call takes memory.
    pub fn new(alloc: Global, settings: StripSettings, chunks: u32) -> Result<Strip, Memory>
        requires settings { IsTrue (is_strip settings) }
        requires chunks { chunks ≤ max_chunks }
        ensures value { IfOk result
            (λ s. s ≡ record {
              loop = first_loop [] settings;
              tape =
                  record { chunks = []; len = 0; room = chunks };
            }) }
        ensures owns { IfOk result (λ s. (p : PoolOf) → p.all ≤ chunks → Owns s p) }
        ensures seen { IfOk result (λ s. (p : PoolOf) → seen s p ≡ first_loop [] settings) }
    {
        match Parts::new(alloc, &settings, chunks) {
            Err(_) => Err(Memory),
            Ok(parts) => Ok(Strip { parts }),
        }
    }

    /// A new loop begins with this list, of 1 to 16777216 frames, and this cycle in frames, at most
    /// the list's length. There are chunks for all frames.
    #[tactic(auto, using(crate::proofs::LoadLemmas::beginning))]
    pub fn load(&mut self, pool: &mut Pool, frames: &[Frame], cycle: u32)
        requires owns { Owns self.old pool.old }
        requires new { IsNew self.old.loop }
        requires some { 1 ≤ length frames.now }
        requires short { length frames.now ≤ max_list_frames }
        requires cycle { 1 ≤ cycle }
        requires cycle_within { cycle ≤ length frames.now }
        requires room { chunks_of (length frames.now) ≤ free_in pool.old }
        ensures did { Did (loads frames.now cycle) self.old self.new pool.old pool.new }
        ensures first { (settings : StripSettings) →
            seen self.old pool.old ≡ first_loop [] settings →
            seen self.new pool.new ≡ first_loop frames.now (record settings { cycle = cycle }) }
    {
        self.parts.load(pool, frames, cycle);
    }

    /// A verb given.
    pub fn give(&mut self, pool: &mut Pool, given: Given)
        requires owns { Owns self.old pool.old }
        ensures { Did (gives given) self.old self.new pool.old pool.new }
    {
        self.parts.give(pool, given);
    }

    /// The waiting verb acts, where there is one.
    pub fn boundary_act(&mut self, pool: &mut Pool)
        requires owns { Owns self.old pool.old }
        ensures { Did waiting_acts self.old self.new pool.old pool.new }
    {
        self.parts.boundary_act(pool);
    }

    /// Plays these frames one after another: `input` is taken in, and what is heard of the loop is
    /// written to `heard`.
    pub fn play(&mut self, pool: &mut Pool, input: &[Frame], heard: &mut [Frame])
        requires owns { Owns self.old pool.old }
        requires same_length { length input.now ≡ length heard.old }
        ensures did { Did (loop_over input.now) self.old self.new pool.old pool.new }
        ensures heard { heard.new ≡ loop_heard_over input.now (reach_in self.old pool.old)
            (seen self.old pool.old) }
    {
        self.parts.play(pool, input, heard);
    }

    /// What is seen of the loop.
    pub fn face(&self) -> Face
        ensures value { (p : PoolOf) → result ≡ face_of (seen self.now p) }
        ensures addresses { result ≡ face_of self.now.loop }
    {
        self.parts.face()
    }

    /// The control of this name, 0 to 3.
    pub fn quantize(&self) -> u8
        ensures { (p : PoolOf) → result ≡ (seen self.now p).controls.quantize }
    {
        self.parts.controls.quantize
    }

    /// The control of this name, in thousandths.
    pub fn wet(&self) -> u16
        ensures value { (p : PoolOf) → result ≡ (seen self.now p).controls.wet }
        ensures within { result ≤ 1000 }
    {
        self.parts.controls.wet
    }

    /// The value of a control, as a reply tells it.
    pub fn value(&self, pool: &Pool, control: Control) -> i32
        ensures { result ≡ reply_value
            (pos (loop_value control (free_in pool.now) (seen self.now pool.now).controls
            (face_of (seen self.now pool.now)))) }
    {
        self.parts.value(control, pool.free_chunks())
    }

    /// Sets a control.
    pub fn set(&mut self, control: Control, value: i32)
        requires range { IsTrue (is_in_range control value 0) }
        ensures { DidAlone (sets control value) self.old self.new }
    {
        self.parts.set(control, value);
    }

    /// The settings that a save of the loop tells: the length and cycle of its list in frames, and
    /// its controls.
    pub fn settings(&self) -> StripSettings
        ensures { (p : PoolOf) → result ≡ settings_of (seen self.now p) }
    {
        self.parts.settings()
    }

    /// Pins the list for a save.
    pub fn pin(&mut self)
        requires free { self.old.loop.stack.pin ≡ None }
        ensures { DidAlone (λ reach l. with_stack (pinned l.stack) l) self.old self.new }
    {
        self.parts.pin();
    }

    /// Takes the pin away.
    pub fn release(&mut self)
        ensures { DidAlone (λ reach l. with_stack (unpinned l.stack) l) self.old self.new }
    {
        self.parts.release_pin();
    }

    /// The length of the list that a save holds, in frames, 0 where none does.
    pub fn pinned_length(&self) -> u32
        ensures { (p : PoolOf) → result ≡ length (pinned_list (seen self.now p).stack.pin) }
    {
        self.parts.layers.pinned_length()
    }

    /// The frame at a place of the pinned list.
    #[tactic(auto, using(crate::proofs::StripLemmas::pinned_reads))]
    pub fn saved(&self, pool: &Pool, place: u32) -> Frame
        requires owns { Owns self.now pool.now }
        requires place { place < length (pinned_list (seen self.now pool.now).stack.pin) }
        ensures { result ≡ get_or (pinned_list (seen self.now pool.now).stack.pin) place silence }
    {
        self.parts.layers.saved(pool, place)
    }

    /// The frames of the pinned list from a place on.
    #[tactic(auto, using(crate::proofs::StripLemmas::pinned_reads))]
    pub fn saved_span(&self, pool: &Pool, place: u32, out: &mut [Frame])
        requires owns { Owns self.now pool.now }
        requires place { place + length out.old ≤ length
            (pinned_list (seen self.now pool.now).stack.pin) }
        ensures { out.new ≡ take (length out.old)
            (drop place (pinned_list (seen self.now pool.now).stack.pin)) }
    {
        self.parts.layers.saved_span(pool, place, out);
    }

    /// Later reads of the pinned list near this place search nothing.
    pub fn seek_saved(&mut self, place: u32)
        ensures { self.new ≡ self.old }
    {
        self.parts.layers.seek_saved(place);
    }

    /// A number of frames of which only the first can take a chunk, open or close a layer, be
    /// refused or change the mode.
    pub fn quiet(&self) -> u32
        ensures some { 1 ≤ result }
        ensures playing { self.now.loop.deck.mode ≡ Playing → 8192 ≤ result }
        ensures quiet { (p : PoolOf) (x : Sound) (xs : List Sound) (reach : ℕ) →
            length xs < result → AreQuiet xs (frame_later x reach (seen self.now p)) }
    {
        self.parts.quiet()
    }

    /// The same for the frames that are handed in: a loop in WaitStart is quiet up to its first
    /// loud frame.
    pub fn quiet_over(&self, input: &[Frame]) -> u32
        ensures some { 1 ≤ result }
        ensures quiet { (p : PoolOf) (reach : ℕ) →
            AreQuietBehind (take result input.now) reach (seen self.now p) }
    {
        self.parts.quiet_over(input)
    }
}
