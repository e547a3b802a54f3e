//! A save underway.

ghost use Rattle.std.specs.Prelude.{◌≡◌, ◌≤◌, ◌+◌, true, [], ◌++◌, Some, length, IsTrue, IsFalse};
ghost use Rattle.sl_base.specs.Limits.{max_list_frames, max_rate};
ghost use Rattle.sl_commands.specs.Blocks.{first_index, fits_target, may_be_part};
ghost use Rattle.loop_saver.specs.SavedFiles.{list_name, list_file, text_file};
ghost use Rattle.loop_saver.specs.Savers.{begins, held_file, held_by, due_at_part, due_at_end, with_frames};
ghost use Rattle.loop_saver.specs.Accepting.{Writes, GoesOn, MayWant, TakesPart};

use crate::ending::Ending;
use crate::writing::{write_list, write_text};
use session_file::part_name;
use sl_base::{Frame, Name};
use sl_commands::{PartFrames, Settings, Target};
use sl_ports::Keeper;
use std::alloc::Global;
use std::marker::Model;

/// A save whose head came. It holds the frames of the latest list, as long as all that was due is
/// written.
#[derive(Drop)]
pub struct Saving {
    name: Name,
    target: Target,
    settings: Settings,
    index: u8,
    frames: u32,
    held: Vec<Frame>,
    ending: Ending,
}

impl Model for Saving {
    ghost use Rattle.std.specs.Prelude.{length};
    ghost use Rattle.loop_saver.specs.Savers.{SavingOf, IsSaving};

    ghost Value = { SavingOf };

    ghost view = { λ s.
        record {
          name = s.name;
          settings = s.settings;
          underway =
              record {
                target = s.target;
                loops = length s.settings.strips;
                index = s.index;
                frames =
                    s.frames;
              };
          held = s.held.items;
          ending = s.ending;
        } };

    ghost invariant = { λ s.
        IsSaving (record {
          name = s.name;
          settings = s.settings;
          underway =
              record {
                target = s.target;
                loops = length s.settings.strips;
                index = s.index;
                frames =
                    s.frames;
              };
          held = s.held.items;
          ending = s.ending;
        }) };
}

/// Puts frames at the end, or leaves what is held as it was where memory is wanted. The first
/// frames reserve memory for the `whole` list.
fn take_in(held: &mut Vec<Frame>, frames: &[Frame], whole: usize) -> bool
    ensures ok { IsTrue result → held.new.items ≡ held.old.items ++ frames.now }
    ensures unchanged { IsFalse result → held.new.items ≡ held.old.items }
{
    if held.is_empty() && held.reserve_exact(whole).is_err() {
        return false;
    }
    held.extend_from_slice(frames).is_ok()
}

impl Saving {
    /// A save of which no list came yet.
    pub fn begin(alloc: Global, name: &Name, target: Target, settings: &Settings) -> Saving
        requires { fits_target target name.now ≡ true }
        ensures { result ≡ begins name.now target settings.now }
    {
        Saving {
            name: name.duplicate(),
            target,
            settings: settings.duplicate(),
            index: target.first_index(),
            frames: 0,
            held: Vec::new(alloc),
            ending: Ending::Written,
        }
    }

    /// The name of the file of the list that is held.
    fn list_name(&self) -> Name
        ensures { result ≡ list_name self.now.underway.target self.now.name
            self.now.underway.index }
    {
        match self.target {
            Target::All => part_name(&self.name, self.index),
            _ => self.name.duplicate(),
        }
    }

    /// Writes the file of the list that is held.
    fn write_held<P: Keeper>(&self, alloc: Global, keeper: &mut P, rate: u32) -> Ending
        requires rate { rate ≤ max_rate }
        ensures reads { P.read_faults keeper.new ≡ P.read_faults keeper.old }
        ensures value { Writes P.Keeper (held_file rate self.now) keeper.old keeper.new result }
    {
        write_list(alloc, keeper, &self.list_name(), &self.held, rate)
    }

    /// Writes the text of a session.
    fn write_text<P: Keeper>(&self, alloc: Global, keeper: &mut P) -> Ending
        ensures reads { P.read_faults keeper.new ≡ P.read_faults keeper.old }
        ensures value { Writes P.Keeper
            (text_file self.now.underway.target self.now.name self.now.settings) keeper.old
            keeper.new result }
    {
        match self.target {
            Target::All => write_text(alloc, keeper, &self.name, &self.settings),
            _ => Ending::Written,
        }
    }

    /// Goes over to the list of another index: the one that is held is whole.
    fn turn_to<P: Keeper>(&mut self, alloc: Global, keeper: &mut P, rate: u32, index: u8)
        requires rate { rate ≤ max_rate }
        ensures reads { P.read_faults keeper.new ≡ P.read_faults keeper.old }
        ensures writes { GoesOn P.Keeper (held_file rate self.old) keeper.old keeper.new
            self.old.ending self.new.ending }
        ensures after { self.new ≡ record self.old {
          underway = record self.old.underway { index = index; frames = 0 };
          held = [];
          ending =
              self.new.ending;
        } }
    {
        if self.ending == Ending::Written {
            self.ending = self.write_held(alloc, keeper, rate);
        }
        self.held = Vec::new(alloc);
        self.index = index;
        self.frames = 0;
    }

    /// The length that the settings tell of the list that comes, 0 where they tell none.
    fn list_length(&self) -> usize {
        let strips = self.settings.strips.as_slice();
        let index = self.index as usize;
        if index < strips.len() {
            strips[index].length as usize
        } else {
            0
        }
    }

    /// Holds frames of the list, as long as all that was due is written.
    fn hold(&mut self, alloc: Global, frames: &[Frame])
        requires { self.old.underway.frames + length frames.now ≤ max_list_frames }
        ensures ending { MayWant self.old.ending self.new.ending }
        ensures after { self.new ≡ record self.old {
          underway = record self.old.underway
              { frames = self.old.underway.frames + length frames.now };
          held = held_by self.new.ending (self.old.held ++ frames.now);
          ending = self.new.ending;
        } }
    {
        let whole = self.list_length();
        if self.ending == Ending::Written && !take_in(&mut self.held, frames, whole) {
            self.ending = Ending::Memory;
        }
        if self.ending != Ending::Written {
            self.held = Vec::new(alloc);
        }
        self.frames += frames.len() as u32;
    }

    /// Takes a part of the list of this index.
    pub fn take_part<P: Keeper>(
        &mut self,
        alloc: Global,
        keeper: &mut P,
        rate: u32,
        index: u8,
        frames: &PartFrames,
    )
        requires rate { rate ≤ max_rate }
        requires may { IsTrue (may_be_part self.old.underway index (length frames.now)) }
        ensures reads { P.read_faults keeper.new ≡ P.read_faults keeper.old }
        ensures taken { TakesPart P.Keeper (due_at_part rate index self.old) keeper.old keeper.new
            self.old (Some self.new) (λ ending. with_frames index frames.now ending self.old) }
    {
        if index != self.index {
            self.turn_to(alloc, keeper, rate, index);
        }
        self.hold(alloc, frames.as_slice());
    }

    /// Writes the file of the list that is held, and then the text of a session.
    #[tactic(auto, using(crate::proofs::AcceptLemmas::writes_more, crate::proofs::AcceptLemmas::writes_failed, crate::proofs::AcceptLemmas::writes_wanted))]
    fn write_rest<P: Keeper>(&self, alloc: Global, keeper: &mut P, rate: u32) -> Ending
        requires rate { rate ≤ max_rate }
        ensures reads { P.read_faults keeper.new ≡ P.read_faults keeper.old }
        ensures value { Writes P.Keeper (due_at_end rate self.now) keeper.old keeper.new result }
    {
        match self.write_held(alloc, keeper, rate) {
            Ending::Written => self.write_text(alloc, keeper),
            Ending::Failed => Ending::Failed,
            Ending::Memory => Ending::Memory,
        }
    }

    /// Writes what is left at the end, and says how the save ended.
    pub fn end<P: Keeper>(&self, alloc: Global, keeper: &mut P, rate: u32) -> Ending
        requires rate { rate ≤ max_rate }
        ensures reads { P.read_faults keeper.new ≡ P.read_faults keeper.old }
        ensures writes { GoesOn P.Keeper (due_at_end rate self.now) keeper.old keeper.new
            self.now.ending result }
    {
        match self.ending {
            Ending::Written => self.write_rest(alloc, keeper, rate),
            Ending::Failed => Ending::Failed,
            Ending::Memory => Ending::Memory,
        }
    }

    /// The loops that the save is of.
    pub fn target(&self) -> Target
        ensures { result ≡ self.now.underway.target }
    {
        self.target
    }
}
