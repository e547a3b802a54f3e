//! The engine, as it is called.

ghost use Rattle.std.specs.Prelude.{◌≡◌, ◌≤◌, ◌<◌, ◌+◌, ◌↔◌, length, map, ◌≢◌, [], ◌∷◌, ◌++◌, None, Err, IfOk, IsErrOf, IsSome, IfSome, IsTrue};
ghost use Rattle.sl_base.specs.Limits.{max_chunks, max_quota, max_value, max_session_frames};
ghost use Rattle.sl_commands.specs.Commands.{is_release_target};
ghost use Rattle.sl_commands.specs.Entries.{last_frame};
ghost use Rattle.looper_rules.specs.Room.{used};
ghost use Rattle.looper_rules.specs.Entries.{reply, save};
ghost use Rattle.looper_rules.specs.Reached.{AreLists, IsBeginning, KeepsLooper};
ghost use Rattle.frame_stamp.specs.Journals.{HasRoom, next_seq, next_entry};
ghost use Rattle.engine_steps.specs.Engines.{Beginning, first_engine, entry_of, ClearsSent, took, went_on, put_out, left, next_block, due_target, block_sent};
ghost use Rattle.engine_steps.specs.InStep.{IsInStep, SoFar, nothing, with_taken, with_frames, with_block};
ghost use Rattle.whole_looper.specs.Loopers.{refused_in};
ghost use Rattle.looper_rules.specs.Unanswered.{holds_of, HoldPins};
ghost use Rattle.whole_looper.specs.declared.fault.BeginFault.TheVariants.{Limit};
ghost use Rattle.looper_engine.specs.Queues.{empty_queue};
ghost use Rattle.looper_engine.specs.EngineParts.{engine_of};
ghost use Rattle.looper_engine.specs.Beginnings.{beginning_of};

use crate::queue::Queue;
use crate::saving::{block_at, block_total, seek_block};
use crate::setup::Setup;
use crate::taking::{asked_by, made_save, released_by};
use frame_stamp::Journal;
use sl_base::{Frame, Memory};
use sl_commands::{Block, Command, Initial, Reply, Target};
use std::alloc::Global;
use std::marker::Model;
use whole_looper::{BeginFault, Looper};

/// A looper with its journal and the saves that no release has answered.
#[derive(Drop)]
pub struct Engine {
    looper: Looper,
    journal: Journal,
    frames_done: u64,
    queue: Queue,
}

impl Model for Engine {
    ghost use Rattle.engine_steps.specs.Engines.{EngineOf};
    ghost use Rattle.looper_engine.specs.EngineParts.{engine_of, IsEngine};

    ghost Value = { EngineOf };

    ghost view = { λ e. engine_of e.looper e.journal e.frames_done e.queue };

    ghost invariant = { λ e. IsEngine (engine_of e.looper e.journal e.frames_done e.queue) };
}

/// Stamps this command, once, behind the entries of a journal.
fn stamp(journal: &mut Journal, frame: u64, sender: u8, command: Command)
    requires room { HasRoom sender journal.old }
    requires frame { last_frame journal.old.entries ≤ frame }
    ensures entries { journal.new.entries ≡ journal.old.entries
        ++ next_entry frame sender command journal.old.entries ∷ [] }
    ensures quota { journal.new.quota ≡ journal.old.quota }
{
    journal.stamp(frame, sender, command);
}

impl Engine {
    /// An engine before all frames and entries, with the list of each loop by index; loops without
    /// one begin empty. Only this call takes memory.
    pub fn new(alloc: Global, setup: &Setup, initial: &Initial) -> Result<Engine, BeginFault>
        requires lists { AreLists setup.now.settings.strips initial.now }
        requires chunks { setup.now.chunks ≤ max_chunks }
        requires some { 1 ≤ setup.now.quota }
        requires quota { setup.now.quota ≤ max_quota }
        ensures value { IfOk result (λ e. e ≡ first_engine (beginning_of setup.now initial.now)) }
        ensures begins { IfOk result
            (λ e. IsBeginning setup.now.settings setup.now.chunks initial.now) }
        ensures in_step { IfOk result
            (λ e. IsInStep (beginning_of setup.now initial.now) nothing e) }
        ensures limit { IsErrOf result BeginFault.Limit ↔
            (setup.now.chunks < used (map length initial.now)) }
    {
        setup.facts();
        let looper = Looper::new(alloc, &setup.settings, setup.chunks, initial.as_slice())?;
        Ok(Engine::over(alloc, looper, setup.quota)?)
    }

    /// An engine over this looper, before all frames and entries.
    fn over(alloc: Global, looper: Looper, quota: u32) -> Result<Engine, Memory>
        requires kept { KeepsLooper 0 looper }
        requires free { HoldPins [] (holds_of looper) }
        requires none { looper.saves ≡ 0 }
        requires some { 1 ≤ quota }
        requires quota { quota ≤ max_quota }
        ensures value { IfOk result
            (λ e. e ≡ engine_of looper (record { entries = []; quota = quota }) 0 empty_queue) }
    {
        let journal = Journal::with_quota(alloc, quota)?;
        let queue = Queue::new(alloc)?;
        Ok(Engine {
            looper,
            journal,
            frames_done: 0,
            queue,
        })
    }

    /// There is a number for one more save.
    fn check_saves(&self)
        ensures { self.now.looper.saves < max_value }
    {
        self.journal.facts();
    }

    /// Stamps this command of this sender with the number of frames done, applies it, and gives the
    /// reply. Senders are 0 for OSC, 1 for MIDI and 2 for the saver. What isn't valid is stamped
    /// and changes nothing else.
    pub fn take(&mut self, sender: u8, command: Command) -> Option<Reply>
        requires room { HasRoom sender self.old.journal }
        requires clears { ClearsSent (entry_of sender command self.old) self.old }
        ensures took { self.new ≡ took (entry_of sender command self.old) self.old }
        ensures reply { result ≡ reply (entry_of sender command self.old) self.old.looper }
        ensures in_step { (b : Beginning) → (s : SoFar) → IsInStep b s self.old →
            IsInStep b (with_taken result (save (entry_of sender command self.old) self.old.looper)
            s) self.new }
    {
        self.check_saves();
        let asked = asked_by(&self.looper, &command);
        let released = released_by(&self.looper, sender, &command);
        let seq = self.journal.count(sender);
        let applied = self.looper.apply(self.frames_done, sender, seq, &command);
        self.queue.settle(released);
        self.queue.join(made_save(applied.made_save, asked));
        stamp(&mut self.journal, self.frames_done, sender, command);
        applied.answer
    }

    /// Plays these frames: `input` is taken in, and `output` is written, which is as long.
    pub fn frames(&mut self, input: &[Frame], output: &mut [Frame])
        requires lengths { length input.now ≡ length output.old }
        requires limit { self.old.frames + length input.now ≤ max_session_frames }
        ensures engine { self.new ≡ went_on input.now self.old }
        ensures output { output.new ≡ put_out input.now self.old }
        ensures in_step { (b : Beginning) → (s : SoFar) → IsInStep b s self.old →
            IsInStep b (with_frames input.now output.new s) self.new }
    {
        self.looper.frames(self.frames_done, input, output);
        self.frames_done += input.len() as u64;
    }

    /// The block that is sent next, or None where the blocks of all saves were sent.
    pub fn next_block(&self) -> Option<Block>
        ensures value { result ≡ next_block self.now }
        ensures some { IsSome result ↔ (1 ≤ length (left self.now)) }
        ensures all_sent { result ≡ None → self.now.sending ≡ [] }
    {
        let sending = self.queue.sending();
        if sending.is_empty() {
            return None;
        }
        Some(block_at(&self.looper, &sending[0], self.queue.part()))
    }

    /// The block that `next_block` gave was sent.
    pub fn block_sent(&mut self)
        requires { 1 ≤ length (left self.old) }
        ensures sent { self.new ≡ block_sent self.old }
        ensures in_step { (b : Beginning) → (s : SoFar) → IsInStep b s self.old →
            IsInStep b (with_block (next_block self.old) s) self.new }
    {
        let target = self.queue.sending()[0].target;
        let total = block_total(&self.looper, target);
        seek_block(&mut self.looper, target, self.queue.part() + 1);
        self.queue.block_sent(total);
    }

    /// The target of the oldest save that no release has answered, or None where there is no such
    /// save, or its blocks weren't all sent.
    pub fn due(&self) -> Option<Target>
        ensures value { result ≡ due_target self.now }
        ensures within { IfSome result
            (λ target. IsTrue (is_release_target (length self.now.looper.tracks) target)) }
    {
        let due = self.queue.due();
        if due.is_empty() {
            return None;
        }
        Some(due[0].target)
    }

    /// The commands taken so far.
    pub fn journal(&self) -> &Journal
        ensures { result.now ≡ self.now.journal }
    {
        &self.journal
    }

    /// What always holds of an engine.
    pub fn facts(&self)
        ensures within { self.now.frames ≤ max_session_frames }
        ensures stamped { last_frame self.now.journal.entries ≤ self.now.frames }
        ensures kept { KeepsLooper self.now.frames self.now.looper }
        ensures saves { self.now.looper.saves ≤ next_seq 0 self.now.journal.entries
            + next_seq 1 self.now.journal.entries }
    {
        let _done = self.frames_done;
    }

    /// How many frames are done, 1099511627776 at most.
    pub fn frames_done(&self) -> u64
        ensures value { result ≡ self.now.frames }
        ensures within { result ≤ max_session_frames }
        ensures stamped { last_frame self.now.journal.entries ≤ self.now.frames }
        ensures kept { KeepsLooper self.now.frames self.now.looper }
    {
        self.frames_done
    }

    /// How often a loop refused an opening, a write or an extension, over all loops.
    pub fn refused(&self) -> u64
        ensures { result ≡ refused_in self.now.looper }
    {
        self.looper.refused()
    }

    /// How many saves were made so far.
    pub fn saves(&self) -> u32
        ensures value { result ≡ self.now.looper.saves }
        ensures within { result ≤ next_seq 0 self.now.journal.entries
            + next_seq 1 self.now.journal.entries }
    {
        self.looper.saves()
    }

    /// How many loops there are, 1 to 16.
    pub fn loops(&self) -> u8
        ensures { result ≡ length self.now.looper.tracks }
    {
        self.looper.loops()
    }

    /// The journal alone.
    pub fn into_journal(self) -> Journal
        ensures { result ≡ self.journal }
    {
        self.journal
    }
}
