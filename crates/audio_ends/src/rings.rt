//! The ends of the rings that the audio activity owns.

ghost use Rattle.std.specs.Prelude.{◌≡◌, ◌≤◌, ◌<◌, ◌+◌, ◌||◌, ℕ, true, false, None, length, IfSome, IfNone, IsTrue, option_to_list};
ghost use Rattle.sl_base.specs.Counting.{Rose};
ghost use Rattle.sl_commands.specs.Commands.{is_outcome};
ghost use Rattle.sl_commands.specs.Blocks.{may_follow};
ghost use Rattle.live_steps.specs.Passed.{with_command, with_outcome, with_block, PutsHeld};
ghost use Rattle.audio_ends.specs.Ends.{passed, is_quit, GoOn};
ghost use Rattle.audio_ends.specs.Turns.{count_of, nones_of, limit_of};

use crate::way::Way;
use event_rings::{Putter, Taker};
use sl_commands::{Block, Command, Reply};

/// The ends of the five rings, the reply that found its ring full, and whether a quit was taken.
#[derive(Drop)]
pub struct RingEnds {
    pub osc: Taker<Command>,
    pub midi: Taker<Command>,
    pub saver: Taker<u8>,
    pub replies: Putter<Reply>,
    pub blocks: Putter<Block>,
    pub held: Option<Reply>,
    pub quit: bool,
}

/// The command ends the session.
pub fn is_quit(command: &Command) -> bool
    ensures { result ≡ is_quit command.now }
{
    match command {
        Command::Quit => true,
        _ => false,
    }
}

impl RingEnds {
    /// Puts the held reply, and says whether none is held any more.
    pub fn put_held<Y: Way>(&mut self, way: &Y) -> bool
        requires room { length self.old.replies.sent + length (option_to_list self.old.held)
            ≤ self.old.replies.limit }
        ensures put { PutsHeld (passed self.old) (passed self.new) }
        ensures on { GoOn self.old self.new }
        ensures quit { self.new.quit ≡ self.old.quit }
        ensures free { result ≡ true → self.new.held ≡ None }
        ensures rose { result ≡ false → Rose self.old.replies.fulls self.new.replies.fulls }
    {
        let Some(reply) = self.held.take() else {
            return true;
        };
        match way.put(&mut self.replies, reply) {
            Ok(()) => true,
            Err(full) => {
                self.held = Some(full.item);
                false
            }
        }
    }

    /// The next command of sender 0 or 1. Nothing is held then.
    pub fn next_command<Y: Way>(&mut self, way: &Y, sender: u8) -> Option<Command>
        requires two { sender < 2 }
        ensures some { IfSome result
            (λ c. passed self.new ≡ with_command sender c self.old.held (passed self.old)) }
        ensures few { IfSome result (λ _. count_of sender self.new ≤ limit_of sender self.old) }
        ensures none { IfNone result (passed self.new ≡ passed self.old) }
        ensures quit { self.new.quit ≡ self.old.quit }
        ensures count { IfSome result
            (λ _. count_of sender self.new ≡ count_of sender self.old + 1) }
        ensures rose { IfNone result (Rose (nones_of sender self.old) (nones_of sender self.new)) }
        ensures on { GoOn self.old self.new }
    {
        if sender == 0 {
            way.take(&mut self.osc)
        } else {
            way.take(&mut self.midi)
        }
    }

    /// The next outcome.
    pub fn next_outcome<Y: Way>(&mut self, way: &Y) -> Option<u8>
        ensures some { IfSome result
            (λ o. (passed self.new ≡ with_outcome o self.old.held (passed self.old))
            × IsTrue (is_outcome o)) }
        ensures none { IfNone result (passed self.new ≡ passed self.old) }
        ensures quit { self.new.quit ≡ self.old.quit }
        ensures count { IfSome result
            (λ _. length self.new.saver.taken ≡ length self.old.saver.taken + 1) }
        ensures rose { IfNone result (Rose self.old.saver.nones self.new.saver.nones) }
        ensures on { GoOn self.old self.new }
    {
        way.take(&mut self.saver)
    }

    /// Puts a block, and says whether there was room.
    pub fn put_block<Y: Way>(&mut self, way: &Y, block: Block) -> bool
        requires room { length self.old.blocks.sent < self.old.blocks.limit }
        requires may { IsTrue (may_follow self.old.blocks.sent block self.old.blocks.bound) }
        ensures ok { result ≡ true → passed self.new ≡ with_block block (passed self.old) }
        ensures full { result ≡ false → passed self.new ≡ passed self.old }
        ensures quit { self.new.quit ≡ self.old.quit }
        ensures count { result ≡ true →
            length self.new.blocks.sent ≡ length self.old.blocks.sent + 1 }
        ensures rose { result ≡ false → Rose self.old.blocks.fulls self.new.blocks.fulls }
        ensures on { GoOn self.old self.new }
    {
        way.put(&mut self.blocks, block).is_ok()
    }
}
