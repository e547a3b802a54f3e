//! The commands and outcomes that a turn takes.

ghost use Rattle.std.specs.Prelude.{◌≡◌, ◌≢◌, ◌<◌, ◌+◌, ◌||◌, ℕ, true, false, None, Some, length, IfSome, IfNone, IsTrue};
ghost use Rattle.sl_base.specs.Counting.{Rose};
ghost use Rattle.sl_commands.specs.Commands.{is_release_target};
ghost use Rattle.engine_steps.specs.Engines.{due_target};
ghost use Rattle.audio_ends.specs.declared.stop.Stop.TheVariants.{Emptied, Budget, Held, Unasked};
ghost use Rattle.audio_ends.specs.Ends.{is_quit, MayTurn};
ghost use Rattle.audio_ends.specs.Turns.{Takes, Cause, Frees, Causes, count_of};

use audio_ends::{RingEnds, Stop, Stops, Way, is_quit};
use looper_engine::Engine;
use sl_commands::{Command, MIDI, OSC, SAVER, Target};

/// The most items that are taken of one ring in a turn.
const MOST_TAKEN: usize = 256;

/// Puts the held reply, and says whether none is held any more.
pub(crate) fn settle<Y: Way>(way: &Y, engine: &Engine, ends: &mut RingEnds) -> bool
    requires may { MayTurn engine.now ends.old }
    ensures takes { Takes engine.now engine.now ends.old ends.new }
    ensures free { result ≡ true → ends.new.held ≡ None }
    ensures rose { result ≡ false → Rose ends.old.replies.fulls ends.new.replies.fulls }
    ensures count { (sender : ℕ) → count_of sender ends.new ≡ count_of sender ends.old }
{
    let _ = engine;
    ends.put_held(way)
}

/// A quit was taken before, or is this command.
fn noted(quit: bool, command: &Command) -> bool
    ensures { result ≡ (quit || is_quit command.now) }
{
    quit || is_quit(command)
}

/// Takes a command and gives it to the engine. Its reply is held. True if there was one.
fn give_one<Y: Way>(way: &Y, engine: &mut Engine, ends: &mut RingEnds, sender: u8) -> bool
    requires two { sender < 2 }
    requires free { ends.old.held ≡ None }
    requires may { MayTurn engine.old ends.old }
    ensures takes { Takes engine.old engine.new ends.old ends.new }
    ensures count { result ≡ true → count_of sender ends.new ≡ count_of sender ends.old + 1 }
    ensures emptied { result ≡ false →
        Cause sender engine.old ends.old ends.new Emptied × (ends.new.held ≡ None) }
{
    let Some(command) = ends.next_command(way, sender) else {
        return false;
    };
    let quit = noted(ends.quit, &command);
    ends.quit = quit;
    ends.held = engine.take(sender, command);
    true
}

/// Takes a command, gives it to the engine and puts its reply. None if more may be taken.
fn take_one<Y: Way>(way: &Y, engine: &mut Engine, ends: &mut RingEnds, sender: u8) -> Option<Stop>
    requires two { sender < 2 }
    requires free { ends.old.held ≡ None }
    requires may { MayTurn engine.old ends.old }
    ensures takes { Takes engine.old engine.new ends.old ends.new }
    ensures more { IfNone result ((ends.new.held ≡ None)
        × (count_of sender ends.new ≡ count_of sender ends.old + 1)) }
    ensures cause { IfSome result (λ s. Cause sender engine.old ends.old ends.new s
        × Frees s ends.new.held × (s ≢ Budget)) }
{
    if !give_one(way, engine, ends, sender) {
        return Some(Stop::Emptied);
    }
    if settle(way, engine, ends) {
        None
    } else {
        Some(Stop::Held)
    }
}

/// Takes at most 256 commands of a sender.
fn take_commands<Y: Way>(way: &Y, engine: &mut Engine, ends: &mut RingEnds, sender: u8) -> Stop
    requires two { sender < 2 }
    requires free { ends.old.held ≡ None }
    requires may { MayTurn engine.old ends.old }
    ensures takes { Takes engine.old engine.new ends.old ends.new }
    ensures cause { Cause sender engine.old ends.old ends.new result × Frees result ends.new.held }
{
    for _ in 0..MOST_TAKEN {
        if let Some(stop) = take_one(way, engine, ends, sender) {
            return stop;
        }
    }
    Stop::Budget
}

/// Takes the outcome of the save that is due, and gives its release to the engine.
fn release_one<Y: Way>(way: &Y, engine: &mut Engine, ends: &mut RingEnds, target: Target) -> bool
    requires free { ends.old.held ≡ None }
    requires due { due_target engine.old ≡ Some target }
    requires there { IsTrue (is_release_target (length engine.old.looper.tracks) target) }
    requires may { MayTurn engine.old ends.old }
    ensures takes { Takes engine.old engine.new ends.old ends.new }
    ensures count { result ≡ true → count_of 2 ends.new ≡ count_of 2 ends.old + 1 }
    ensures emptied { result ≡ false →
        Cause 2 engine.old ends.old ends.new Emptied × (ends.new.held ≡ None) }
{
    let Some(outcome) = ends.next_outcome(way) else {
        return false;
    };
    ends.held = engine.take(SAVER, Command::Release(target, outcome));
    true
}

/// Answers one save. None if more may be answered.
fn answer_one<Y: Way>(way: &Y, engine: &mut Engine, ends: &mut RingEnds) -> Option<Stop>
    requires free { ends.old.held ≡ None }
    requires may { MayTurn engine.old ends.old }
    ensures takes { Takes engine.old engine.new ends.old ends.new }
    ensures more { IfNone result ((ends.new.held ≡ None)
        × (count_of 2 ends.new ≡ count_of 2 ends.old + 1)) }
    ensures cause { IfSome result (λ s. Cause 2 engine.old ends.old ends.new s
        × Frees s ends.new.held × (s ≢ Budget)) }
{
    let Some(target) = engine.due() else {
        return Some(Stop::Unasked);
    };
    if !release_one(way, engine, ends, target) {
        return Some(Stop::Emptied);
    }
    if settle(way, engine, ends) {
        None
    } else {
        Some(Stop::Held)
    }
}

/// Answers at most 256 saves.
fn take_outcomes<Y: Way>(way: &Y, engine: &mut Engine, ends: &mut RingEnds) -> Stop
    requires free { ends.old.held ≡ None }
    requires may { MayTurn engine.old ends.old }
    ensures takes { Takes engine.old engine.new ends.old ends.new }
    ensures cause { Cause 2 engine.old ends.old ends.new result × Frees result ends.new.held }
{
    for _ in 0..MOST_TAKEN {
        if let Some(stop) = answer_one(way, engine, ends) {
            return stop;
        }
    }
    Stop::Budget
}

/// Takes from the three rings where nothing is held.
fn take_free<Y: Way>(way: &Y, engine: &mut Engine, ends: &mut RingEnds) -> Stops
    requires free { ends.old.held ≡ None }
    requires may { MayTurn engine.old ends.old }
    ensures takes { Takes engine.old engine.new ends.old ends.new }
    ensures causes { Causes engine.old ends.old ends.new result }
{
    let osc = take_commands(way, engine, ends, OSC);
    if let Stop::Held = osc {
        return Stops {
            osc,
            midi: Stop::Held,
            saver: Stop::Held,
        };
    }
    let midi = take_commands(way, engine, ends, MIDI);
    if let Stop::Held = midi {
        return Stops {
            osc,
            midi,
            saver: Stop::Held,
        };
    }
    let saver = take_outcomes(way, engine, ends);
    Stops { osc, midi, saver }
}

/// Puts the held reply, and takes from the three rings unless it is still held.
pub(crate) fn take_all<Y: Way>(way: &Y, engine: &mut Engine, ends: &mut RingEnds) -> Stops
    requires may { MayTurn engine.old ends.old }
    ensures takes { Takes engine.old engine.new ends.old ends.new }
    ensures causes { Causes engine.old ends.old ends.new result }
{
    if !settle(way, engine, ends) {
        return Stops {
            osc: Stop::Held,
            midi: Stop::Held,
            saver: Stop::Held,
        };
    }
    take_free(way, engine, ends)
}
