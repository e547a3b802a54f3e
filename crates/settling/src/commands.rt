//! Giving commands to the engine.

ghost use Rattle.std.specs.Prelude.{◌≡◌, ◌<◌, ◌∷◌, [], List};
ghost use Rattle.sl_commands.specs.declared.Command.{Command};
ghost use Rattle.sl_commands.specs.declared.Reply.{Reply};
ghost use Rattle.frame_stamp.specs.Journals.{HasRoom};
ghost use Rattle.settling.specs.Settled.{IsLeft};
ghost use Rattle.settling.specs.Standing.{MayCommand};
ghost use Rattle.settling.specs.Steps.{GoesBy, more_commands};

use crate::replies::tell_some;
use crate::teller::Teller;
use event_rings::Met;
use looper_engine::Engine;
use sl_commands::Command;
use std::sync::Wait;

/// Gives the engine one command of OSC or MIDI, and tells its reply.
fn give<T: Teller>(engine: &mut Engine, sender: u8, command: Command, teller: &mut T)
    requires two { sender < 2 }
    requires room { HasRoom sender engine.old.journal }
    ensures goes { (told : List Reply) × T.tells teller.old told teller.new
        × GoesBy (more_commands sender (command ∷ [])) told engine.old engine.new }
{
    let reply = engine.take(sender, command);
    tell_some(teller, reply);
}

/// Gives the engine the commands that are left in the ring of OSC or MIDI.
pub(crate) fn settle_commands<T: Teller, W: Wait>(
    wait: &W,
    engine: &mut Engine,
    met: &mut Met<Command>,
    sender: u8,
    teller: &mut T,
)
    requires two { sender < 2 }
    requires may { MayCommand sender engine.old met.old }
    ensures left { (rest : List Command) × IsLeft met.old rest
        × (told : List Reply) × T.tells teller.old told teller.new
        × GoesBy (more_commands sender rest) told engine.old engine.new }
{
    T::telling_composes();
    'draining: for _ in wait.forever() {
        let Some(command) = met.drain(wait) else {
            return;
        };
        give(engine, sender, command, teller);
    }
    unreachable!()
}
