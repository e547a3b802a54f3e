//! What a command asks of the saves that wait.

ghost use Rattle.std.specs.Prelude.{◌≡◌, length, None, if◌then◌else◌};
ghost use Rattle.whole_looper.specs.Loopers.{IsReached};
ghost use Rattle.sl_commands.specs.declared.Target.TheVariants.{One};
ghost use Rattle.looper_rules.specs.Looper.{index_of};
ghost use Rattle.looper_engine.specs.Queues.{asked_by, target_in, released_by};

use crate::queue::Pending;
use sl_base::Name;
use sl_commands::{Command, Settings, Target, is_sender};
use whole_looper::Looper;

/// A save with these settings, which comes behind those that were made.
fn pending(looper: &Looper, target: Target, name: &Name, settings: Settings) -> Pending
    ensures { result ≡ record {
      number = looper.now.saves;
      target = target;
      name =
          name.now;
      settings = settings;
    } }
{
    Pending {
        number: looper.saves(),
        target,
        name: name.duplicate(),
        settings,
    }
}

/// The target of a save of one loop, where this loop is selected.
fn saved_target(target: Target, selected: u8) -> Target
    ensures { result ≡ One (index_of target selected) }
{
    match target {
        Target::One(index) => Target::One(index),
        _ => Target::One(selected),
    }
}

/// The save for which this command asks, without its lists.
pub(crate) fn asked_by(looper: &Looper, command: &Command) -> Option<Pending>
    requires reached { IsReached looper.now }
    ensures { result ≡ asked_by command.now looper.now }
{
    match command {
        Command::SaveLoop(target, name) => {
            let settings = looper.settings();
            let one = saved_target(*target, settings.globals.selected_loop_num);
            Some(pending(looper, one, name, settings))
        }
        Command::SaveSession(name) => {
            let settings = looper.settings();
            Some(pending(looper, Target::All, name, settings))
        }
        _ => None,
    }
}

/// The target that a command releases.
fn target_in(command: &Command) -> Option<Target>
    ensures { result ≡ target_in command.now }
{
    match command {
        Command::Release(target, _) => Some(*target),
        _ => None,
    }
}

/// The target that this command of this sender releases, where it is valid.
pub(crate) fn released_by(looper: &Looper, sender: u8, command: &Command) -> Option<Target>
    ensures { result ≡ released_by sender command.now (length looper.now.tracks) }
{
    if is_sender(sender, command) && command.is_allowed(looper.loops()) {
        target_in(command)
    } else {
        None
    }
}

/// The save that was made, where one was.
pub(crate) fn made_save(is_made: bool, asked: Option<Pending>) -> Option<Pending>
    ensures { result ≡ (if is_made then asked else None) }
{
    if is_made { asked } else { None }
}
