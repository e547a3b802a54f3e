//! The commands that words spell, one function a form.

ghost use Rattle.std.specs.Prelude.{◌≡◌, ◌≢◌, ℕ, ℤ, pos, negsuc, ◌≤◌, ◌≤ℤ◌, ◌∷◌, map, List, IfSome, IfNone, IsTrue};
ghost use Rattle.sl_base.specs.Names.{IsName};
ghost use Rattle.sl_commands.specs.Commands.{is_target, is_allowed};
ghost use Rattle.sl_commands.specs.declared.command.Target.{Target};
ghost use Rattle.sl_commands.specs.declared.command.Command.{Command};
ghost use Rattle.sl_commands.specs.declared.verb.Verb.{Verb};
ghost use Rattle.sl_commands.specs.declared.control.Control.{Control};
ghost use Rattle.journal_text.specs.JournalLines.{Spell};

use sl_base::Name;
use sl_commands::{Command, control_of};
use text_lines::{behind, number_of, press_of, read_integer, target_of};

/// The verb that words give to a loop.
#[tactic(auto, using(crate::proofs::CommandLemmas::press_is_spelled))]
fn give_of(words: &[&[u8]]) -> Option<Command>
    ensures found { IfSome result (λ command. Spell (map (λ w. w.now) words.now) command) }
    ensures down { IfNone result ((target : Target) (verb : Verb) →
        ¬ Spell (map (λ w. w.now) words.now) (Command.Down target verb)) }
    ensures up { IfNone result ((target : Target) (verb : Verb) →
        ¬ Spell (map (λ w. w.now) words.now) (Command.Up target verb)) }
    ensures hit { IfNone result ((target : Target) (verb : Verb) →
        ¬ Spell (map (λ w. w.now) words.now) (Command.Hit target verb)) }
{
    press_of(words)
}

fn set_of(words: &[&[u8]]) -> Option<Command>
    ensures found { IfSome result (λ command. Spell (map (λ w. w.now) words.now) command) }
    ensures only { IfNone result ((target : Target) (control : Control) (value : ℤ) →
        ¬ Spell (map (λ w. w.now) words.now) (Command.Set target control value)) }
{
    match behind(words, b"set")? {
        [target, control, value] => Some(Command::Set(
            target_of(target)?,
            control_of(control)?,
            read_integer(value)?,
        )),
        _ => None,
    }
}

fn set_global_of(words: &[&[u8]]) -> Option<Command>
    ensures found { IfSome result (λ command. Spell (map (λ w. w.now) words.now) command) }
    ensures only { IfNone result ((control : Control) (value : ℤ) →
        ¬ Spell (map (λ w. w.now) words.now) (Command.SetGlobal control value)) }
{
    match behind(words, b"gset")? {
        [control, value] => Some(Command::SetGlobal(control_of(control)?, read_integer(value)?)),
        _ => None,
    }
}

fn get_of(words: &[&[u8]]) -> Option<Command>
    ensures found { IfSome result (λ command. Spell (map (λ w. w.now) words.now) command) }
    ensures only { IfNone result ((target : Target) (control : Control) →
        ¬ Spell (map (λ w. w.now) words.now) (Command.Get target control)) }
{
    match behind(words, b"get")? {
        [target, control] => Some(Command::Get(target_of(target)?, control_of(control)?)),
        _ => None,
    }
}

fn get_global_of(words: &[&[u8]]) -> Option<Command>
    ensures found { IfSome result (λ command. Spell (map (λ w. w.now) words.now) command) }
    ensures only { IfNone result
        ((control : Control) → ¬ Spell (map (λ w. w.now) words.now) (Command.GetGlobal control)) }
{
    match behind(words, b"gget")? {
        [control] => Some(Command::GetGlobal(control_of(control)?)),
        _ => None,
    }
}

fn save_of(words: &[&[u8]]) -> Option<Command>
    ensures found { IfSome result (λ command. Spell (map (λ w. w.now) words.now) command) }
    ensures only { IfNone result ((target : Target) (name : List ℕ) →
        ¬ Spell (map (λ w. w.now) words.now) (Command.SaveLoop target name)) }
{
    match behind(words, b"save")? {
        [target, name] => Some(Command::SaveLoop(target_of(target)?, Name::read(name)?)),
        _ => None,
    }
}

fn session_of(words: &[&[u8]]) -> Option<Command>
    ensures found { IfSome result (λ command. Spell (map (λ w. w.now) words.now) command) }
    ensures only { IfNone result
        ((name : List ℕ) → ¬ Spell (map (λ w. w.now) words.now) (Command.SaveSession name)) }
{
    match behind(words, b"session")? {
        [name] => Some(Command::SaveSession(Name::read(name)?)),
        _ => None,
    }
}

fn release_of(words: &[&[u8]]) -> Option<Command>
    ensures found { IfSome result (λ command. Spell (map (λ w. w.now) words.now) command) }
    ensures only { IfNone result ((target : Target) (outcome : ℕ) →
        ¬ Spell (map (λ w. w.now) words.now) (Command.Release target outcome)) }
{
    match behind(words, b"release")? {
        [target, outcome] => {
            let target = target_of(target)?;
            let outcome = number_of(outcome, 255)?;
            Some(Command::Release(target, outcome as u8))
        }
        _ => None,
    }
}

fn quit_of(words: &[&[u8]]) -> Option<Command>
    ensures found { IfSome result (λ command. Spell (map (λ w. w.now) words.now) command) }
    ensures only { IfNone result (¬ Spell (map (λ w. w.now) words.now) Command.Quit) }
{
    match behind(words, b"quit")? {
        [] => Some(Command::Quit),
        _ => None,
    }
}

/// The command that words spell, whatever it is allowed for.
pub fn command_of(words: &[&[u8]]) -> Option<Command>
    ensures found { IfSome result (λ command. Spell (map (λ w. w.now) words.now) command) }
    ensures only { IfNone result
        ((command : Command) → ¬ Spell (map (λ w. w.now) words.now) command) }
{
    if let Some(command) = give_of(words) {
        return Some(command);
    }
    if let Some(command) = set_of(words) {
        return Some(command);
    }
    if let Some(command) = set_global_of(words) {
        return Some(command);
    }
    if let Some(command) = get_of(words) {
        return Some(command);
    }
    if let Some(command) = get_global_of(words) {
        return Some(command);
    }
    if let Some(command) = save_of(words) {
        return Some(command);
    }
    if let Some(command) = session_of(words) {
        return Some(command);
    }
    if let Some(command) = release_of(words) {
        return Some(command);
    }
    quit_of(words)
}
