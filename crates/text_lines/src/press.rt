//! What words do to a loop.

ghost use Rattle.std.specs.Prelude.{◌≡◌, ◌≢◌, map, List, IfSome, IfNone, IsTrue};
ghost use Rattle.sl_commands.specs.declared.command.Target.{Target};
ghost use Rattle.sl_commands.specs.declared.command.Command.{Command};
ghost use Rattle.sl_commands.specs.declared.verb.Verb.{Verb};
ghost use Rattle.text_lines.specs.Presses.{SpellPress};

use crate::word::{behind, target_of};
use sl_commands::{Command, verb_of};

fn down_of(words: &[&[u8]]) -> Option<Command>
    ensures found { IfSome result (λ command. SpellPress (map (λ w. w.now) words.now) command) }
    ensures only { IfNone result ((target : Target) (verb : Verb) →
        ¬ SpellPress (map (λ w. w.now) words.now) (Command.Down target verb)) }
{
    match behind(words, b"down")? {
        [target, verb] => Some(Command::Down(target_of(target)?, verb_of(verb)?)),
        _ => None,
    }
}

fn up_of(words: &[&[u8]]) -> Option<Command>
    ensures found { IfSome result (λ command. SpellPress (map (λ w. w.now) words.now) command) }
    ensures only { IfNone result ((target : Target) (verb : Verb) →
        ¬ SpellPress (map (λ w. w.now) words.now) (Command.Up target verb)) }
{
    match behind(words, b"up")? {
        [target, verb] => Some(Command::Up(target_of(target)?, verb_of(verb)?)),
        _ => None,
    }
}

fn hit_of(words: &[&[u8]]) -> Option<Command>
    ensures found { IfSome result (λ command. SpellPress (map (λ w. w.now) words.now) command) }
    ensures only { IfNone result ((target : Target) (verb : Verb) →
        ¬ SpellPress (map (λ w. w.now) words.now) (Command.Hit target verb)) }
{
    match behind(words, b"hit")? {
        [target, verb] => Some(Command::Hit(target_of(target)?, verb_of(verb)?)),
        _ => None,
    }
}

/// The verb that words give to a loop, whatever loops there are.
pub fn press_of(words: &[&[u8]]) -> Option<Command>
    ensures found { IfSome result (λ command. SpellPress (map (λ w. w.now) words.now) command) }
    ensures only { IfNone result
        ((command : Command) → ¬ SpellPress (map (λ w. w.now) words.now) command) }
{
    if let Some(command) = down_of(words) {
        return Some(command);
    }
    if let Some(command) = up_of(words) {
        return Some(command);
    }
    hit_of(words)
}
