//! The bindings that words spell, one function a form.

ghost use Rattle.std.specs.Prelude.{◌≡◌, ◌≢◌, ℕ, ℤ, ◌∷◌, map, List, IfSome, IfNone, IsTrue};
ghost use Rattle.sl_commands.specs.declared.command.Target.{Target};
ghost use Rattle.sl_commands.specs.declared.command.Command.{Command};
ghost use Rattle.sl_commands.specs.declared.control.Control.{Control};
ghost use Rattle.midi_bindings.specs.declared.binding.BindKind.{BindKind};
ghost use Rattle.midi_bindings.specs.declared.binding.Binding.{Binding};
ghost use Rattle.midi_bindings.specs.Lines.{Spell, SpellSet};

use crate::binding::Binding;
use crate::word::{channel_of, kind_of, value_of};
use sl_commands::{Control, Target, control_of};
use text_lines::{behind, number_of, press_of, target_of};

fn give_of(words: &[&[u8]]) -> Option<Binding>
    ensures found { IfSome result (λ binding. Spell (map (λ w. w.now) words.now) binding) }
    ensures only { IfNone result ((kind : BindKind) (channel number : ℕ) (command : Command) →
        ¬ Spell (map (λ w. w.now) words.now) (Binding.Give kind channel number command)) }
{
    match words {
        [kind, channel, number, press @ ..] => {
            let kind = kind_of(kind)?;
            let channel = channel_of(channel)?;
            let number = number_of(number, 127)?;
            let command = press_of(press)?;
            Some(Binding::Give {
                kind,
                channel,
                number: number as u8,
                command,
            })
        }
        _ => None,
    }
}

fn set_of(words: &[&[u8]]) -> Option<(Target, Control, i32, i32)>
    ensures found { IfSome result
        (λ set. SpellSet (map (λ w. w.now) words.now) set.0 set.1 set.2 set.3) }
    ensures only { IfNone result ((target : Target) (control : Control) (low high : ℤ) →
        ¬ SpellSet (map (λ w. w.now) words.now) target control low high) }
{
    match behind(words, b"set")? {
        [target, control, low, high] => {
            let target = target_of(target)?;
            let control = control_of(control)?;
            let low = value_of(low)?;
            match value_of(high) {
                Some(high) => Some((target, control, low, high)),
                None => None,
            }
        }
        _ => None,
    }
}

fn sweep_of(words: &[&[u8]]) -> Option<Binding>
    ensures found { IfSome result (λ binding. Spell (map (λ w. w.now) words.now) binding) }
    ensures only { IfNone result ((channel number : ℕ) (target : Target) (control : Control)
        (low high : ℤ) → ¬ Spell (map (λ w. w.now) words.now)
        (Binding.Sweep channel number target control low high)) }
{
    match behind(words, b"cv")? {
        [channel, number, set @ ..] => {
            let channel = channel_of(channel)?;
            let number = number_of(number, 127)?;
            match set_of(set) {
                Some((target, control, low, high)) => Some(Binding::Sweep {
                    channel,
                    number: number as u8,
                    target,
                    control,
                    low,
                    high,
                }),
                None => None,
            }
        }
        _ => None,
    }
}

/// The binding that words spell, whatever it is allowed for.
pub fn binding_of(words: &[&[u8]]) -> Option<Binding>
    ensures found { IfSome result (λ binding. Spell (map (λ w. w.now) words.now) binding) }
    ensures only { IfNone result
        ((binding : Binding) → ¬ Spell (map (λ w. w.now) words.now) binding) }
{
    if let Some(binding) = give_of(words) {
        return Some(binding);
    }
    sweep_of(words)
}
