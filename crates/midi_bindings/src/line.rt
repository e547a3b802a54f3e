//! The binding that a line spells.

ghost use Rattle.std.specs.Prelude.{◌≡◌, ◌≢◌, ◌≤◌, ℕ, map, IfSome, IfNone, IfOk, IfErr, IsTrue};
ghost use Rattle.sl_base.specs.Limits.{max_loops};
ghost use Rattle.midi_bindings.specs.declared.binding.Binding.{Binding};
ghost use Rattle.midi_bindings.specs.Lines.{binding_words, binding_line, is_binding};
ghost use Rattle.midi_bindings.specs.Texts.{HasNoBinding};

use crate::binding::Binding;
use crate::form::is_form;
use crate::give::binding_of;
use sl_commands::TextKind;
use text_lines::words_of;

/// The binding that words spell, where it may stand for so many loops.
fn valid_of(words: &[&[u8]], loops: u8) -> Option<Binding>
    requires { loops ≤ max_loops }
    ensures found { IfSome result (λ b. (map (λ w. w.now) words.now ≡ binding_words b)
        × IsTrue (is_binding loops b)) }
    ensures only { IfNone result ((b : Binding) → IsTrue (is_binding loops b) →
        map (λ w. w.now) words.now ≢ binding_words b) }
{
    let Some(binding) = binding_of(words) else {
        return None;
    };
    if binding.is_allowed(loops) {
        Some(binding)
    } else {
        None
    }
}

/// Reads one line, for so many loops. An error is `Form` where the line has no form, and else
/// `Value`.
pub fn read_line(line: &[u8], loops: u8) -> Result<Binding, TextKind>
    requires { loops ≤ max_loops }
    ensures found { IfOk result (λ b. (line.now ≡ binding_line b) × IsTrue (is_binding loops b)) }
    ensures wrong { IfErr result (HasNoBinding loops line.now) }
{
    let Some(words) = words_of(line) else {
        return Err(TextKind::Form);
    };
    match valid_of(words.as_slice(), loops) {
        Some(binding) => Ok(binding),
        None => if is_form(words.as_slice()) {
            Err(TextKind::Value)
        } else {
            Err(TextKind::Form)
        },
    }
}
