//! Reading bindings.

ghost use Rattle.std.specs.Prelude.{◌≡◌, ◌≤◌, ℕ, List, IfOk, IfErr, OnOk};
ghost use Rattle.sl_base.specs.Limits.{max_loops};
ghost use Rattle.midi_bindings.specs.declared.binding.Binding.{Binding};
ghost use Rattle.text_lines.specs.FirstFaults.{IsReason};
ghost use Rattle.text_lines.specs.Taking.{IsTaken, IsRefused, DeniesAll};
ghost use Rattle.midi_bindings.specs.Texts.{bindings_form, IsBindings};

use crate::bindings::Bindings;
use crate::line::read_line;
use sl_base::MAX_BINDING_LINES;
use sl_commands::{ReadText, TextKind};
use std::alloc::Global;
use std::marker::Model;
use text_lines::{FormLines, Refused, read_form};

/// The most lines.
const MAX_LINES: u32 = MAX_BINDING_LINES as u32;

/// Takes one line behind those so far. An error leaves them as they were.
fn take_line(so_far: &mut Bindings, line: &[u8], loops: u8) -> Result<(), Refused>
    requires { loops ≤ max_loops }
    ensures ok { OnOk result (IsTaken (bindings_form loops) so_far.old line.now so_far.new) }
    ensures wrong { IfErr result (IsRefused (bindings_form loops) so_far.old line.now) }
{
    if so_far.count() == MAX_LINES {
        return Err(Refused::Wrong(TextKind::TooMany));
    }
    match read_line(line, loops) {
        Ok(binding) => match so_far.push(binding) {
            Ok(()) => Ok(()),
            Err(_) => Err(Refused::Memory),
        },
        Err(kind) => Err(Refused::Wrong(kind)),
    }
}

/// The bindings so far, for so many loops.
#[derive(Drop)]
struct BindingLines {
    so_far: Bindings,
    /// 16 at most.
    loops: u8,
}

impl Model for BindingLines {
    ghost use Rattle.std.specs.Prelude.{◌≤◌, ℕ, List};
    ghost use Rattle.sl_base.specs.Limits.{max_loops};
    ghost use Rattle.midi_bindings.specs.declared.binding.Binding.{Binding};

    ghost Value = { ℕ × List Binding };

    ghost view = { λ l. (l.loops, l.so_far) };

    ghost invariant = { λ l. l.loops ≤ max_loops };
}

impl FormLines for BindingLines {
    ghost use Rattle.midi_bindings.specs.declared.binding.Binding.{Binding};
    ghost use Rattle.midi_bindings.specs.Texts.{bindings_form};

    ghost Item = { Binding };

    ghost form = { bindings_form };

    ghost given = { λ l. l.0 };

    ghost items = { λ l. l.1 };

    fn header(&self) -> &[u8] {
        b"looper bindings 1".as_slice()
    }

    fn count(&self) -> u32 {
        self.so_far.count()
    }

    fn take_line(&mut self, line: &[u8]) -> Result<(), Refused> {
        take_line(&mut self.so_far, line, self.loops)
    }
}

/// Reads bindings for so many loops, 16 at most: their lines, or the first fault. `Memory` may come
/// at any text.
pub fn read_bindings(alloc: Global, bytes: &[u8], loops: u8) -> Result<Bindings, ReadText>
    requires { loops ≤ max_loops }
    ensures found { IfOk result (λ bindings. IsBindings loops bytes.now bindings) }
    ensures one { IfOk result (λ bindings. (others : List Binding) →
        IsBindings loops bytes.now others → others ≡ bindings) }
    ensures fault { IfErr result (IsReason (bindings_form loops) bytes.now) }
    ensures only { IfErr result (DeniesAll (λ bindings. IsBindings loops bytes.now bindings)) }
{
    let none = BindingLines {
        so_far: Bindings::new(alloc),
        loops,
    };
    match read_form(none, bytes) {
        Ok(lines) => Ok(lines.so_far),
        Err(why) => Err(why),
    }
}
