//! A list of bindings.

ghost use Rattle.std.specs.Prelude.{◌≡◌, ◌<◌, ◌≤◌, ◌++◌, ◌∷◌, [], length, IsTrue, OnOk, OnErr};
ghost use Rattle.sl_base.specs.Limits.{max_loops, max_binding_lines};
ghost use Rattle.midi_bindings.specs.Lines.{is_binding};
ghost use Rattle.midi_bindings.specs.Lookups.{looked_up};

use crate::binding::Binding;
use crate::lookup::first_given;
use midi_reader::MidiEvent;
use sl_base::Memory;
use sl_commands::Command;
use std::alloc::Global;
use std::marker::Model;

/// The lines of bindings, 1024 at most, each within the ranges for 16 loops.
#[derive(Drop)]
pub struct Bindings {
    lines: Vec<Binding>,
}

impl Model for Bindings {
    ghost use Rattle.std.specs.Prelude.{List};
    ghost use Rattle.midi_bindings.specs.declared.binding.Binding.{Binding};

    ghost Value = { List Binding };

    ghost use Rattle.midi_bindings.specs.Texts.{AreBindings};
    ghost use Rattle.sl_base.specs.Limits.{max_loops};

    ghost view = { λ b. b.lines.items };

    ghost invariant = { λ b. AreBindings max_loops b.lines.items };
}

impl Bindings {
    /// No bindings.
    pub fn new(alloc: Global) -> Bindings
        ensures { result ≡ [] }
    {
        Bindings {
            lines: Vec::new(alloc),
        }
    }

    /// Puts one line at the end. After `Memory` the list is as before.
    pub fn push(&mut self, binding: Binding) -> Result<(), Memory>
        requires room { length self.old < max_binding_lines }
        requires valid { IsTrue (is_binding max_loops binding) }
        ensures ok { OnOk result (self.new ≡ self.old ++ binding ∷ []) }
        ensures unchanged { OnErr result (self.new ≡ self.old) }
    {
        self.lines.push(binding)?;
        Ok(())
    }

    /// The lines, in order.
    pub fn as_slice(&self) -> &[Binding]
        ensures { result.now ≡ self.now }
    {
        &self.lines
    }

    /// How many lines there are.
    pub fn count(&self) -> u32
        ensures value { result ≡ length self.now }
        ensures within { length self.now ≤ max_binding_lines }
    {
        self.lines.len() as u32
    }

    /// The command of the first line that the event matches, or None exactly where it matches none.
    /// No memory is taken.
    pub fn lookup(&self, event: MidiEvent) -> Option<Command>
        ensures { result ≡ looked_up self.now event }
    {
        first_given(&self.lines, event)
    }
}
