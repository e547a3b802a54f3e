//! What holds of the definitions.

ghost use Rattle.std.specs.Prelude.{◌≡◌, ◌≤◌, ℕ, List, Some};
ghost use Rattle.sl_base.specs.Limits.{max_loops};
ghost use Rattle.midi_bindings.specs.declared.binding.Binding.{Binding};
ghost use Rattle.sl_commands.specs.declared.fault.TextKind.{TextKind};
ghost use Rattle.text_lines.specs.FirstFaults.{FirstFault};
ghost use Rattle.midi_reader.specs.declared.event.MidiEvent.{MidiEvent};
ghost use Rattle.midi_reader.specs.Events.{IsEvent};
ghost use Rattle.sl_commands.specs.declared.command.Command.{Command};
ghost use Rattle.midi_bindings.specs.Lookups.{looked_up};
ghost use Rattle.midi_bindings.specs.Played.{MayBePlayed};
ghost use Rattle.midi_bindings.specs.Texts.{AreBindings, IsBindings, bindings_form, bindings_text};

/// What is written of bindings is their text, and a text is what is written of its bindings.
pub fn bindings_come_back()
    ensures written { (loops : ℕ) (bindings : List Binding) → AreBindings loops bindings →
        IsBindings loops (bindings_text bindings) bindings }
    ensures read { (loops : ℕ) (bytes : List ℕ) (bindings : List Binding) →
        IsBindings loops bytes bindings → bindings_text bindings ≡ bytes }
{}

/// Bytes have one reading: their bindings, or a first fault.
pub fn bindings_have_one_reading()
    ensures bindings { (loops : ℕ) (bytes : List ℕ) (bindings others : List Binding) →
        loops ≤ max_loops → IsBindings loops bytes bindings → IsBindings loops bytes others →
        others ≡ bindings }
    ensures fault { (loops : ℕ) (bytes : List ℕ) (line other : ℕ) (kind kind_too : TextKind) →
        loops ≤ max_loops
        → FirstFault (bindings_form loops) bytes line kind → FirstFault (bindings_form loops) bytes
        other kind_too → (line ≡ other) × (kind ≡ kind_too) }
    ensures either { (loops : ℕ) (bytes : List ℕ) (bindings : List Binding) (line : ℕ)
        (kind : TextKind) → loops ≤ max_loops
        → IsBindings loops bytes bindings → ¬ FirstFault (bindings_form loops) bytes line kind }
{}

/// What is looked up at an event gives a verb or sets a control of a loop, and is allowed for the
/// loops of the bindings: a sweep's value lies between its ends. So it is no release, and asks for
/// nothing.
pub fn what_is_bound_may_be_played()
    ensures { (loops : ℕ) (bindings : List Binding) (event : MidiEvent) (command : Command) →
        AreBindings loops bindings → IsEvent event → looked_up bindings event ≡ Some command →
        MayBePlayed loops command }
{}
