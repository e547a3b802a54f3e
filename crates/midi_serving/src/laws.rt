//! What holds of the definitions.

ghost use Rattle.std.specs.Prelude.{ℕ, List};
ghost use Rattle.midi_bindings.specs.declared.binding.Binding.{Binding};
ghost use Rattle.midi_bindings.specs.Texts.{AreBindings};
ghost use Rattle.senders.specs.declared.decision.Decision.{Decision};
ghost use Rattle.senders.specs.Tallies.{TallyOf};
ghost use Rattle.senders.specs.Hearing.{Hears};
ghost use Rattle.senders.specs.Senders.{bytes_inputs};
ghost use Rattle.midi_serving.specs.Playing.{ArePlayed};

/// Where the bindings are those of so many loops, each command that is accepted of bytes gives a
/// verb or sets a control of a loop, and is allowed.
pub fn what_midi_plays_may_be_played()
    ensures { (loops : ℕ) (bindings : List Binding) (before bytes : List ℕ) (capacity : ℕ)
        (old new : TallyOf) (decided : List Decision) → AreBindings loops bindings →
        Hears capacity (bytes_inputs bindings before bytes) old new decided →
        ArePlayed loops old.accepted → ArePlayed loops new.accepted }
{}
