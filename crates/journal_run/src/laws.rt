//! What holds of the definitions.

ghost use Rattle.std.specs.Prelude.{◌≡◌, List, length};
ghost use Rattle.sl_commands.specs.declared.entry.Entry.{Entry};
ghost use Rattle.wav_pcm.specs.Inputs.{InputOf};
ghost use Rattle.looper_rules.specs.Looper.{Looper};
ghost use Rattle.journal_run.specs.Performing.{ran_over};

/// What is heard in a run is as long as its input.
pub fn a_run_is_as_long_as_its_input()
    ensures { (entries : List Entry) (input : InputOf) (looper : Looper) →
        length (ran_over entries input looper).output ≡ length input.frames }
{}
