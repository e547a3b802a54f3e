//! More loops than a journal speaks of change nothing of what is heard.

ghost use Rattle.std.specs.Prelude.{◌≡◌, ℕ, List, length, All};
ghost use Rattle.sl_base.specs.Sounds.{Sound};
ghost use Rattle.sl_commands.specs.declared.Entry.{Entry};
ghost use Rattle.sl_commands.specs.declared.StripSettings.{StripSettings};
ghost use Rattle.sl_commands.specs.Settings.{LooperSettings};
ghost use Rattle.looper_rules.specs.Run.{run, start};
ghost use Rattle.looper_rules.specs.Reached.{IsBeginning};
ghost use Rattle.engine_steps.specs.MoreLoops.{SpeaksOf, with_more};

/// With more loops behind the others, which begin empty, entries that are valid for the fewer and
/// name no target of all loops sound the same.
pub fn more_loops_sound_the_same()
    ensures { (settings : LooperSettings) → (more : List StripSettings) → (chunks : ℕ) →
        (initial : List (List Sound)) →
        (es : List Entry) → (input : List Sound) → IsBeginning settings chunks initial →
        All (SpeaksOf (length settings.strips)) es →
        (run es input (start (with_more more settings) chunks initial)).output
        ≡ (run es input (start settings chunks initial)).output }
{}
