//! The releases of a live session stand behind their saves.

ghost use Rattle.std.specs.Prelude.{◌≡◌, List, ◌∷◌, ◌++◌};
ghost use Rattle.sl_base.specs.Sounds.{Sound};
ghost use Rattle.sl_commands.specs.declared.Entry.{Entry};
ghost use Rattle.engine_steps.specs.Engines.{EngineOf, Beginning, first_looper};
ghost use Rattle.live_steps.specs.Passed.{Passed};
ghost use Rattle.live_steps.specs.InStep.{AreInStep};
ghost use Rattle.release_laws.specs.Releases.{StandsBehindItsSave, AsManyAnswered};

/// In a session whose engine and rings are in step, as many saves are answered as the saver has
/// entries: so each of its entries answers the save of an entry before it.
pub fn a_live_session_releases_each_save_behind_it()
    ensures many { (b : Beginning) → (input output : List Sound) → (e : EngineOf) → (p : Passed) →
        AreInStep b input output e p → AsManyAnswered e.journal.entries input (first_looper b) }
    ensures behind { (b : Beginning) → (input output : List Sound) → (e : EngineOf) →
        (p : Passed) → (before : List Entry) → (en : Entry) → (after : List Entry) →
        AreInStep b input output e p → e.journal.entries ≡ before ++ en ∷ after → en.sender ≡ 2 →
        StandsBehindItsSave before en input (first_looper b) }
{}
