//! What holds of an engine's calls together.

ghost use Rattle.std.specs.Prelude.{◌≡◌, List, ◌++◌, length, All, Some, option_to_list, IsTrue};
ghost use Rattle.sl_base.specs.Sounds.{Sound};
ghost use Rattle.sl_commands.specs.declared.Entry.{Entry};
ghost use Rattle.sl_commands.specs.declared.StripSettings.{StripSettings};
ghost use Rattle.sl_commands.specs.Entries.{are_stamped};
ghost use Rattle.looper_rules.specs.Saves.{Save};
ghost use Rattle.looper_rules.specs.Entries.{save};
ghost use Rattle.looper_rules.specs.Reached.{IsBeginning};
ghost use Rattle.looper_rules.specs.SaveBlocks.{blocks_of_save, blocks_for_all};
ghost use Rattle.run_laws.specs.Places.{ComesWithEntry};
ghost use Rattle.engine_steps.specs.Engines.{EngineOf, Beginning, first_looper, left, took, went_on, put_out};
ghost use Rattle.engine_steps.specs.InStep.{SoFar, IsInStep, IsPart};
ghost use Rattle.engine_steps.specs.MoreLoops.{SpeaksOf};
ghost use Rattle.looper_engine.specs.Stretches.{in_one, went_on_in, put_out_in, with_more_loops};

/// Frames over a list are frames over its stretches, however it is cut.
pub fn frames_are_those_of_their_stretches()
    ensures engine { (stretches : List (List Sound)) → (e : EngineOf) →
        went_on (in_one stretches) e ≡ went_on_in stretches e }
    ensures output { (stretches : List (List Sound)) → (e : EngineOf) →
        put_out (in_one stretches) e ≡ put_out_in stretches e }
{}

/// Two engines with the same journal and the same input so far put out the same, where one has more
/// loops behind those of the other, which begin empty, and each entry speaks of the fewer.
pub fn an_engine_with_more_loops_sounds_the_same()
    ensures { (b : Beginning) → (more : List StripSettings) → (s now : SoFar) →
        (e with : EngineOf) → IsBeginning b.settings b.chunks b.initial →
        IsInStep b s e → IsInStep (with_more_loops more b) now with →
        with.journal.entries ≡ e.journal.entries → now.input ≡ s.input →
        All (SpeaksOf (length b.settings.strips)) e.journal.entries → now.output ≡ s.output }
{}

/// The blocks of a save come behind all that are left, with the lists that it has at its entry.
/// Frames leave them as they are.
pub fn the_blocks_of_a_save_hold_its_lists_at_its_entry()
    ensures made { (en : Entry) → (e : EngineOf) → (made : Save) → IsPart e.sending e.part →
        save en e.looper ≡ Some made →
        left (took en e) ≡ left e ++ blocks_of_save made }
    ensures taken { (en : Entry) → (e : EngineOf) → IsPart e.sending e.part →
        left (took en e) ≡ left e ++ blocks_for_all (option_to_list (save en e.looper)) }
    ensures played { (xs : List Sound) → (e : EngineOf) → left (went_on xs e) ≡ left e }

    // Of all that was sent and is left: each save is what its entry met.
    ensures met { (b : Beginning) → (s : SoFar) → (e : EngineOf) →
        IsTrue (are_stamped e.journal.entries) → IsInStep b s e →
        All (ComesWithEntry save e.journal.entries s.input (first_looper b)) s.saves }
    ensures sent { (b : Beginning) → (s : SoFar) → (e : EngineOf) → IsInStep b s e →
        s.sent ++ left e ≡ blocks_for_all s.saves }
{}
