//! The steps of a save are its blocks.

ghost use Rattle.std.specs.Prelude.{◌≡◌, ◌<◌, ℕ, List, length, map, Some, slice_get};
ghost use Rattle.sl_base.specs.Sounds.{Sound};
ghost use Rattle.sl_commands.specs.declared.Target.{Target};
ghost use Rattle.sl_commands.specs.Settings.{LooperSettings};
ghost use Rattle.sl_commands.specs.Blocks.{blocks_of};
ghost use Rattle.looper_engine.specs.Steps.{block_count, step_at, block_of};

/// The block of each number is what its step says, by the lists of the save.
pub fn each_step_is_the_block()
    ensures { (save : ℕ) → (name : List ℕ) → (target : Target) → (settings : LooperSettings) →
        (lists : List (List Sound)) → (block : ℕ) →
        block < block_count (map length lists) →
        slice_get (blocks_of save name target settings lists) block
        ≡ Some (block_of (step_at (map length lists) block) save name target settings lists) }
{}

/// There are as many blocks as steps.
pub fn a_save_has_as_many_blocks_as_steps()
    ensures { (save : ℕ) → (name : List ℕ) → (target : Target) → (settings : LooperSettings) →
        (lists : List (List Sound)) →
        length (blocks_of save name target settings lists) ≡ block_count (map length lists) }
{}
