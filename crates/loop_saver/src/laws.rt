//! What holds of the definitions.

ghost use Rattle.std.specs.Prelude.{◌≡◌, ℕ, ◌+◌, ◌++◌, ◌∷◌, [], List, Option, None, length, IsTrue};
ghost use Rattle.std.specs.List.{AllByRecursion};
ghost use Rattle.sl_base.specs.Counting.{RoseBy};
ghost use Rattle.sl_commands.specs.declared.block.Block.{Block};
ghost use Rattle.sl_commands.specs.Blocks.{may_follow, may_all_follow};
ghost use Rattle.sl_commands.specs.Commands.{is_outcome};
ghost use Rattle.looper_rules.specs.Saves.{Save};
ghost use Rattle.looper_rules.specs.SaveBlocks.{blocks_of_save, blocks_for_all, MayBeSent};
ghost use Rattle.loop_saver.specs.declared.saver.Saved.{Saved};
ghost use Rattle.loop_saver.specs.SavedFiles.{files_of_save};
ghost use Rattle.loop_saver.specs.Savers.{SavingOf, may_come, due_for_all, may_all_come, behind_all};
ghost use Rattle.loop_saver.specs.Accepting.{Accepts};
ghost use Rattle.loop_saver.specs.Keeping.{Keeps, HasCome, WroteSaves, outcome_in, failed_in};

use sl_ports::Keeper;

/// The blocks of a save may come one after another, and behind them none is underway.
pub fn the_blocks_of_a_save_may_come()
    ensures come { (s : Save) → MayBeSent s → IsTrue (may_all_come None (blocks_of_save s)) }
    ensures over { (s : Save) → behind_all None (blocks_of_save s) ≡ None }
{}

/// The files that the blocks of a save make due are its files, in their order.
pub fn the_files_of_a_save_are_due_at_its_blocks()
    ensures { (rate : ℕ) → (s : Save) →
        due_for_all rate None (blocks_of_save s) ≡ files_of_save rate s }
{}

/// Blocks that are accepted one after another, and then others, are all accepted; each outcome that
/// they give is one of a save.
pub fn blocks_are_accepted_one_after_another<P: Keeper>()
    ensures one { (rate : ℕ) → (b : Block) → (saving after : Option SavingOf) → (old new : P) →
        (answer : Saved) → Accepts P.Keeper rate b saving after old new answer →
        Keeps P.Keeper rate (b ∷ []) saving old (outcome_in answer) after new }
    ensures more { (rate : ℕ) → (bs others : List Block) → (saving mid after : Option SavingOf) →
        (old now new : P) → (outs more : List ℕ) → Keeps P.Keeper rate bs saving old outs mid now →
        Keeps P.Keeper rate others mid now more after new →
        Keeps P.Keeper rate (bs ++ others) saving old (outs ++ more) after new }
    ensures outcomes { (rate : ℕ) → (bs : List Block) → (saving after : Option SavingOf) →
        (old new : P) → (outs : List ℕ) → Keeps P.Keeper rate bs saving old outs after new →
        AllByRecursion (λ o. IsTrue (is_outcome o)) outs }
{}

/// A saver that accepted blocks in their order is at the place that they lead to, also after a
/// write that failed. So a block that may follow them is one that may come.
pub fn a_saver_is_where_its_blocks_lead<P: Keeper>()
    ensures first { HasCome None [] 0 }
    ensures behind { (rate bound : ℕ) → (taken bs : List Block) → (saves : ℕ) →
        (saving after : Option SavingOf) → (old new : P) → (outs : List ℕ) →
        HasCome saving taken saves → IsTrue (may_all_follow taken bs bound) →
        Keeps P.Keeper rate bs saving old outs after new →
        HasCome after (taken ++ bs) (saves + length outs) }
    ensures next { (taken : List Block) → (b : Block) → (bound saves : ℕ) →
        (saving : Option SavingOf) → HasCome saving taken saves →
        IsTrue (may_follow taken b bound) → IsTrue (may_come saving b) }
{}

/// The blocks of saves give one outcome a save, and write the files of these saves in order: all of
/// one that is answered 0, and the first of another. The outcomes 1 are at most as many as by which
/// the keeper's count of failed writes rose.
pub fn the_files_of_saves_are_written_save_after_save<P: Keeper>()
    ensures written { (rate : ℕ) → (saves : List Save) → (old new : P) → (outs : List ℕ) →
        (after : Option SavingOf) → AllByRecursion MayBeSent saves →
        Keeps P.Keeper rate (blocks_for_all saves) None old outs after new →
        (after ≡ None) × WroteSaves P.Keeper rate saves old outs new }
    ensures failed { (rate : ℕ) → (saves : List Save) → (old new : P) → (outs : List ℕ) →
        WroteSaves P.Keeper rate saves old outs new →
        RoseBy (failed_in outs) (P.write_faults old) (P.write_faults new) }
{}
