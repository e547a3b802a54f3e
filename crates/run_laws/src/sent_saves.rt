//! Each save of a run is one whose blocks may follow, and blocks that may follow are those of
//! saves.

ghost use Rattle.std.specs.Prelude.{◌≡◌, ℕ, ◌+◌, ◌*◌, ◌/◌, ◌≤◌, ◌<◌, List, [], ◌++◌, length, take, IsTrue, Some, None};
ghost use Rattle.std.specs.List.{AllByRecursion};
ghost use Rattle.sl_base.specs.Sounds.{Sound};
ghost use Rattle.sl_commands.specs.declared.Block.{Block};
ghost use Rattle.sl_commands.specs.declared.Entry.{Entry};
ghost use Rattle.sl_commands.specs.Settings.{LooperSettings, are_settings};
ghost use Rattle.sl_commands.specs.Blocks.{parts_of, place_of, may_all_follow};
ghost use Rattle.looper_rules.specs.Looper.{Looper};
ghost use Rattle.looper_rules.specs.Saves.{Save, settings_of};
ghost use Rattle.looper_rules.specs.Entries.{save};
ghost use Rattle.looper_rules.specs.Run.{begun, run, start};
ghost use Rattle.looper_rules.specs.Cuts.{run_from};
ghost use Rattle.looper_rules.specs.SaveBlocks.{blocks_of_save, blocks_for_all, ends_in, IsMade, AreSent, BeginSaves};
ghost use Rattle.looper_rules.specs.Reached.{KeepsLooper, IsBeginning};

/// Each save of a run is one whose blocks may follow: its target has as many lists, none is too
/// long, and a session's name leaves room for its files' names. Its name is one, its settings lie
/// in their ranges, and a release can name its target.
pub fn each_save_of_a_run_may_be_sent()
    ensures made { (frame : ℕ) → (e : Entry) → (l : Looper) → (s : Save) → KeepsLooper frame l →
        save e l ≡ Some s → IsMade s }
    ensures begun { (frame : ℕ) → (es : List Entry) → (xs : List Sound) → (l : Looper) →
        KeepsLooper frame l →
        AllByRecursion IsMade (begun frame es xs l).saves }
    ensures from { (frame : ℕ) → (es : List Entry) → (xs : List Sound) → (l : Looper) →
        KeepsLooper frame l →
        AllByRecursion IsMade (run_from frame es xs l).saves }
    ensures run { (s : LooperSettings) → (chunks : ℕ) → (lists : List (List Sound)) →
        (es : List Entry) → (input : List Sound) →
        IsBeginning s chunks lists →
        AllByRecursion IsMade (run es input (start s chunks lists)).saves }

    // In the order of their numbers, which begin with 0.
    ensures sent { (s : LooperSettings) → (chunks : ℕ) → (lists : List (List Sound)) →
        (es : List Entry) → (input : List Sound) →
        IsBeginning s chunks lists → AreSent 0 (run es input (start s chunks lists)).saves }
{}

/// The settings that a looper has, and so tells in its saves, lie in their ranges.
pub fn the_settings_of_a_looper_lie_in_their_ranges()
    ensures { (frame : ℕ) → (l : Looper) → KeepsLooper frame l →
        IsTrue (are_settings (settings_of l)) }
{}

/// The blocks of saves that are numbered in order may follow one another, behind the blocks of
/// those before them, on a ring for as many saves. Behind them so many whole saves have come, and
/// none has begun.
pub fn the_blocks_of_saves_may_follow()
    ensures follow { (blocks : List Block) → (first bound : ℕ) → (saves : List Save) →
        AreSent first saves →
        place_of blocks ≡ Some (record { saves = first; underway = None }) →
        first + length saves ≤ bound →
        IsTrue (may_all_follow blocks (blocks_for_all saves) bound) }
    ensures place { (blocks : List Block) → (first : ℕ) → (saves : List Save) →
        AreSent first saves →
        place_of blocks ≡ Some (record { saves = first; underway = None }) →
        place_of (blocks ++ blocks_for_all saves) ≡ Some
        (record { saves = first + length saves; underway = None }) }
{}

/// A list has as many parts as its length divided by 256, rounded up, and so a save has at most 16
/// lists of 65536 parts, a head and an end.
pub fn a_save_has_so_many_blocks_at_most()
    ensures parts { (save index : ℕ) → (list : List Sound) →
        length (parts_of save index list) ≡ (length list + 255) / 256 }
    ensures save { (s : Save) → IsMade s → length (blocks_of_save s) ≤ 1048578 }
    ensures all { (saves : List Save) → AllByRecursion IsMade saves →
        length (blocks_for_all saves) ≤ length saves * 1048578 }
{}

/// Whatever blocks may follow one by one on a ring are the first blocks of some saves, numbered
/// from 0 and at most as many as the ring is for, each of which has all its lists.
pub fn blocks_that_may_follow_begin_those_of_saves()
    ensures { (blocks : List Block) → (bound : ℕ) → IsTrue (may_all_follow [] blocks bound) →
        BeginSaves bound blocks }
{}

/// One save ends in the blocks of each, and it does so with the last of them.
pub fn a_save_ends_with_its_last_block()
    ensures append { (first next : List Block) →
        ends_in (first ++ next) ≡ ends_in first + ends_in next }
    ensures save { (s : Save) → ends_in (blocks_of_save s) ≡ 1 }
    ensures all { (saves : List Save) → ends_in (blocks_for_all saves) ≡ length saves }
    ensures before { (count : ℕ) → (s : Save) → count < length (blocks_of_save s) →
        ends_in (take count (blocks_of_save s)) ≡ 0 }
{}
