//! What holds of the definitions: each function's clause is a law, and its body is empty.

ghost use Rattle.std.specs.Prelude.{◌≡◌, ◌≢◌, ℕ, ◌<◌, ◌&&◌, ◌+◌, ◌≤◌, nat_lt, pos, List, [], ◌∷◌, length, ◌++◌, ◌↔◌, IsTrue, slice_get};
ghost use Rattle.sl_commands.specs.Verbs.{verb_name, verb_number, verbs};
ghost use Rattle.sl_commands.specs.Commands.{target_number, numbered_target};
ghost use Rattle.std.specs.List.{list_all};
ghost use Rattle.sl_commands.specs.Replies.{what_name};
ghost use Rattle.sl_commands.specs.Controls.{control_name, is_in_range, can_be_set, default_of};
ghost use Rattle.sl_commands.specs.Blocks.{Underway, blocks_of, place_of, save_of, may_follow, may_all_follow, IsSave};
ghost use Rattle.sl_commands.specs.Entries.{entries_of, commands_of, are_stamped, may_be_next, IsStamped};
ghost use Rattle.sl_commands.specs.declared.block.Block.{Block as BlockOf};
ghost use Rattle.sl_commands.specs.declared.entry.Entry.{Entry as EntryOf};

use crate::block::Block;
use crate::command::{Command, Target};
use crate::control::Control;
use crate::entry::Entry;
use crate::reply::What;
use crate::settings::{Initial, Settings};
use crate::verb::Verb;
use sl_base::Name;

/// A name is the name of one verb alone.
pub fn verbs_differ_in_their_names(verb: Verb, other: Verb)
    ensures { verb_name verb ≡ verb_name other → verb ≡ other }
{}

/// The verbs stand by their numbers in the list of all.
pub fn verbs_stand_by_their_numbers(verb: Verb)
    ensures { slice_get verbs (verb_number verb) ≡ Some verb }
{}

/// A name is the name of one control alone.
pub fn controls_differ_in_their_names(control: Control, other: Control)
    ensures { control_name control ≡ control_name other → control ≡ other }
{}

/// No value is in the range of a control that can't be set.
pub fn only_what_can_be_set_has_a_range(control: Control, value: i32, loops: u8)
    ensures { IsTrue (is_in_range control value loops) → IsTrue (can_be_set control) }
{}

/// What can be set begins in its range, where there is a loop.
pub fn controls_begin_in_their_ranges(control: Control, loops: u8)
    requires { 0 < loops }
    ensures { IsTrue (can_be_set control) →
        IsTrue (is_in_range control (pos (default_of control)) loops) }
{}

/// The name of what is answered has at most 32 bytes, and none of them is zero.
pub fn what_is_answered_has_a_short_name(what: What)
    ensures short { length (what_name what) ≤ 32 }
    ensures plain { IsTrue (list_all (nat_lt 0) (what_name what)) }
{}

/// Verbs are equal where they are the same.
pub fn equal_verbs_are_the_same(verb: Verb, other: Verb)
    ensures { IsTrue (⟦<Verb as PartialEq>⟧.eq verb other) ↔ (verb ≡ other) }
{}

/// Controls are equal where they are the same.
pub fn equal_controls_are_the_same(control: Control, other: Control)
    ensures { IsTrue (⟦<Control as PartialEq>⟧.eq control other) ↔ (control ≡ other) }
{}

/// Commands are equal where contracts see the same, and only there.
pub fn equal_commands_are_the_same(command: &Command, other: &Command)
    ensures { IsTrue (⟦<Command as PartialEq>⟧.eq command.now other.now) ↔
        (command.now ≡ other.now) }
{
    // The cases are told apart for the proof alone.
    match command {
        Command::Down(_, verb) => {
            if let Command::Down(_, other_verb) = other {
                equal_verbs_are_the_same(*verb, *other_verb);
            }
        }
        Command::Up(_, verb) => {
            if let Command::Up(_, other_verb) = other {
                equal_verbs_are_the_same(*verb, *other_verb);
            }
        }
        Command::Hit(_, verb) => {
            if let Command::Hit(_, other_verb) = other {
                equal_verbs_are_the_same(*verb, *other_verb);
            }
        }
        Command::Set(_, control, _) => {
            if let Command::Set(_, other_control, _) = other {
                equal_controls_are_the_same(*control, *other_control);
            }
        }
        Command::Get(_, control) => {
            if let Command::Get(_, other_control) = other {
                equal_controls_are_the_same(*control, *other_control);
            }
        }
        Command::SetGlobal(_, _) => {}
        Command::GetGlobal(_) => {}
        Command::SaveLoop(_, _) => {}
        Command::SaveSession(_) => {}
        Command::Release(_, _) => {}
        Command::Quit => {}
    }
}

/// Entries are equal where contracts see the same, and only there.
pub fn equal_entries_are_the_same(entry: &Entry, other: &Entry)
    ensures { IsTrue (⟦<Entry as PartialEq>⟧.eq entry.now other.now) ↔ (entry.now ≡ other.now) }
{
    equal_commands_are_the_same(&entry.command, &other.command);
}

/// The target of a number comes back from it.
pub fn targets_come_back_from_their_numbers(target: Target)
    ensures { numbered_target (target_number target) ≡ Some target }
{}

/// Entries are stamped with one more where they are without it and it may be next.
pub fn a_stamped_list_grows_at_its_end(entries: &[Entry], entry: &Entry)
    ensures { are_stamped (entries.now ++ entry.now ∷ [])
        ≡ (are_stamped entries.now && may_be_next entries.now entry.now) }
{}

/// Entries are stamped where frames never fall and each sender's numbers are 0, 1, 2 and so on, and
/// only there.
pub fn stamped_entries_are_in_order(entries: &[Entry])
    ensures found { IsTrue (are_stamped entries.now) → IsStamped entries.now }
    ensures only { IsStamped entries.now → IsTrue (are_stamped entries.now) }
{}

/// With one entry more a sender has its commands from before, and that entry's where it is its own.
pub fn a_senders_commands_grow_by_its_entry()
    ensures own { (sender : ℕ) → (es : List EntryOf) → (e : EntryOf) → e.sender ≡ sender →
        commands_of sender (es ++ e ∷ []) ≡ commands_of sender es ++ e.command ∷ [] }
    ensures others { (sender : ℕ) → (es : List EntryOf) → (e : EntryOf) → e.sender ≢ sender →
        commands_of sender (es ++ e ∷ []) ≡ commands_of sender es }
    ensures count { (sender : ℕ) → (es : List EntryOf) →
        length (commands_of sender es) ≡ length (entries_of sender es) }
{}

/// The blocks of a save may come one after another, behind whole saves as many as its number.
pub fn a_whole_save_may_follow(
    sent: &[Block],
    save: u32,
    name: &Name,
    target: Target,
    settings: &Settings,
    lists: &Initial,
)
    requires due { place_of sent.now ≡ Some (record { saves = save; underway = None }) }
    requires save { IsSave target name.now (length settings.now.strips) lists.now }
    ensures follow { (bound : ℕ) → save < bound →
        IsTrue (may_all_follow sent.now (blocks_of save name.now target settings.now lists.now)
        bound) }
    ensures done { place_of (sent.now ++ blocks_of save name.now target settings.now lists.now)
        ≡ Some (record { saves = save + 1; underway = None }) }
{}

/// Before a save has ended, no block of another may come.
pub fn a_save_is_sent_to_its_end(sent: &[Block], block: &Block, bound: u32)
    ensures { (save : ℕ) (underway : Underway) →
        place_of sent.now ≡ Some (record { saves = save; underway = Some underway })
        → IsTrue (may_follow sent.now block.now bound) → save_of block.now ≡ save }
{}

/// Blocks may follow one another where the first ones may, and the others behind these. So each of
/// them may follow those before it.
pub fn blocks_that_may_follow_may_be_cut()
    ensures cut { (sent first next : List BlockOf) → (bound : ℕ) →
        may_all_follow sent (first ++ next) bound
        ≡ (may_all_follow sent first bound && may_all_follow (sent ++ first) next bound) }
    ensures next { (sent first rest : List BlockOf) → (b : BlockOf) → (bound : ℕ) →
        IsTrue (may_all_follow sent (first ++ b ∷ rest) bound) →
        IsTrue (may_follow (sent ++ first) b bound) }
{}
