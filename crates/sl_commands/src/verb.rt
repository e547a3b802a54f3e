//! What is done to a loop, and the names of it.

ghost use Rattle.std.specs.Prelude.{◌≡◌, ◌≢◌, ◌≤◌, IfSome, IfNone};
ghost use Rattle.std.specs.List.{find};
ghost use Rattle.sl_commands.specs.declared.verb.Verb.{Verb};
ghost use Rattle.sl_commands.specs.Verbs.{verb_name, verb_number, has_verb_name, verbs};

/// What is done to a loop, in the order of the table.
#[derive(Clone, Copy, PartialEq, Eq)]
pub enum Verb {
    Rec,
    Overdub,
    Multiply,
    Insert,
    Replace,
    Substitute,
    Mute,
    MuteOn,
    MuteOff,
    OneShot,
    Trigger,
    Reverse,
    Pause,
    Undo,
    Redo,
    UndoAll,
    RedoAll,
}

/// All verbs, by their numbers.
const VERBS: [Verb; 17] = [
    Verb::Rec,
    Verb::Overdub,
    Verb::Multiply,
    Verb::Insert,
    Verb::Replace,
    Verb::Substitute,
    Verb::Mute,
    Verb::MuteOn,
    Verb::MuteOff,
    Verb::OneShot,
    Verb::Trigger,
    Verb::Reverse,
    Verb::Pause,
    Verb::Undo,
    Verb::Redo,
    Verb::UndoAll,
    Verb::RedoAll,
];

impl Verb {
    /// The name in messages and texts.
    pub fn name(self) -> &'static str
        ensures { result.now ≡ verb_name self }
    {
        match self {
            Verb::Rec => "record",
            Verb::Overdub => "overdub",
            Verb::Multiply => "multiply",
            Verb::Insert => "insert",
            Verb::Replace => "replace",
            Verb::Substitute => "substitute",
            Verb::Mute => "mute",
            Verb::MuteOn => "mute_on",
            Verb::MuteOff => "mute_off",
            Verb::OneShot => "oneshot",
            Verb::Trigger => "trigger",
            Verb::Reverse => "reverse",
            Verb::Pause => "pause",
            Verb::Undo => "undo",
            Verb::Redo => "redo",
            Verb::UndoAll => "undo_all",
            Verb::RedoAll => "redo_all",
        }
    }

    /// The number, counted from 0.
    pub fn number(self) -> u8
        ensures { result ≡ verb_number self }
    {
        self as u8
    }

    /// The verb with this number, or None from 17 on.
    pub fn numbered(number: u8) -> Option<Verb>
        ensures found { IfSome result (λ verb. verb_number verb ≡ number) }
        ensures only { IfNone result (17 ≤ number) }
    {
        VERBS.get(number as usize).copied()
    }
}

fn is_named(verb: Verb, bytes: &[u8]) -> bool
    ensures { result ≡ has_verb_name bytes.now verb }
{
    verb.name().as_bytes() == bytes
}

fn first_named(bytes: &[u8]) -> Option<Verb>
    ensures { result ≡ find (has_verb_name bytes.now) verbs }
{
    VERBS.iter().copied().find(|verb| is_named(*verb, bytes))
}

/// The verb that has these bytes as its name.
pub fn verb_of(bytes: &[u8]) -> Option<Verb>
    ensures found { IfSome result (λ verb. bytes.now ≡ verb_name verb) }
    ensures only { IfNone result ((verb : Verb) → bytes.now ≢ verb_name verb) }
{
    first_named(bytes)
}
