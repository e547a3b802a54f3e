//! Who asked for a save.

ghost use Rattle.std.specs.Prelude.{◌≡◌};
ghost use Rattle.looper_rules.specs.Saves.{loop_asker, session_asker};

use std::marker::Model;

/// The sender and the number of the entry that made a save, and whether it is a session's.
#[derive(Clone, Copy)]
pub struct Asker {
    pub sender: u8,
    pub seq: u32,
    pub of_session: bool,
}

impl Model for Asker {
    ghost use Rattle.looper_rules.specs.Looper.{Asker as AskerOf};

    ghost Value = { AskerOf };

    ghost view = { λ a. record { sender = a.sender; seq = a.seq; of_session = a.of_session } };

    ghost inverse = { λ a. record { sender = a.sender; seq = a.seq; of_session = a.of_session } };
}

/// The asker, where it asked for a loop's save.
pub(crate) fn loop_asker(asker: Option<Asker>) -> Option<Asker>
    ensures { result ≡ loop_asker asker }
{
    match asker {
        None => None,
        Some(asker) => if asker.of_session { None } else { Some(asker) },
    }
}

/// The asker, where it asked for a session's save.
pub(crate) fn session_asker(asker: Option<Asker>) -> Option<Asker>
    ensures { result ≡ session_asker asker }
{
    match asker {
        None => None,
        Some(asker) => if asker.of_session { Some(asker) } else { None },
    }
}
