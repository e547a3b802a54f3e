//! What a ring carries, and in which order.

use crate::block::Block;
use crate::command::Command;
use crate::reply::Reply;

/// What a ring carries. An item may follow those sent before it, under the ring's bound.
pub trait Item: Drop {
    ghost use Rattle.std.specs.Prelude.{List, ℕ};

    ghost may_follow: { List Self → Self → ℕ → Type 0 };
}

impl Item for Command {
    ghost may_follow = { λ _ _ _. Unit {0} };
}

impl Item for Reply {
    ghost may_follow = { λ _ _ _. Unit {0} };
}

impl Item for u64 {
    ghost may_follow = { λ _ _ _. Unit {0} };
}

/// The outcome of a save: 0 written, 1 the keeper failed, 4 no memory.
impl Item for u8 {
    ghost use Rattle.std.specs.Prelude.{IsTrue};
    ghost use Rattle.sl_commands.specs.Commands.{is_outcome};

    ghost may_follow = { λ _ outcome _. IsTrue (is_outcome outcome) };
}

impl Item for Block {
    ghost use Rattle.std.specs.Prelude.{IsTrue};
    ghost use Rattle.sl_commands.specs.Blocks.{may_follow};

    ghost may_follow = { λ sent block bound. IsTrue (may_follow sent block bound) };
}
