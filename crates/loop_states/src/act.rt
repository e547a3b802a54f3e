//! Moves, and short lists of them.

ghost use Rattle.std.specs.Prelude.{◌≡◌, ◌<◌, [], ◌∷◌, ◌++◌, length, slice_index_or};

use sl_commands::{Mode, Verb};
use std::marker::Model;

/// One step of what a verb does. `Begin` starts the writing verb that it names, and `SetMode`
/// changes the mode alone.
#[derive(Clone, Copy, PartialEq, Eq)]
pub enum Move {
    LeaveWait,
    Close,
    Begin(Verb),
    Round,
    SetMode(Mode),
    ToStart,
    Turn,
    BreakStreak,
    Undo,
    Redo,
    UndoAll,
    RedoAll,
}

/// At most four moves, in the order in which they are carried out.
#[derive(Drop)]
pub struct Act {
    moves: [Move; 4],
    count: usize,
}

impl Model for Act {
    ghost use Rattle.std.specs.Prelude.{◌≡◌, ◌≤◌, List, take, length};
    ghost use Rattle.loop_states.specs.declared.act.Move.{Move};

    ghost Value = { List Move };

    ghost view = { λ a. take a.count a.moves };

    ghost invariant = { λ a. (a.count ≤ 4) × (length a.moves ≡ 4) };
}

impl Act {
    /// No moves.
    pub(crate) fn new() -> Act
        ensures { result ≡ [] }
    {
        Act {
            moves: [Move::Close; 4],
            count: 0,
        }
    }

    /// One move more, behind the others.
    pub(crate) fn push(&mut self, next: Move)
        requires { length self.old < 4 }
        ensures { self.new ≡ self.old ++ next ∷ [] }
    {
        self.moves[self.count] = next;
        self.count += 1;
    }

    /// How many moves there are.
    pub fn len(&self) -> usize
        ensures { result ≡ length self.now }
    {
        self.count
    }

    /// The move of this index, counted from 0.
    pub fn at(&self, index: usize) -> Move
        requires { index < length self.now }
        ensures { result ≡ slice_index_or self.now index result }
    {
        let _count = self.count;
        self.moves[index]
    }
}
