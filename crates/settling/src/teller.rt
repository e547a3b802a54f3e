//! Where replies go.

ghost use Rattle.std.specs.Prelude.{◌∷◌, ◌++◌, [], List};
ghost use Rattle.sl_commands.specs.declared.Reply.{Reply};

use sl_commands::Reply;

/// Tells replies to those who asked.
pub trait Teller: Drop {
    // These replies were told, one after another, from the first to the second.
    ghost tells: { Self → List Reply → Self → Type 0 };

    /// Tells one reply.
    fn tell(&mut self, reply: Reply)
        ensures { tells self.old (reply ∷ []) self.new };

    /// No reply may be told, and some replies and then others.
    fn telling_composes()
        ensures none { (a : Self) → tells a [] a }
        ensures more { (a b c : Self) → (first next : List Reply) → tells a first b →
            tells b next c → tells a (first ++ next) c };
}
