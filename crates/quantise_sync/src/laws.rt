//! What holds of the definitions.

ghost use Rattle.std.specs.Prelude.{ℕ};
ghost use Rattle.sl_base.specs.Sounds.{Sound};
ghost use Rattle.looper_rules.specs.Loop.{Loop, face_of};
ghost use Rattle.looper_rules.specs.States.{IsLoop};
ghost use Rattle.quantise_sync.specs.Distances.{IsPlacedWhereRunning};

/// The face of a loop, as loops always are, is placed where the loop runs: so the next boundary is
/// told exactly.
pub fn faces_of_loops_are_placed()
    ensures frames { (l : Loop Sound) → IsLoop l → IsPlacedWhereRunning (face_of l) }
    ensures addresses { (l : Loop ℕ) → IsLoop l → IsPlacedWhereRunning (face_of l) }
{}
