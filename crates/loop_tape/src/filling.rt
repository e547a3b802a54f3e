//! Lists that are filled with silence.

ghost use Rattle.std.specs.Prelude.{◌≡◌, ◌≤◌};
ghost use Rattle.std.specs.Vec.{vec_capacity};
ghost use Rattle.loop_tape.specs.Pools.{padded};

use sl_base::Frame;

/// Puts silence behind the frames, up to this length.
#[tactic(auto, using(crate::proofs::PoolLemmas::pads))]
pub(crate) fn fill_to(frames: &mut Vec<Frame>, length: usize)
    requires { length ≤ vec_capacity frames.old }
    ensures items { frames.new.items ≡ padded length frames.old.items }
    ensures capacity { vec_capacity frames.old ≤ vec_capacity frames.new }
{
    while frames.len() < length {
        frames.push_reserved(Frame::silence());
    }
}
