//! The chunks that loops begin with.

ghost use Rattle.std.specs.Prelude.{◌≤◌, ◌↔◌, IsTrue};
ghost use Rattle.looper_rules.specs.Reached.{AreLists, IsBeginning};
ghost use Rattle.run_files.specs.RunLimits.{chunks_for};

use looper_tracks::chunks_needed;
use sl_commands::{Initial, Settings};

/// The lists need so many chunks at most.
#[tactic(auto, using(crate::proofs::RunLemmas::strips_in_range))]
pub fn has_chunks(settings: &Settings, initial: &Initial, chunks: u32) -> bool
    requires { AreLists settings.now.strips initial.now }
    ensures value { IsTrue result ↔ chunks_for initial.now ≤ chunks }
    ensures begins { IsTrue result → IsBeginning settings.now chunks initial.now }
{
    let _loops = settings.loop_count();
    chunks_needed(settings.strips.as_slice(), initial.as_slice()) <= chunks
}
