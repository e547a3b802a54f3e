//! What no clause says: tracks of two loops as calls, with ample memory.

ghost use Rattle.std.specs.Prelude.{◌≤◌};

use crate::{Tracks, chunks_needed};
use loop_strip::Given;
use mixer_fades::{Sum, clear_span};
use sl_base::Frame;
use sl_commands::{Settings, Target, Verb};
use std::test::Fail;

#[test]
fn two_tracks_record_over_one_pool(rt: HostRuntime) -> Result<(), Fail> {
    let settings = Settings::with_defaults(48000, 2);
    let strips = settings.strips.as_slice();
    assert_eq!(rt; chunks_needed(strips, &[]), 0);
    let mut tracks = Tracks::new(rt.alloc(), strips, 2, &[]).map_err(|_| "memory")?;
    tracks.give(Target::All, 0, Given::hit(Verb::Rec));
    let input = [Frame::silence(); 4];
    let mut heard = [Frame::silence(); 4];
    let mut sums = [Sum::none(); 4];
    clear_span(&mut sums[..]);
    tracks.play(&input[..], &mut heard[..], &mut sums[..], 20);
    tracks.give(Target::All, 0, Given::hit(Verb::Rec));
    assert_eq!(rt; tracks.save_refusal(0), None);
    assert_eq!(rt; tracks.save_refusal(2), None);
    assert!(rt; !tracks.any_waits());
    Ok(())
}
