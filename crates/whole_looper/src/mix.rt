//! A span of frames, mixed and clamped.

ghost use Rattle.std.specs.Prelude.{◌≡◌, ◌≤◌, length, map};
ghost use Rattle.sl_base.specs.Sounds.{clamped_sound};
ghost use Rattle.looper_rules.specs.GainSpans.{gain_over, scaled_over, added};
ghost use Rattle.mixer_fades.specs.Sums.{AreSumsOf};
ghost use Rattle.whole_looper.specs.Spans.{DidSpan};

use looper_tracks::Tracks;
use mixer_fades::{Gain, Sum, add_span, clear_span, close_span};
use sl_base::Frame;
use sl_commands::Globals;

/// The input added to what is heard of all tracks, and each sum clamped, once.
fn close_over(
    dry: &mut Gain,
    globals: &Globals,
    input: &[Frame],
    sums: &mut [Sum],
    output: &mut [Frame],
)
    requires step { globals.now.fade_step ≤ 1000 }
    requires target { globals.now.dry ≤ 1000 }
    requires sums { length input.now ≡ length sums.old }
    requires output { length input.now ≡ length output.old }
    requires within { AreSumsOf 16 sums.old }
    ensures dry { dry.new ≡ gain_over globals.now.dry globals.now.fade_step input.now dry.old }
    ensures output { output.new ≡ map clamped_sound (added sums.old
        (scaled_over globals.now.dry globals.now.fade_step input.now dry.old)) }
{
    add_span(sums, input, dry, globals.dry, globals.fade_step);
    close_span(sums, output);
}

/// Some frames of all tracks and of the input. `heard` and `sums` are filled anew.
pub(crate) fn play_span(
    tracks: &mut Tracks,
    globals: &Globals,
    dry: &mut Gain,
    input: &[Frame],
    heard: &mut [Frame],
    sums: &mut [Sum],
    output: &mut [Frame],
)
    requires few { length tracks.old.tracks ≤ 16 }
    requires step { globals.now.fade_step ≤ 1000 }
    requires dry { globals.now.dry ≤ 1000 }
    requires heard { length input.now ≡ length heard.old }
    requires sums { length input.now ≡ length sums.old }
    requires output { length input.now ≡ length output.old }
    ensures { DidSpan globals.now input.now output.new dry.old dry.new tracks.old tracks.new }
{
    clear_span(sums);
    tracks.play(input, heard, sums, globals.fade_step);
    close_over(dry, globals, input, sums, output);
}
