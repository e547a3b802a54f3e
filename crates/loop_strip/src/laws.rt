//! What holds of several calls together.

ghost use Rattle.std.specs.Prelude.{◌≡◌, ◌≤◌, ◌+◌, true, false, List, length};
ghost use Rattle.sl_base.specs.Limits.{max_list_frames};
ghost use Rattle.sl_base.specs.Sounds.{Sound};
ghost use Rattle.sl_commands.specs.declared.Verb.TheVariants.{Undo, Redo};
ghost use Rattle.sl_commands.specs.declared.Mode.TheVariants.{Off};
ghost use Rattle.looper_rules.specs.Room.{chunks_of};
ghost use Rattle.sl_commands.specs.declared.Started.TheVariants.{Ok as Granted};
ghost use Rattle.looper_rules.specs.Layers.{current_list};
ghost use Rattle.looper_rules.specs.Opening.{opening, opening_tape};
ghost use Rattle.looper_rules.specs.Loop.{length_of};
ghost use Rattle.looper_rules.specs.History.{settled};
ghost use Rattle.looper_rules.specs.Presses.{given};
ghost use Rattle.loop_tape.specs.Pools.{PoolOf};
ghost use Rattle.loop_strip.specs.Strips.{StripOf, seen, reach_in, Owns, Did};
ghost use Rattle.loop_strip.specs.Moving.{IsAtRest};
ghost use Rattle.loop_strip.specs.Laws.{IsRecording, HasOverdubbed, overdubbed};

use crate::given::Given;
use crate::strip::Strip;
use loop_tape::Pool;
use sl_base::Frame;
use sl_commands::Verb;

/// `record` is hit on a loop that is Off and waits for nothing, frames are played for which there
/// is room, and `record` is hit again: the frames are the list, and it plays from its first place
/// on.
pub fn a_recording_is_what_was_played(
    strip: &mut Strip,
    pool: &mut Pool,
    input: &[Frame],
    heard: &mut [Frame],
)
    requires owns { Owns strip.old pool.old }
    requires same_length { length input.now ≡ length heard.old }
    requires off { (seen strip.old pool.old).deck.mode ≡ Off }
    requires at_once { (seen strip.old pool.old).controls.quantize ≡ 0 }
    requires no_threshold { (seen strip.old pool.old).controls.rec_thresh ≡ 0 }
    requires granted { opening (reach_in strip.old pool.old) true (seen strip.old pool.old).stack
        ≡ Granted }
    requires some { 1 ≤ length input.now }
    requires short { length input.now ≤ max_list_frames }
    requires room { chunks_of (opening_tape (seen strip.old pool.old).stack + length input.now)
        ≤ reach_in strip.old pool.old }
    ensures recording { IsRecording input.now (seen strip.new pool.new) }
    ensures owns { Owns strip.new pool.new }
{
    strip.give(pool, Given::hit(Verb::Rec));
    strip.play(pool, input, heard);
    strip.give(pool, Given::hit(Verb::Rec));
}

/// `overdub` is hit on a loop at rest at its first place, one turn is played for which there is
/// room, and `overdub` is hit again: each frame of the list is the old one scaled by the feedback,
/// with what was played on top, and the old list is what was heard.
pub fn an_overdub_of_one_turn_is_on_top(
    strip: &mut Strip,
    pool: &mut Pool,
    input: &[Frame],
    heard: &mut [Frame],
)
    requires owns { Owns strip.old pool.old }
    requires same_length { length input.now ≡ length heard.old }
    requires at_once { (seen strip.old pool.old).controls.quantize ≡ 0 }
    requires rests { IsAtRest (seen strip.old pool.old).deck.mode }
    requires forward { (seen strip.old pool.old).deck.backward ≡ false }
    requires first { (seen strip.old pool.old).deck.pos ≡ 0 }
    requires granted { opening (reach_in strip.old pool.old) false (seen strip.old pool.old).stack
        ≡ Granted }
    requires turn { length input.now ≡ length_of (seen strip.old pool.old) }
    requires some { 1 ≤ length input.now }
    requires room { chunks_of (opening_tape (seen strip.old pool.old).stack + length input.now)
        ≤ reach_in strip.old pool.old }
    ensures list { IsRecording
        (overdubbed (seen strip.old pool.old).controls.feedback
        (current_list (seen strip.old pool.old).stack.layers) input.now) (seen strip.new pool.new) }
    ensures heard { heard.new ≡ current_list (seen strip.old pool.old).stack.layers }
    ensures owns { Owns strip.new pool.new }
{
    strip.give(pool, Given::hit(Verb::Overdub));
    strip.play(pool, input, heard);
    strip.give(pool, Given::hit(Verb::Overdub));
}

/// `overdub` is given at once to a loop at rest that grants it, any frames are played, and `undo`
/// is given, which leaves a strip and a pool each: the list is the one from before, and so are all
/// layers, whether the overdub was still going on or ended for want of room.
pub fn undo_takes_an_overdub_back()
    ensures layers { (xs : List Sound) (old pressed played undone : StripOf)
        (p p1 p2 p3 : PoolOf) → HasOverdubbed xs old pressed played p p1 p2 →
        Did (given Undo) played undone p2 p3 →
        (seen undone p3).stack.layers ≡ (seen old p).stack.layers }
    ensures list { (xs : List Sound) (old pressed played undone : StripOf)
        (p p1 p2 p3 : PoolOf) → HasOverdubbed xs old pressed played p p1 p2 →
        Did (given Undo) played undone p2 p3 →
        current_list (seen undone p3).stack.layers ≡ current_list (seen old p).stack.layers }
{}

/// `undo` is given where a layer is left once an open one is closed, and `redo` behind it: the
/// layer is there again, frame for frame, and all the rest of the stack.
pub fn redo_gives_an_undone_layer_back()
    ensures stack { (old undone redone : StripOf) (p p1 p2 : PoolOf) →
        Did (given Undo) old undone p p1 → Did (given Redo) undone redone p1 p2 →
        1 ≤ length (settled (seen old p)).stack.layers →
        (seen redone p2).stack ≡ (settled (seen old p)).stack }
    ensures overdub { (xs : List Sound) (old pressed played undone redone : StripOf)
        (p p1 p2 p3 p4 : PoolOf) → HasOverdubbed xs old pressed played p p1 p2 →
        Did (given Undo) played undone p2 p3 → Did (given Redo) undone redone p3 p4 →
        (seen redone p4).stack ≡ (settled (seen played p2)).stack }
{}
