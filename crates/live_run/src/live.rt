//! `live`: a session that is played.

ghost use Rattle.std.specs.Prelude.{map};
ghost use Rattle.std.specs.String.{string_bytes};
ghost use Rattle.command_words.specs.LiveWords.{live_in};
ghost use Rattle.live_run.specs.Running.{RunsLive, IsTurnedAway};

use crate::outside::{End, Outside};
use crate::playing::play;
use command_words::{WordsFault, live_words};
use console_lines::{Status, tell};
use live_activities::Activities;
use live_ports::{Link, Source};
use sl_ports::{Keeper, Sink};
use std::alloc::Global;
use std::sync::Wait;
use std::thread::Threads;
use std::time::Clock;

/// Runs the words `live` and its options, over what stands outside, until the session ends.
///
/// The session and the bindings are read first, and then the limit is judged; no device is used
/// before. Statuses: 0 done, 2 other words, 3 a bad file, 4 a read failed, 5 a write failed, 6 the
/// input ended within a frame, 7 a receive failed, 8 out of memory, 9 the session needs more chunks
/// than there are, 10 all frames of a session were played. It waits, and isn't promised to return.
pub fn live_run<
    P: Keeper + Send,
    A: Source + Send,
    O: Sink + Send,
    L: Link + Send,
    M: Source + Send,
    C: Sink + Send,
    R: Wait + Clock + Threads + Sync,
>(
    alloc: Global,
    rt: &R,
    words: &[String],
    outside: Outside<P, A, O, L, M, C>,
) -> End<P, A, O, L, M, C>
    ensures { RunsLive P.Keeper A.Source O.Sink L.Link M.Source C.Sink
        (live_in (map string_bytes words.now)) outside result }
{
    match live_words(alloc, words) {
        Ok(asked) => play(&Activities, alloc, rt, asked, outside),
        Err(fault) => turn_away(fault, outside),
    }
}

/// Tells the console that the words aren't those of a session, and gives all back.
fn turn_away<P: Keeper, A: Source, O: Sink, L: Link, M: Source, C: Sink>(
    fault: WordsFault,
    outside: Outside<P, A, O, L, M, C>,
) -> End<P, A, O, L, M, C>
    ensures { IsTurnedAway C.Sink fault outside result }
{
    let mut outside = outside;
    let status = match fault {
        WordsFault::Words => {
            tell(&mut outside.console, Status::Words.line());
            Status::Words
        }
        WordsFault::Memory => Status::Memory,
    };
    End {
        status: status.number(),
        outside,
        session: None,
    }
}
