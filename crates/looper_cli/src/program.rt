//! The top call of the program.

ghost use Rattle.std.specs.Prelude.{◌≡◌, true, false, map};
ghost use Rattle.std.specs.String.{string_bytes};
ghost use Rattle.command_words.specs.LiveWords.{live_in};
ghost use Rattle.live_run.specs.Running.{RunsLive};
ghost use Rattle.looper_cli.specs.Top.{asks_for_live, RunsPlain};

use crate::top::plain_run;
use live_ports::{Link, Source};
use live_run::{End, Outside, live_run};
use sl_ports::{Keeper, Sink};
use std::alloc::Global;
use std::sync::Wait;
use std::thread::Threads;
use std::time::Clock;

/// The first word is `live`.
pub fn asks_for_live(words: &[String]) -> bool
    ensures { result ≡ asks_for_live (map string_bytes words.now) }
{
    match words.first() {
        Some(word) => word.as_bytes() == b"live".as_slice(),
        None => false,
    }
}

/// Runs the words without a session: the devices come back unused.
fn run_plain<P: Keeper, A: Source, O: Sink, L: Link, M: Source, C: Sink>(
    alloc: Global,
    words: &[String],
    outside: Outside<P, A, O, L, M, C>,
) -> End<P, A, O, L, M, C>
    ensures { RunsPlain P.Keeper C.Sink (map string_bytes words.now) outside result }
{
    let mut outside = outside;
    let status = plain_run(alloc, words, &mut outside.keeper, &mut outside.console);
    End {
        status,
        outside,
        session: None,
    }
}

/// Runs the words over what stands outside, and gives it back with the exit status: `live_run`
/// where the first word is `live`, and else `plain_run`.
pub fn run<
    P: Keeper + Send,
    A: Source + Send,
    O: Sink + Send,
    L: Link + Send,
    M: Source + Send,
    C: Sink + Send,
    R: Wait + Clock + Threads + Sync,
>(
    alloc: Global,
    rt: &R,
    words: &[String],
    outside: Outside<P, A, O, L, M, C>,
) -> End<P, A, O, L, M, C>
    ensures live { asks_for_live (map string_bytes words.now) ≡ true →
        RunsLive P.Keeper A.Source O.Sink L.Link M.Source C.Sink
        (live_in (map string_bytes words.now)) outside result }
    ensures plain { asks_for_live (map string_bytes words.now) ≡ false →
        RunsPlain P.Keeper C.Sink (map string_bytes words.now) outside result }
{
    if asks_for_live(words) {
        live_run(alloc, rt, words, outside)
    } else {
        run_plain(alloc, words, outside)
    }
}
