//! Times a part of the looper beside the same work by hand, or does it again and again for a script
//! to time. Without words it is silent, and so with others than these.
//!
//! ```text
//! benches engine KIND LOOPS PERIOD TIMES     a frame of a loop in the engine, for bench/engine.sh
//! benches strip KIND STREAKS SPAN TIMES      a frame of one loop, for bench/strip.sh
//! benches layers KIND FRAMES STREAKS TIMES   layers on a shared tape, for bench/layers.sh
//! benches rings KIND THREADS COUNT CAPACITY  numbers through a ring, for bench/rings.sh
//! benches messages KIND COUNT                messages from outside, for bench/messages.sh
//! benches turns KIND LOOPS PERIOD TIMES      a frame in turns of audio, for bench/turns.sh
//! ```
//!
//! What is timed inside is told in a line each, with the least of TIMES in thousandths of a
//! nanosecond. The status is 1 where numbers or messages didn't come as they have to, and 8 for
//! want of memory.
#![tactic(auto)]

mod clock;
mod engine;
mod layers;
mod messages;
mod rings;
mod strip;
mod turns;
mod words;

use std::process::ExitCode;
use std::{env, io};

/// Does what the words say, and tells whether all came as it has to.
fn done(rt: &HostRuntime, words: &[String]) -> Option<bool> {
    let [part, words @ ..] = words else {
        return Some(true);
    };
    match part.as_str() {
        "engine" => engine::timed(rt, words).map(|_| true),
        "strip" => strip::timed(rt, words).map(|_| true),
        "layers" => layers::timed(rt, words).map(|_| true),
        "messages" => messages::passed(rt.alloc(), words).ok(),
        _ => Some(true),
    }
}

/// The first word is this one.
fn is_of(words: &[String], part: &str) -> bool {
    match words.first() {
        Some(first) => first.as_str() == part,
        None => false,
    }
}

/// The words behind the first.
fn behind_first(words: &[String]) -> &[String] {
    match words {
        [_, rest @ ..] => rest,
        _ => words,
    }
}

/// The words of the command line, but for the program's name.
fn words_of(rt: &HostRuntime) -> io::Result<Vec<String>> {
    Ok(env::args(rt)?.skip(1).collect(rt.alloc())?)
}

fn main(rt: HostRuntime) -> ExitCode {
    let words = match words_of(&rt) {
        Ok(words) => words,
        Err(_) => return ExitCode::from(8),
    };
    // Rings want a runtime that waits, which `main` alone has.
    let done = if is_of(&words, "rings") {
        rings::passed(&rt, rt.alloc(), behind_first(&words))
    } else if is_of(&words, "turns") {
        turns::timed(&rt, &rt, behind_first(&words))
    } else {
        done(&rt, &words)
    };
    match done {
        Some(true) => ExitCode::from(0),
        Some(false) => ExitCode::from(1),
        None => ExitCode::from(8),
    }
}
