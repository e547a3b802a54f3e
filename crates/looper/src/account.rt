//! What an account has beyond the closing lines: nothing that was sent is lost without a word.

use crate::say::say;
use live_run::Session;
use senders::{Account, Refusal};
use std::alloc::Global;

/// The faults of a message, by their numbers from 1 on.
const MESSAGES: [&str; 7] = [
    "an unknown path",
    "other arguments",
    "an unknown verb",
    "an unknown control",
    "a value out of range",
    "a bad return address",
    "a bad name",
];

/// The faults of a packet, likewise.
const PACKETS: [&str; 7] = [
    "a bad size",
    "a bad string",
    "bad type tags",
    "a packet cut short",
    "bytes left over",
    "bundles too deep",
    "no memory",
];

/// Why a command was refused, likewise.
const COMMANDS: [&str; 3] = ["a full ring", "the quota used up", "the session over"];

/// The words of this number from 1 on.
fn words_of(words: &[&'static str], number: u8) -> &'static str {
    match words.get((number as usize).wrapping_sub(1)) {
        Some(words) => words,
        None => "another cause",
    }
}

/// The words of a refusal.
fn words_for(refusal: Refusal) -> &'static str {
    match refusal.group {
        1 => words_of(&PACKETS, refusal.code),
        2 => words_of(&MESSAGES, refusal.code),
        _ => words_of(&COMMANDS, refusal.code),
    }
}

/// Says how many of a sender were so, where any were.
fn note<R: Alloc<A = Global> + Eprint>(rt: &R, sender: &str, count: u64, what: &str) {
    if count != 0 {
        if let Ok(text) = format!(in rt.alloc(); "{sender}: {count} {what}") {
            say(rt, &text);
        }
    }
}

/// Says how many messages of a sender had this fault.
fn note_message<R: Alloc<A = Global> + Eprint>(rt: &R, sender: &str, count: u64, fault: &str) {
    if count != 0 {
        if let Ok(text) = format!(in rt.alloc(); "{sender}: {count} messages with {fault}") {
            say(rt, &text);
        }
    }
}

/// Says the last refusals of a sender, oldest first.
fn note_last<R: Alloc<A = Global> + Eprint>(rt: &R, sender: &str, account: &Account) {
    let Ok(mut text) = format!(in rt.alloc(); "{sender}: refused last:") else {
        return;
    };
    let mut count = 0u32;
    for refusal in account.tally.last().iter() {
        let mark = if count == 0 { " " } else { ", " };
        if text.push_str(mark).is_err() || text.push_str(words_for(*refusal)).is_err() {
            return;
        }
        count = count.saturating_add(1);
    }
    if count != 0 {
        say(rt, &text);
    }
}

/// Says what an account has, a line a kind that isn't 0, and the last refusals.
fn say_account<R: Alloc<A = Global> + Eprint>(rt: &R, sender: &str, account: &Account) {
    let tally = &account.tally;
    note(rt, sender, tally.packet_faults(), "packets that are no OSC");
    for (count, fault) in tally.path_faults().iter().zip(MESSAGES.iter()) {
        note_message(rt, sender, *count, fault);
    }
    note(
        rt,
        sender,
        tally.ring_full(),
        "commands refused: a full ring",
    );
    note(
        rt,
        sender,
        tally.session_full(),
        "commands refused: the quota used up",
    );
    note(
        rt,
        sender,
        tally.ended(),
        "commands refused: the session over",
    );
    note_last(rt, sender, account);
}

/// Says what both accounts of a session have.
pub fn say_accounts<R: Alloc<A = Global> + Eprint>(rt: &R, session: &Session) {
    say_account(rt, "OSC", &session.osc);
    say_account(rt, "MIDI", &session.midi);
}
