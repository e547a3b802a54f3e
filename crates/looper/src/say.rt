//! What the program says on standard error beside its own lines, each behind its name. Where there
//! is no memory or no such stream, nothing is said.

use sl_ports::{DirKeeper, StdSink};
use std::alloc::Global;
use std::fmt::Display;
use std::io;

/// The words of an error, without the number that the system gives it.
fn without_number(text: &str) -> &str {
    match text.split_once(" (os error ") {
        Some((words, _)) => words,
        None => text,
    }
}

/// Says one line.
pub fn say<D: Display, R: Alloc<A = Global> + Eprint>(rt: &R, what: &D) {
    if let Ok(text) = format!(in rt.alloc(); "looper: {what}") {
        let _ = eprintln!(rt; "{}", without_number(text.as_str()));
    }
}

/// Says what can't be done, where this is why.
pub fn say_fault<R: Alloc<A = Global> + Eprint>(rt: &R, what: &str, first: Option<&io::Error>) {
    if let Some(error) = first {
        if let Ok(text) = format!(in rt.alloc(); "cannot {what}: {error}") {
            say(rt, &text);
        }
    }
}

/// Says why the console failed, if it did.
pub fn say_unwritten<C, R: Alloc<A = Global> + Eprint>(rt: &R, console: &StdSink<C>) {
    say_fault(rt, "write standard output", console.first_fault());
}

/// Says which file failed first, if one did.
pub fn say_unkept<F, R: Alloc<A = Global> + Eprint>(rt: &R, files: &DirKeeper<F>) {
    if let Some(fault) = files.first_fault() {
        say(rt, fault);
    }
}

/// Says that the words are in no form.
pub fn say_other_words<R: Alloc<A = Global> + Eprint>(rt: &R) {
    say(
        rt,
        &"these words mean nothing here; looper --help shows what does",
    );
}
