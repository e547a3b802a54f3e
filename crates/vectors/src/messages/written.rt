//! Messages that are written.

ghost use Rattle.std.specs.Prelude.{◌≡◌, All, IfOk, IsTrue};
ghost use Rattle.osc_reader.specs.Grammar.{BeginsWith};
ghost use Rattle.osc_reader.specs.Strings.{has_no_zero};
ghost use Rattle.osc_reader.specs.Written.{IsPlain};

use crate::hex::{bytes_of, tell_bytes};
use arrayvec::{ArrayString, ArrayVec};
use osc_reader::{OutArg, write_message};
use std::alloc::Global;
use std::io::{self, Write};

fn has_no_zero(bytes: &[u8]) -> bool
    ensures { result ≡ has_no_zero bytes.now }
{
    bytes.iter().all(|byte| *byte != 0)
}

fn is_address(bytes: &[u8]) -> bool
    ensures { IsTrue result → BeginsWith 47 bytes.now }
{
    match bytes {
        [b'/', ..] => true,
        _ => false,
    }
}

/// An argument by its word, or a number 0 where the word is none.
fn arg_of(alloc: Global, word: &str) -> io::Result<OutArg>
    ensures { IfOk result IsPlain }
{
    match word.strip_prefix('s') {
        Some(hex) => {
            let bytes = bytes_of(alloc, hex)?;
            Ok(text_of(&bytes))
        }
        None => {
            let number = word.strip_prefix('i').unwrap_or(word);
            Ok(OutArg::Int(number.parse().unwrap_or(0)))
        }
    }
}

/// The argument of a text with no zero byte and at most 64 bytes.
fn text_of(bytes: &[u8]) -> OutArg
    ensures { IsPlain result }
{
    if !has_no_zero(bytes) {
        return OutArg::Int(0);
    }
    match str::from_utf8(bytes) {
        Ok(text) => match ArrayString::from(text) {
            Ok(text) => OutArg::Text(text),
            Err(_) => OutArg::Int(0),
        },
        Err(_) => OutArg::Int(0),
    }
}

fn args_of(alloc: Global, words: &[&str]) -> io::Result<Vec<OutArg>>
    ensures { IfOk result (λ args. All IsPlain args.items) }
{
    let mut args = Vec::new(alloc);
    'words: for word in words {
        args.push(arg_of(alloc, word)?)?;
    }
    Ok(args)
}

/// Tells the bytes of a message.
pub fn tell_written<W: Write>(
    out: &mut W,
    alloc: Global,
    address: &[u8],
    words: &[&str],
) -> io::Result<()> {
    if !is_address(address) || !has_no_zero(address) {
        return writeln!(out, "no address");
    }
    let args = args_of(alloc, words)?;
    let mut bytes = ArrayVec::new();
    if write_message(&mut bytes, address, &args) {
        tell_bytes(out, bytes.as_slice())?;
        writeln!(out, "")
    } else {
        writeln!(out, "none")
    }
}
