//! Messages as bytes.

ghost use Rattle.std.specs.Prelude.{◌≡◌, ◌≤◌, ◌↔◌, [], ◌∷◌, length, map, replicate, flat_map, All, IsTrue, IsFalse};
ghost use Rattle.std.specs.Int.{w32, to_be_bytes};
ghost use Rattle.osc_reader.specs.Strings.{has_no_zero, string_of, zeros_behind};
ghost use Rattle.osc_reader.specs.Grammar.{BeginsWith};
ghost use Rattle.osc_reader.specs.Written.{out_tag, out_bytes, message_bytes, IsPlain};
ghost use Rattle.osc_reader.specs.Putting.{max_message, Puts};

use arrayvec::{ArrayString, ArrayVec};
use byteorder::{BigEndian, ByteOrder};

/// The greatest number of bytes of a message that is written.
pub const MAX_MESSAGE: usize = 1024;

const ZEROS: [u8; 4] = [0; 4];

/// An argument of a message that is written.
#[derive(Clone, Copy)]
pub enum OutArg {
    Int(i32),
    Text(ArrayString<64>),
}

/// Puts bytes behind those that are there.
fn put(out: &mut ArrayVec<u8, MAX_MESSAGE>, bytes: &[u8]) -> bool
    ensures { Puts out.old.items out.new.items bytes.now result }
{
    match out.try_extend_from_slice(bytes) {
        Ok(()) => true,
        Err(_) => false,
    }
}

/// Puts the zeros that end a string, behind a text of so many bytes.
fn put_zeros(out: &mut ArrayVec<u8, MAX_MESSAGE>, length: usize) -> bool
    ensures { Puts out.old.items out.new.items (replicate (zeros_behind length) 0) result }
{
    put(out, &ZEROS[..4 - length % 4])
}

/// Puts the string of a text.
fn put_string(out: &mut ArrayVec<u8, MAX_MESSAGE>, text: &[u8]) -> bool
    ensures { Puts out.old.items out.new.items (string_of text.now) result }
{
    if !put(out, text) {
        return false;
    }
    put_zeros(out, text.len())
}

/// The tag of an argument.
fn tag(arg: OutArg) -> u8
    ensures { result ≡ out_tag arg }
{
    match arg {
        OutArg::Int(_) => b'i',
        OutArg::Text(_) => b's',
    }
}

/// Puts the letters of all tags.
fn put_letters(out: &mut ArrayVec<u8, MAX_MESSAGE>, args: &[OutArg]) -> bool
    ensures { Puts out.old.items out.new.items (map out_tag args.now) result }
{
    'letters: for arg in args {
        if !put(out, &[tag(*arg)]) {
            return false;
        }
    }
    true
}

/// Puts the string of the tags.
fn put_tags(out: &mut ArrayVec<u8, MAX_MESSAGE>, args: &[OutArg]) -> bool
    ensures { Puts out.old.items out.new.items (string_of (44 ∷ map out_tag args.now)) result }
{
    if !put(out, b",") {
        return false;
    }
    if !put_letters(out, args) {
        return false;
    }
    put_zeros(out, 1 + args.len())
}

/// Puts the four bytes of a number.
fn put_number(out: &mut ArrayVec<u8, MAX_MESSAGE>, number: u32) -> bool
    ensures { Puts out.old.items out.new.items (to_be_bytes w32 number) result }
{
    let mut bytes = [0; 4];
    BigEndian::write_u32(&mut bytes, number);
    put(out, &bytes)
}

/// Puts the bytes of an argument.
fn put_arg(out: &mut ArrayVec<u8, MAX_MESSAGE>, arg: &OutArg) -> bool
    ensures { Puts out.old.items out.new.items (out_bytes arg.now) result }
{
    match arg {
        OutArg::Int(number) => put_number(out, number.cast_unsigned()),
        OutArg::Text(text) => put_string(out, text.as_str().as_bytes()),
    }
}

/// Puts the bytes of all arguments.
fn put_args(out: &mut ArrayVec<u8, MAX_MESSAGE>, args: &[OutArg]) -> bool
    ensures { Puts out.old.items out.new.items (flat_map out_bytes args.now) result }
{
    'values: for arg in args {
        if !put_arg(out, arg) {
            return false;
        }
    }
    true
}

/// Puts the bytes of a message.
fn put_message(out: &mut ArrayVec<u8, MAX_MESSAGE>, address: &[u8], args: &[OutArg]) -> bool
    ensures { Puts out.old.items out.new.items (message_bytes address.now args.now) result }
{
    if !put_string(out, address) {
        return false;
    }
    if !put_tags(out, args) {
        return false;
    }
    put_args(out, args)
}

/// Writes a message over an empty buffer. False exactly where it has more than 1024 bytes.
pub fn write_message(out: &mut ArrayVec<u8, MAX_MESSAGE>, address: &[u8], args: &[OutArg]) -> bool
    requires empty { out.old.items ≡ [] }
    requires address { BeginsWith 47 address.now }
    requires address_plain { IsTrue (has_no_zero address.now) }
    requires args_plain { All IsPlain args.now }
    ensures answer { IsTrue result ↔ (length (message_bytes address.now args.now) ≤ max_message) }
    ensures ok { IsTrue result → out.new.items ≡ message_bytes address.now args.now }
    ensures unchanged { IsFalse result → out.new.items ≡ out.old.items }
{
    if put_message(out, address, args) {
        // No buffer holds more than it has room for.
        let _length = out.len();
        return true;
    }
    out.clear();
    false
}
