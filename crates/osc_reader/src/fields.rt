//! The fields of a message. Each reader takes the offset of its part's end and the bytes from its
//! field on, and gives what it read and the bytes that are left.

ghost use Rattle.std.specs.Prelude.{◌≡◌, ◌≤◌, List, length, take, drop, IsTrue, IfOk, IfErr};
ghost use Rattle.std.specs.List.{list_all, prefix_len};
ghost use Rattle.osc_reader.specs.Strings.{is_not_zero, has_no_zero, zeros_behind};
ghost use Rattle.osc_reader.specs.Grammar.{zeros_behind_blob};
ghost use Rattle.osc_reader.specs.Places.{Gives};
ghost use Rattle.osc_reader.specs.Reading.{begins_with_zeros, begins_with, is_tag, are_tags, number_at, text_of_size, string_at, address_at, tags_at, int_at, text_at, float_at, content_at, blob_at, arg_at, args_at};

use crate::fault::{NO_MEMORY, PacketFault, PacketKind, fault_at};
use crate::message::{Arg, Args, Text};
use byteorder::{BigEndian, ByteOrder};
use std::alloc::Global;

const ZEROS: [u8; 4] = [0; 4];

/// So many zeros stand at the front.
fn begins_with_zeros(count: usize, bytes: &[u8]) -> bool
    requires { count ≤ 4 }
    ensures { result ≡ begins_with_zeros count bytes.now }
{
    bytes.starts_with(&ZEROS[..count])
}

/// A number of four bytes.
pub(crate) fn number_at(bytes: &[u8], end: u16) -> Result<(u32, &[u8]), PacketFault>
    ensures { Gives (λ x. (x.0, x.1.now)) result (number_at end bytes.now) }
{
    if bytes.len() < 4 {
        return Err(fault_at(PacketKind::Short, end, bytes));
    }
    let (front, rest) = bytes.split_at(4);
    Ok((BigEndian::read_u32(front), rest))
}

/// How many bytes stand before the first zero, or before the end.
fn text_size(bytes: &[u8]) -> usize
    ensures value { result ≡ prefix_len is_not_zero bytes.now }
    ensures within { result ≤ length bytes.now }
{
    bytes.iter().take_while(|byte| **byte != 0).count()
}

/// The text of a string, which ends in zeros.
fn string_at(bytes: &[u8], end: u16) -> Result<(&[u8], &[u8]), PacketFault>
    ensures value { Gives (λ x. (x.0.now, x.1.now)) result (string_at end bytes.now) }
    ensures plain { IfOk result (λ x. IsTrue (has_no_zero x.0.now)) }
{
    let size = text_size(bytes);
    let (text, behind) = bytes.split_at(size);
    let zeros = 4 - size % 4;
    if begins_with_zeros(zeros, behind) {
        Ok((text, &behind[zeros..]))
    } else {
        Err(fault_at(PacketKind::Text, end, bytes))
    }
}

/// The address of a message.
#[tactic(auto, unfolding(crate::specs::Reading::address_at))]
pub(crate) fn address_at(bytes: &[u8], end: u16) -> Result<(&[u8], &[u8]), PacketFault>
    ensures value { Gives (λ x. (x.0.now, x.1.now)) result (address_at end bytes.now) }
    ensures plain { IfOk result (λ x. IsTrue (has_no_zero x.0.now)) }
{
    let (text, rest) = string_at(bytes, end)?;
    match text {
        [b'/', ..] => Ok((text, rest)),
        _ => Err(fault_at(PacketKind::Text, end, bytes)),
    }
}

/// A tag that arguments may have.
fn is_tag(byte: u8) -> bool
    ensures { result ≡ is_tag byte }
{
    byte == b'i' || byte == b's' || byte == b'f' || byte == b'b'
}

/// Each letter is a tag.
fn are_all_tags(letters: &[u8]) -> bool
    ensures { result ≡ list_all is_tag letters.now }
{
    letters.iter().all(|letter| is_tag(*letter))
}

/// A `,` and tags behind it.
fn are_tags(text: &[u8]) -> bool
    ensures { result ≡ are_tags text.now }
{
    match text {
        [first, letters @ ..] => *first == b',' && are_all_tags(letters),
        [] => false,
    }
}

/// The tags of a message, without their `,`.
#[tactic(auto, unfolding(crate::specs::Reading::tags_at))]
pub(crate) fn tags_at(bytes: &[u8], end: u16) -> Result<(&[u8], &[u8]), PacketFault>
    ensures { Gives (λ x. (x.0.now, x.1.now)) result (tags_at end bytes.now) }
{
    if bytes.is_empty() {
        return Err(fault_at(PacketKind::Tags, end, bytes));
    }
    let (text, rest) = string_at(bytes, end)?;
    if are_tags(text) {
        Ok((&text[1..], rest))
    } else {
        Err(fault_at(PacketKind::Tags, end, bytes))
    }
}

/// The same text, owned.
pub(crate) fn owned(alloc: Global, text: &[u8]) -> Result<Text, PacketFault>
    requires { IsTrue (has_no_zero text.now) }
    ensures ok { IfOk result (λ t. t ≡ text.now) }
    ensures memory { IfErr result (λ fault. fault ≡ NO_MEMORY) }
{
    match Vec::from_slice(alloc, text) {
        Ok(bytes) => Ok(Text::of(bytes)),
        Err(_) => Err(NO_MEMORY),
    }
}

/// The argument of a tag `i`.
#[tactic(auto, unfolding(crate::specs::Reading::int_at))]
fn int_at(bytes: &[u8], end: u16) -> Result<(Arg, &[u8]), PacketFault>
    ensures { Gives (λ x. (x.0, x.1.now)) result (int_at end bytes.now) }
{
    let (number, rest) = number_at(bytes, end)?;
    Ok((Arg::Int(number.cast_signed()), rest))
}

/// The argument of a tag `f`.
#[tactic(auto, unfolding(crate::specs::Reading::float_at))]
fn float_at(bytes: &[u8], end: u16) -> Result<(Arg, &[u8]), PacketFault>
    ensures { Gives (λ x. (x.0, x.1.now)) result (float_at end bytes.now) }
{
    let (_, rest) = number_at(bytes, end)?;
    Ok((Arg::Foreign, rest))
}

/// The argument of a tag `s`.
#[tactic(auto, unfolding(crate::specs::Reading::text_at))]
fn text_at(alloc: Global, bytes: &[u8], end: u16) -> Result<(Arg, &[u8]), PacketFault>
    ensures { Gives (λ x. (x.0, x.1.now)) result (text_at end bytes.now) }
{
    if bytes.is_empty() {
        return Err(fault_at(PacketKind::Short, end, bytes));
    }
    let (text, rest) = string_at(bytes, end)?;
    Ok((Arg::Text(owned(alloc, text)?), rest))
}

/// The argument of a tag `b`. Its faults stand at its size.
#[tactic(auto, unfolding(crate::specs::Reading::blob_at))]
fn blob_at(bytes: &[u8], end: u16) -> Result<(Arg, &[u8]), PacketFault>
    ensures { Gives (λ x. (x.0, x.1.now)) result (blob_at end bytes.now) }
{
    let (size, behind) = number_at(bytes, end)?;
    let size = size as usize;
    let zeros = (4 - size % 4) % 4;
    if behind.len() < size + zeros {
        return Err(fault_at(PacketKind::Short, end, bytes));
    }
    if begins_with_zeros(zeros, &behind[size..]) {
        Ok((Arg::Foreign, &behind[size + zeros..]))
    } else {
        Err(fault_at(PacketKind::Text, end, bytes))
    }
}

/// The argument of a tag.
fn arg_at(alloc: Global, tag: u8, bytes: &[u8], end: u16) -> Result<(Arg, &[u8]), PacketFault>
    ensures { Gives (λ x. (x.0, x.1.now)) result (arg_at tag end bytes.now) }
{
    match tag {
        b'i' => int_at(bytes, end),
        b's' => text_at(alloc, bytes, end),
        b'f' => float_at(bytes, end),
        _ => blob_at(bytes, end),
    }
}

/// The arguments of all tags, in order.
#[tactic(auto, unfolding(crate::specs::Reading::args_at))]
pub(crate) fn args_at<'a>(
    alloc: Global,
    tags: &[u8],
    bytes: &'a [u8],
    end: u16,
) -> Result<(Args, &'a [u8]), PacketFault>
    ensures { Gives (λ x. (x.0, x.1.now)) result (args_at tags.now end bytes.now) }
{
    let mut args = Vec::new(alloc);
    let mut rest = bytes;
    'tags: for tag in tags {
        let (arg, after) = arg_at(alloc, *tag, rest, end)?;
        match args.push(arg) {
            Ok(()) => {}
            Err(_) => return Err(NO_MEMORY),
        }
        rest = after;
    }
    Ok((Args::of(args), rest))
}
