//! Whole packets, and the bundles in them.

ghost use Rattle.std.specs.Prelude.{◌≡◌, ◌≢◌, ◌<◌, List, length, IfOk, OnOk};
ghost use Rattle.osc_reader.specs.declared.message.Message.{Message};
ghost use Rattle.osc_reader.specs.Grammar.{IsPacket, max_packet, max_depth};
ghost use Rattle.osc_reader.specs.Places.{Gives};
ghost use Rattle.osc_reader.specs.Reading.{message_at, part_of_size, element_at, elements_behind, bundle_at, single_at, part_at, packet_at, is_bundle, is_packet_size};
ghost use Rattle.osc_reader.specs.Adding.{Adds};

use crate::fault::{NO_MEMORY, PacketFault, PacketKind, fault_at, place};
use crate::fields::{address_at, args_at, number_at, owned, tags_at};
use crate::message::{Message, Messages};
use std::alloc::Global;

/// The greatest number of bytes in a packet.
pub const MAX_PACKET: usize = 8192;
/// How many bundles stand in one another at most.
pub const MAX_DEPTH: u8 = 8;

/// A whole part as one message.
#[tactic(auto, unfolding(crate::specs::Reading::message_at))]
fn message_at(alloc: Global, bytes: &[u8], end: u16) -> Result<Message, PacketFault>
    ensures { Gives (λ message. message) result (message_at end bytes.now) }
{
    let (address, rest) = address_at(bytes, end)?;
    let (tags, rest) = tags_at(rest, end)?;
    let (args, left) = args_at(alloc, tags, rest, end)?;
    if !left.is_empty() {
        return Err(fault_at(PacketKind::Extra, end, left));
    }
    let address = owned(alloc, address)?;
    Ok(Message { address, args })
}

/// The size of an element, and the part of that size.
#[tactic(auto, unfolding(crate::specs::Reading::element_at))]
fn element_at(bytes: &[u8], end: u16) -> Result<(&[u8], &[u8]), PacketFault>
    ensures value { Gives (λ x. (x.0.now, x.1.now)) result (element_at end bytes.now) }
    ensures less { IfOk result (λ x. length x.1.now < length bytes.now) }
{
    let (size, behind) = number_at(bytes, end)?;
    let size = size as usize;
    if size % 4 != 0 || size == 0 {
        return Err(fault_at(PacketKind::Size, end, bytes));
    }
    if behind.len() < size {
        return Err(fault_at(PacketKind::Short, end, bytes));
    }
    let (part, rest) = behind.split_at(size);
    Ok((part, rest))
}

/// The part begins as a bundle does.
fn is_bundle(bytes: &[u8]) -> bool
    ensures { result ≡ is_bundle bytes.now }
{
    bytes.starts_with(b"#bundle\0")
}

/// Adds what a part says as one message.
#[tactic(auto, unfolding(crate::specs::Reading::single_at))]
fn add_single(alloc: Global, bytes: &[u8], end: u16, out: &mut Messages) -> Result<(), PacketFault>
    ensures { Adds out.old out.new result (single_at end bytes.now) }
{
    let message = message_at(alloc, bytes, end)?;
    out.push(message).map_err(|_| NO_MEMORY)
}

/// Adds what the elements of a bundle say. At most `depth` bundles may stand in one another in
/// each.
#[cycle(part)]
fn add_elements(
    alloc: Global,
    depth: u8,
    bytes: &[u8],
    end: u16,
    out: &mut Messages,
) -> Result<(), PacketFault>
    ensures { Adds out.old out.new result (elements_behind (part_at depth) end 0 bytes.now) }
{
    let mut rest = bytes;
    'elements: while !rest.is_empty() {
        let (part, behind) = element_at(rest, end)?;
        add_part(alloc, depth, part, place(end, behind), out)?;
        rest = behind;
    }
    Ok(())
}

/// Adds what a part says, in which at most `depth` bundles may stand in one another.
#[cycle(part)]
fn add_part(
    alloc: Global,
    depth: u8,
    bytes: &[u8],
    end: u16,
    out: &mut Messages,
) -> Result<(), PacketFault>
    ensures { Adds out.old out.new result (part_at depth end bytes.now) }
{
    if !is_bundle(bytes) {
        return add_single(alloc, bytes, end, out);
    }
    if depth == 0 {
        return Err(fault_at(PacketKind::Depth, end, bytes));
    }
    let (_, rest) = bytes.split_at(8);
    if rest.len() < 8 {
        return Err(fault_at(PacketKind::Short, end, rest));
    }
    let (_, elements) = rest.split_at(8);
    add_elements(alloc, depth - 1, elements, end, out)
}

/// A packet has as many bytes.
fn is_packet_size(size: usize) -> bool
    ensures { result ≡ is_packet_size size }
{
    4 <= size && size <= MAX_PACKET && size % 4 == 0
}

/// The messages of a packet, in order, or its first fault.
#[tactic(auto, unfolding(crate::specs::Reading::packet_at))]
fn packet_at(alloc: Global, bytes: &[u8]) -> Result<Messages, PacketFault>
    ensures { Gives (λ messages. messages) result (packet_at bytes.now) }
{
    if !is_packet_size(bytes.len()) {
        return Err(PacketFault {
            kind: PacketKind::Size,
            at: 0,
        });
    }
    let mut messages = Messages::new(alloc);
    add_part(alloc, MAX_DEPTH, bytes, bytes.len() as u16, &mut messages)?;
    Ok(messages)
}

/// The messages of a packet, in order. A fault is the first from left to right, with its offset;
/// `Memory` says nothing of the packet. The source is OSC 1.0, in the profile of docs/formats.md.
pub fn read_packet(alloc: Global, bytes: &[u8]) -> Result<Messages, PacketFault>
    // What is given is said so.
    ensures found { IfOk result (λ messages. IsPacket bytes.now messages) }

    // What is said is given, unless memory ran out.
    ensures only { (messages : List Message) → IsPacket bytes.now messages →
        Gives (λ given. given) result (Ok messages) }

    // Which fault it is, and where.
    ensures fault { Gives (λ messages. messages) result (packet_at bytes.now) }
{
    packet_at(alloc, bytes)
}
