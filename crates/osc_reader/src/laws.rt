//! What holds of the definitions.

ghost use Rattle.std.specs.Prelude.{◌≡◌, ◌≤◌, ℕ, List, [], ◌∷◌, ◌++◌, length, replicate, IsTrue, Err};
ghost use Rattle.std.specs.List.{AllByRecursion};
ghost use Rattle.osc_reader.specs.Strings.{has_no_zero};
ghost use Rattle.osc_reader.specs.Grammar.{BeginsWith, IsPacket};
ghost use Rattle.osc_reader.specs.Putting.{max_message};
ghost use Rattle.osc_reader.specs.Written.{IsWritable, message_bytes, read_message};
ghost use Rattle.osc_reader.specs.Reading.{packet_at};
ghost use Rattle.osc_reader.specs.declared.fault.PacketFault.{PacketFault};
ghost use Rattle.osc_reader.specs.declared.message.Message.{Message};
ghost use Rattle.osc_reader.specs.declared.write.OutArg.{OutArg};

/// What is written is a packet, which says the message that was written.
pub fn what_is_written_is_read()
    ensures { (address : List ℕ) (args : List OutArg) → BeginsWith 47 address →
        IsTrue (has_no_zero address) → AllByRecursion IsWritable args
        → length (message_bytes address args) ≤ max_message →
        IsPacket (message_bytes address args) (read_message address args ∷ []) }
{}

/// Bytes say one list of messages at most.
pub fn a_packet_has_one_reading()
    ensures { (bytes : List ℕ) (messages others : List Message) → IsPacket bytes messages →
        IsPacket bytes others → messages ≡ others }
{}

/// The first fault of a packet stands in it, at an offset up to its length; a size that no packet
/// has stands at 0.
pub fn a_fault_stands_in_its_packet()
    ensures { (bytes : List ℕ) (fault : PacketFault) → packet_at bytes ≡ Err fault →
        fault.at ≤ length bytes }
{}
