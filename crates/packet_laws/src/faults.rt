//! No fault stands before the first.

ghost use Rattle.std.specs.Prelude.{◌≡◌, ◌≤◌, ℕ, List, length, take, Err};
ghost use Rattle.osc_reader.specs.declared.PacketFault.{PacketFault};
ghost use Rattle.osc_reader.specs.Reading.{packet_at};

/// What stands before the place of a fault is read: as many bytes that begin with it have no fault
/// before that place. So where two packets of one length are the same up to the later of their
/// faults, both stand at one place.
pub fn what_stands_before_a_fault_is_read()
    ensures first { (bytes others : List ℕ) → (fault other : PacketFault) →
        packet_at bytes ≡ Err fault → packet_at others ≡ Err other →
        length others ≡ length bytes → take fault.at others ≡ take fault.at bytes →
        fault.at ≤ other.at }
    ensures same { (bytes others : List ℕ) → (fault other : PacketFault) → (n : ℕ) →
        packet_at bytes ≡ Err fault → packet_at others ≡ Err other →
        length others ≡ length bytes → take n others ≡ take n bytes →
        fault.at ≤ n → other.at ≤ n → fault.at ≡ other.at }
{}
