//! Laws of the format, over its definitions alone.
ghost use Rattle.std.specs.Prelude.{◌≡◌, ◌++◌, ℕ, List, Ok, true};
ghost use Rattle.zeus_base.specs.declared.config.Limits.{Limits};
ghost use Rattle.zeus_packet.specs.Fits.{fits};
ghost use Rattle.zeus_packet.specs.declared.letter.Packet.{Packet};
ghost use Rattle.zeus_wire.specs.Ranges.{AreBytes, AreLimits, IsPacket};
ghost use Rattle.zeus_wire.specs.Reading.{decoded, packet_at};
ghost use Rattle.zeus_model.specs.PacketSpelling.{packet_bytes};

/// What was written is read again, whatever bytes follow it, so no spelling begins another.
#[tactic(auto, using(crate::proofs::Again::packet_again, crate::proofs::Again::no_prefix))]
pub fn what_was_written_is_read_again()
    ensures again { (limits : Limits) (p : Packet) (rest : List ℕ) → AreLimits limits → IsPacket p → fits p.letter limits ≡ true
        → packet_at limits (packet_bytes limits.version p ++ rest) ≡ Ok (p, rest) }
    ensures no_prefix { (limits : Limits) (p q : Packet) (rest more : List ℕ) → AreLimits limits → IsPacket p → fits p.letter limits ≡ true
        → IsPacket q → fits q.letter limits ≡ true
        → packet_bytes limits.version p ++ rest ≡ packet_bytes limits.version q ++ more → (p ≡ q) × (rest ≡ more) }
{}

/// What is read was spelled so, and fits the limits: each packet has one spelling.
#[tactic(auto, using(crate::proofs::FoundPackets::one_spelling))]
pub fn what_is_read_is_spelled_so()
    ensures { (limits : Limits) (bytes : List ℕ) (p : Packet) (rest : List ℕ) → AreBytes bytes → packet_at limits bytes ≡ Ok (p, rest)
        → (bytes ≡ packet_bytes limits.version p ++ rest) × IsPacket p × (fits p.letter limits ≡ true) }
{}
