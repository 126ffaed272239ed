//! Packets as bytes.
ghost use Rattle.std.specs.Prelude.{◌≡◌, ◌<◌, ◌≤◌, ◌+◌, ◌^◌, ◌++◌, ◌∷◌, IfOk, OnOk, true};
ghost use Rattle.zeus_packet.specs.Fits.{fits};
ghost use Rattle.zeus_wire.specs.Ranges.{IsPacket, largest, longest, room};
ghost use Rattle.zeus_model.specs.PacketSpelling.{packet_bytes, u32_bytes};

mod body;
mod fields;
mod values;

use body::write_body;
use fields::write_bytes;
use std::alloc::Global;
use zeus_base::NoMemory;
use zeus_packet::{Letter, Limits, Packet};

/// How many bytes the longest packet of a version of the format has.
#[tactic(auto, unfolding(crate::specs::Ranges::longest))]
pub fn longest(version: u8) -> usize
    ensures { result ≡ longest version }
{
    if version == 2 { 368 } else { 168 }
}

/// The largest limits of a version: those of each configuration lie within them.
pub fn largest(version: u8) -> Limits
    ensures { result ≡ largest version }
{
    Limits {
        version,
        nodes: 8,
        slots: 8,
        objects: 256,
    }
}

/// Appends the version of the format, the packet's number, the sender and the receiver of its letter, and the epoch.
#[tactic(auto, using(std::proofs::Common::append_assoc, crate::proofs::Numbers::four_bytes, crate::proofs::Numbers::four_alone))]
fn write_head(out: &mut Vec<u8>, version: u8, number: u32, letter: &Letter)
    requires { 11 ≤ room out.old }
    ensures bytes { out.new.items ≡ out.old.items ++ (version ∷ u32_bytes number ++ (letter.now.from ∷ letter.now.to ∷ u32_bytes letter.now.epoch)) }
    ensures room { room out.old ≤ room out.new + 11 }
    ensures epoch { letter.now.epoch < 2 ^ 32 }
{
    let [a, b, c, d] = number.to_be_bytes();
    let [e, f, g, h] = letter.epoch.to_be_bytes();
    let (from, to) = (letter.from.0, letter.to.0);
    write_bytes(out, &[version, a, b, c, d, from, to, e, f, g, h]);
}

/// Appends the spelling of the packet of this number and letter, for which there is room. Takes no memory.
#[tactic(auto, using(std::proofs::Common::append_assoc, crate::proofs::Room::longest_is), unfolding(zeus_model::specs::PacketSpelling::packet_bytes, zeus_packet::specs::Fits::fits))]
pub fn encode_letter_into(number: u32, letter: &Letter, version: u8, out: &mut Vec<u8>)
    requires fits { fits letter.now (largest version) ≡ true }
    requires room { longest version ≤ room out.old }
    ensures bytes { out.new.items ≡ out.old.items ++ packet_bytes version (record { number = number; letter = letter.now }) }
    ensures room { room out.old ≤ room out.new + longest version }
    ensures packet { IsPacket (record { number = number; letter = letter.now }) }
{
    write_head(out, version, number, letter);
    write_body(out, version, &letter.body);
}

/// Appends the packet's spelling in this version of the format, for which there is room. Takes no memory.
pub fn encode_into(p: &Packet, version: u8, out: &mut Vec<u8>)
    requires fits { fits p.now.letter (largest version) ≡ true }
    requires room { longest version ≤ room out.old }
    ensures bytes { out.new.items ≡ out.old.items ++ packet_bytes version p.now }
    ensures room { room out.old ≤ room out.new + longest version }
    ensures packet { IsPacket p.now }
{
    encode_letter_into(p.number, &p.letter, version, out);
}

/// The packet's spelling in this version of the format.
///
/// # Errors
/// `NoMemory` if the memory is not there.
pub fn encode(alloc: Global, p: &Packet, version: u8) -> Result<Vec<u8>, NoMemory>
    requires { fits p.now.letter (largest version) ≡ true }
    ensures bytes { IfOk result (λ v. v.items ≡ packet_bytes version p.now) }
    ensures packet { OnOk result (IsPacket p.now) }
{
    let mut out = Vec::with_capacity(alloc, longest(version)).map_err(|_| NoMemory)?;
    encode_into(p, version, &mut out);
    Ok(out)
}
