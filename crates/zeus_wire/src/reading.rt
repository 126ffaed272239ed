//! Packets from bytes.
ghost use Rattle.std.specs.Prelude.{◌≡◌, ◌≤◌, ℕ, IfOk, Ok, true};
ghost use Rattle.zeus_packet.specs.Fits.{fits};
ghost use Rattle.zeus_packet.specs.declared.letter.Packet.{Packet};
ghost use Rattle.zeus_wire.specs.Ranges.{AreLimits, IsPacket};
ghost use Rattle.zeus_wire.specs.Reading.{IsRead, decoded, decoded_front, packet_at, placed};
ghost use Rattle.zeus_model.specs.PacketSpelling.{packet_bytes};

mod body;
mod fields;
mod input;
mod values;

use crate::fault::{Fault, WireFault};
use body::read_body;
use fields::read_node;
use input::Input;
use std::alloc::Global;
use zeus_packet::{Letter, Limits, Packet};

#[tactic(auto, unfolding(crate::specs::Reading::packet_at, crate::specs::Reading::and_then))]
fn read_packet(alloc: Global, limits: Limits, input: &mut Input<'_>) -> Result<Packet, Fault>
    requires { AreLimits limits }
    ensures { IsRead result input.new (packet_at limits input.old) }
{
    let left = input.len();
    let version = input.u8()?;
    if version != limits.version {
        return Err(Fault::Field { left });
    }
    let number = input.u32()?;
    let from = read_node(limits, input)?;
    let to = read_node(limits, input)?;
    let left = input.len();
    let epoch = input.u32()?;
    if epoch == 0 {
        return Err(Fault::Field { left });
    }
    let body = read_body(alloc, limits, input)?;
    Ok(Packet {
        number,
        letter: Letter {
            from,
            to,
            epoch,
            body,
        },
    })
}

/// The fault with its place among so many bytes.
#[tactic(auto, unfolding(crate::specs::Reading::placed))]
fn placed(count: usize, fault: Fault) -> WireFault
    ensures { result ≡ placed count fault }
{
    let place = |left: usize| count.saturating_sub(left) as u64;
    match fault {
        Fault::Short => WireFault::Short { at: count as u64 },
        Fault::Tag { left, byte } => WireFault::BadTag {
            at: place(left),
            byte,
        },
        Fault::Field { left } => WireFault::BadField { at: place(left) },
    }
}

/// The packet at the front of the bytes, whatever follows it, and how many bytes it has.
///
/// # Errors
/// The first fault from left to right, with its place: a field that is not whole (`Short`), a byte that is no tag
/// (`BadTag`), or a field out of the range of the limits (`BadField`).
#[tactic(auto, unfolding(crate::specs::Reading::decoded_front, crate::specs::Reading::counted))]
pub fn decode_front(
    alloc: Global,
    bytes: &[u8],
    limits: &Limits,
) -> Result<(Packet, usize), WireFault>
    requires { AreLimits limits.now }
    ensures { result ≡ decoded_front limits.now bytes.now }
{
    let mut input = Input::new(bytes);
    match read_packet(alloc, *limits, &mut input) {
        Err(fault) => Err(placed(bytes.len(), fault)),
        Ok(packet) => Ok((packet, bytes.len().saturating_sub(input.len()))),
    }
}

/// The packet that all of the bytes are.
#[tactic(auto, unfolding(crate::specs::Reading::decoded, crate::specs::Reading::decoded_front, crate::specs::Reading::counted, crate::specs::Reading::without_rest))]
fn decode_whole(alloc: Global, bytes: &[u8], limits: Limits) -> Result<Packet, WireFault>
    requires { AreLimits limits }
    ensures { result ≡ decoded limits bytes.now }
{
    let mut input = Input::new(bytes);
    match read_packet(alloc, limits, &mut input) {
        Err(fault) => Err(placed(bytes.len(), fault)),
        Ok(packet) => {
            let len = bytes.len().saturating_sub(input.len());
            if len < bytes.len() {
                return Err(WireFault::Extra { at: len as u64 });
            }
            Ok(packet)
        }
    }
}

/// The packet that the bytes spell.
///
/// # Errors
/// The first fault from left to right, with its place: a field that is not whole (`Short`), a byte that is no tag
/// (`BadTag`), a field out of the range of the limits (`BadField`), or a byte behind the packet (`Extra`).
#[tactic(auto, unfolding(crate::specs::Reading::decoded))]
pub fn decode(alloc: Global, bytes: &[u8], limits: &Limits) -> Result<Packet, WireFault>
    requires { AreLimits limits.now }
    // What is read is spelled so, and fits.
    ensures found { IfOk result (λ p. (bytes.now ≡ packet_bytes limits.now.version p) × (fits p.letter limits.now ≡ true)) }
    // What is spelled so, and fits, is read.
    ensures only { (p : Packet) → IsPacket p → fits p.letter limits.now ≡ true → bytes.now ≡ packet_bytes limits.now.version p → result ≡ Ok p }
    // Which fault it is.
    ensures exact { result ≡ decoded limits.now bytes.now }
{
    decode_whole(alloc, bytes, *limits)
}
