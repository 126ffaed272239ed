//! One link, as one run of bytes and the place where each packet begins.
ghost use Rattle.std.specs.Prelude.{◌≡◌, ◌<◌, ◌≤◌, ◌+◌, ◌++◌, ◌∷◌, [], OnOk, drop, length, slice_get, true};
ghost use Rattle.std.specs.Option.{option_map};
ghost use Rattle.zeus_packet.specs.Fits.{fits};
ghost use Rattle.zeus_wire.specs.Ranges.{largest};
ghost use Rattle.lossy_fabric.specs.Links.{no_link, numbered, packet_read};
ghost use Rattle.zeus_wire.specs.Reading.{decoded_front};

use std::alloc::Global;
use std::marker::Model;
use zeus_base::NoMemory;
use zeus_packet::{Letter, Packet};
use zeus_wire::{decode_front, encode_letter_into, largest};

/// How many letters a link has at most, so that each has its number.
const MOST: usize = 0xffff_ffff;

/// How many letters a step of a run sends at most.
pub const STEP_LETTERS: usize = 64;

/// The most bytes that the letters of a step have.
const STEP_BYTES: usize = 64 * 368;

/// The version in which the packets are spelled.
const VERSION: u8 = 2;

/// One link, seen as its letters and the room for more.
#[derive(Debug, Drop)]
pub struct Link {
    bytes: Vec<u8>,
    /// Where each packet begins, in the order of their numbers.
    starts: Vec<usize>,
}

impl Model for Link {
    ghost use Rattle.std.specs.Prelude.{◌≤◌, vec_len};
    ghost use Rattle.lossy_fabric.specs.Links.{AreAt, LinkState, letters_at, link_room};

    ghost Value = { LinkState };

    ghost view = { λ l. record { letters = letters_at l.bytes.items l.starts.items; room = link_room l.bytes l.starts } };

    ghost invariant = { λ l. (vec_len l.starts ≤ 4294967295) × AreAt l.bytes.items 0 l.starts.items };
}

impl Link {
    /// A link without a packet.
    #[tactic(auto, unfolding(crate::specs::Links::letters_at, crate::specs::Links::link_room, crate::specs::Links::AreAt))]
    pub fn new(alloc: Global) -> Link
        ensures { result ≡ no_link }
    {
        Link {
            bytes: Vec::new(alloc),
            starts: Vec::new(alloc),
        }
    }

    /// Room for the letters of a step; the letters stay, whatever the result.
    #[tactic(auto, unfolding(crate::specs::Links::link_room))]
    pub fn reserve(&mut self) -> Result<(), NoMemory>
        ensures letters { self.new.letters ≡ self.old.letters }
        ensures room { OnOk result (64 ≤ self.new.room) }
    {
        let len = self.starts.len();
        if len > MOST || MOST - len < STEP_LETTERS {
            return Err(NoMemory);
        }
        self.starts.reserve(STEP_LETTERS).map_err(|_| NoMemory)?;
        self.bytes.reserve(STEP_BYTES).map_err(|_| NoMemory)
    }

    /// Adds a letter, for which there is room; answers its number.
    pub fn push(&mut self, letter: &Letter) -> u32
        requires fits { fits letter.now (largest 2) ≡ true }
        requires room { 0 < self.old.room }
        ensures letters { self.new.letters ≡ self.old.letters ++ letter.now ∷ [] }
        ensures room { self.old.room ≤ self.new.room + 1 }
        ensures number { result ≡ length self.old.letters }
    {
        let number = self.starts.len() as u32;
        self.starts.push_reserved(self.bytes.len());
        encode_letter_into(number, letter, VERSION, &mut self.bytes);
        number
    }

    /// The packet of this number, where there is one.
    pub fn get(&self, number: u32) -> Option<Packet>
        ensures { result ≡ option_map (numbered number) (slice_get self.now.letters number) }
    {
        let start = start_of(&self.starts, number)?;
        packet_at(*self.bytes.allocator(), &self.bytes, start)
    }

    /// How many packets the link has.
    pub fn count(&self) -> u32
        ensures { result ≡ length self.now.letters }
    {
        self.starts.len() as u32
    }
}

/// Where the packet of this number begins, where there is one.
fn start_of(starts: &[usize], number: u32) -> Option<usize>
    ensures { result ≡ slice_get starts.now number }
{
    starts.get(number as usize).copied()
}

/// The packet that begins at this place, if one does.
#[tactic(auto, unfolding(crate::specs::Links::packet_read))]
fn packet_at(alloc: Global, bytes: &[u8], start: usize) -> Option<Packet>
    requires { start ≤ length bytes.now }
    ensures { result ≡ packet_read (decoded_front (largest 2) (drop start bytes.now)) }
{
    match decode_front(alloc, &bytes[start..], &largest(VERSION)) {
        Ok((packet, _)) => Some(packet),
        Err(_) => None,
    }
}
