//! The bytes that are left to be read.
ghost use Rattle.std.specs.Prelude.{◌≡◌, ◌≤◌, length};
ghost use Rattle.zeus_wire.specs.Reading.{IsRead, text_at, u16_at, u32_at, u64_at, u8_at};

use crate::fault::Fault;
use std::marker::Model;
use zeus_base::Text;

/// The bytes that are left to be read, seen as their list.
#[derive(Debug, Drop)]
pub struct Input<'a> {
    bytes: &'a [u8],
}

impl<'a> Model for Input<'a> {
    ghost use Rattle.std.specs.Prelude.{List, ℕ};

    ghost Value = { List ℕ };

    ghost view = { λ i. i.bytes.now };
}

impl<'a> Input<'a> {
    /// All of these bytes are left to read.
    pub fn new(bytes: &'a [u8]) -> Input<'a>
        ensures { result ≡ bytes.now }
    {
        Input { bytes }
    }

    /// How many bytes are left.
    pub fn len(&self) -> usize
        ensures { result ≡ length self.now }
    {
        self.bytes.len()
    }

    /// Takes the next byte.
    #[tactic(auto, unfolding(crate::specs::Reading::u8_at))]
    pub fn u8(&mut self) -> Result<u8, Fault>
        ensures { IsRead result self.new (u8_at self.old) }
    {
        match self.bytes.split_first() {
            None => Err(Fault::Short),
            Some((byte, rest)) => {
                self.bytes = rest;
                Ok(*byte)
            }
        }
    }

    /// Takes two bytes as a number, most significant first.
    #[tactic(auto, unfolding(crate::specs::Reading::u16_at, crate::specs::Reading::bytes_at, crate::specs::Reading::and_then))]
    pub fn u16(&mut self) -> Result<u16, Fault>
        ensures { IsRead result self.new (u16_at self.old) }
    {
        match self.bytes.split_first_chunk::<2>() {
            None => Err(Fault::Short),
            Some((front, rest)) => {
                self.bytes = rest;
                Ok(u16::from_be_bytes(*front))
            }
        }
    }

    /// Takes four bytes as a number, most significant first.
    #[tactic(auto, unfolding(crate::specs::Reading::u32_at, crate::specs::Reading::bytes_at, crate::specs::Reading::and_then))]
    pub fn u32(&mut self) -> Result<u32, Fault>
        ensures { IsRead result self.new (u32_at self.old) }
    {
        match self.bytes.split_first_chunk::<4>() {
            None => Err(Fault::Short),
            Some((front, rest)) => {
                self.bytes = rest;
                Ok(u32::from_be_bytes(*front))
            }
        }
    }

    /// Takes eight bytes as a number, most significant first.
    #[tactic(auto, unfolding(crate::specs::Reading::u64_at, crate::specs::Reading::bytes_at, crate::specs::Reading::and_then))]
    pub fn u64(&mut self) -> Result<u64, Fault>
        ensures { IsRead result self.new (u64_at self.old) }
    {
        match self.bytes.split_first_chunk::<8>() {
            None => Err(Fault::Short),
            Some((front, rest)) => {
                self.bytes = rest;
                Ok(u64::from_be_bytes(*front))
            }
        }
    }

    /// A text of so many bytes.
    #[tactic(auto, unfolding(crate::specs::Reading::text_at, crate::specs::Reading::bytes_at, crate::specs::Reading::and_then))]
    pub fn text(&mut self, len: u8) -> Result<Text, Fault>
        requires some { 1 ≤ len }
        requires short { len ≤ 32 }
        ensures { IsRead result self.new (text_at len self.old) }
    {
        let len = usize::from(len);
        if self.bytes.len() < len {
            return Err(Fault::Short);
        }
        let left = self.bytes.len();
        let (front, rest) = self.bytes.split_at(len);
        match Text::new(front) {
            None => Err(Fault::Field { left }),
            Some(text) => {
                self.bytes = rest;
                Ok(text)
            }
        }
    }
}
