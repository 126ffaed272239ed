//! Why bytes are no packet.
use thiserror::Error;

/// What is wrong with bytes that spell no packet: the first fault from left to right, with its place from 0.
#[derive(Clone, Copy, Debug, PartialEq, Eq, Error)]
pub enum WireFault {
    /// The bytes end within a field; the place is their count.
    #[error("the packet ends within a field, at byte {at}")]
    Short { at: u64 },
    /// The byte in a tag's place is none.
    #[error("byte {byte} at {at} is no tag")]
    BadTag { at: u64, byte: u8 },
    /// The field that begins at this place is out of its range.
    #[error("the field at byte {at} is out of range")]
    BadField { at: u64 },
    /// The packet ends before this place, and the bytes do not.
    #[error("bytes follow the packet, from byte {at} on")]
    Extra { at: u64 },
}

/// What a reader met, with the count of the bytes that were left from there on.
#[derive(Clone, Copy, Debug, PartialEq, Eq)]
pub enum Fault {
    Short,
    Tag { left: usize, byte: u8 },
    Field { left: usize },
}
