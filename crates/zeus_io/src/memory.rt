// A source and a sink in memory.
ghost use Rattle.std.specs.Prelude.{◌≡◌, ◌↔◌, ◌+◌, ◌-◌, ◌<◌, ◌≤◌, ◌++◌, []};
ghost use Rattle.std.specs.Prelude.{length, take, drop, min, Some, Ok, IfOk, OnErr, IsErr, vec_len, vec_capacity};
ghost use Rattle.std.specs.Io.{ReadsAtMost, WritesAtMost};
ghost use Rattle.std.specs.Io.KnownBytes.{ReadConsumes, WriteAppends};
ghost use Rattle.zeus_io.specs.Bytes.{WritesInRoom};
ghost use Rattle.zeus_io.specs.Faults.{HasCause, one_more};

use crate::sink::Sink;
use crate::source::{Failed, Source};
use std::alloc::{AllocError, Global};
use std::marker::Model;

/// A source over bytes in memory, which never fails. Contracts see it as the bytes that are left.
#[derive(Drop)]
pub struct SafeSource {
    bytes: Vec<u8>,
    at: usize,
}

impl Model for SafeSource {
    ghost use Rattle.std.specs.Prelude.{ℕ, ◌≤◌, List, drop, vec_len};

    ghost Value = { List ℕ };

    ghost view = { λ s. drop s.at s.bytes.items };

    ghost invariant = { λ s. s.at ≤ vec_len s.bytes };
}

impl SafeSource {
    /// The source with all these bytes left.
    pub fn new(bytes: Vec<u8>) -> SafeSource
        ensures { result ≡ bytes.items }
    {
        SafeSource { bytes, at: 0 }
    }

    /// Moves as many bytes as there are, and as fit, into the front of the buffer.
    pub(crate) fn give(&mut self, buf: &mut [u8]) -> usize
        ensures count { result ≡ min (length buf.old) (length self.old) }
        ensures left { self.new ≡ drop result self.old }
        ensures filled { buf.new ≡ take result self.old ++ drop result buf.old }
    {
        let count = buf.len().min(self.bytes.len() - self.at);
        buf[..count].copy_from_slice(&self.bytes[self.at..self.at + count]);
        self.at += count;
        count
    }
}

impl Source for SafeSource {
    ghost left = { λ s. Some s };

    ghost faults = { λ _. 0 };

    fn read(&mut self, buf: &mut [u8]) -> Result<usize, Failed>
        ensures bound { ReadsAtMost result buf.new }
        ensures bytes { ReadConsumes (Some self.old) (Some self.new) result buf.new }
        ensures cause { HasCause 0 0 result }
        ensures count { result ≡ Ok (min (length buf.old) (length self.old)) }
        ensures left { IfOk result (λ n. self.new ≡ drop n self.old) }
        ensures filled { IfOk result (λ n. buf.new ≡ take n self.old ++ drop n buf.old) }
    {
        Ok(self.give(buf))
    }
}

/// A sink in memory with a fixed room. It fails exactly where a piece that is not empty finds none
/// of its room left.
#[derive(Drop)]
pub struct SafeSink {
    bytes: Vec<u8>,
    limit: usize,
    faults: u64,
}

impl Model for SafeSink {
    ghost use Rattle.std.specs.Prelude.{◌-◌, ◌≤◌, vec_len, vec_capacity};
    ghost use Rattle.zeus_io.specs.Memory.{Bounded};

    ghost Value = { Bounded };

    ghost view = { λ s. record { held = s.bytes.items; room = s.limit - vec_len s.bytes; faults = s.faults } };

    ghost invariant = { λ s. (vec_len s.bytes ≤ s.limit) × (s.limit ≤ vec_capacity s.bytes) };
}

impl SafeSink {
    /// An empty sink with room for `room` bytes, all of which is taken at once.
    pub fn with_room(alloc: Global, room: usize) -> Result<SafeSink, AllocError>
        ensures { IfOk result (λ sink. sink ≡ record { held = []; room = room; faults = 0 }) }
    {
        let bytes = Vec::with_capacity(alloc, room)?;
        Ok(SafeSink {
            bytes,
            limit: room,
            faults: 0,
        })
    }

    /// The bytes that the sink holds.
    pub fn bytes(&self) -> &[u8]
        ensures { result.now ≡ self.now.held }
    {
        &self.bytes
    }

    /// Counts a fault.
    pub(crate) fn fail(&mut self) -> Failed
        ensures counted { self.new ≡ record self.old { faults = one_more self.old.faults } }
        ensures later { self.old.faults ≤ self.new.faults }
    {
        self.faults = self.faults.saturating_add(1);
        Failed
    }
}

// Appends what fits without taking memory.
fn append(bytes: &mut Vec<u8>, piece: &[u8])
    requires { vec_len bytes.old + length piece.now ≤ vec_capacity bytes.old }
    ensures items { bytes.new.items ≡ bytes.old.items ++ piece.now }
    ensures len { vec_len bytes.new ≡ vec_len bytes.old + length piece.now }
    ensures capacity { vec_capacity bytes.old ≤ vec_capacity bytes.new }
{
    bytes.extend_from_slice(piece).unwrap();
}

impl Sink for SafeSink {
    ghost held = { λ s. Some s.held };

    ghost faults = { λ s. s.faults };

    ghost room = { λ s. s.room };

    fn write(&mut self, piece: &[u8]) -> Result<usize, Failed>
        ensures bound { WritesAtMost result piece.now }
        ensures bytes { WriteAppends (Some self.old.held) (Some self.new.held) result piece.now }
        ensures some { IfOk result (λ n. 0 < length piece.now → 0 < n) }
        ensures cause { HasCause self.old.faults self.new.faults result }
        ensures room { WritesInRoom self.old.room self.new.room self.old.faults self.new.faults result }

        ensures fails { IsErr result ↔ ((0 < length piece.now) × (self.old.room ≡ 0)) }
        ensures count { IfOk result (λ n. n ≡ min (length piece.now) self.old.room) }
        ensures ok { IfOk result (λ n. self.new ≡ record self.old { held = self.old.held ++ take n piece.now; room = self.old.room - n }) }
        ensures err { OnErr result (self.new ≡ record self.old { faults = one_more self.old.faults }) }
    {
        let count = piece.len().min(self.limit - self.bytes.len());
        if count == 0 && !piece.is_empty() {
            return Err(self.fail());
        }
        append(&mut self.bytes, &piece[..count]);
        Ok(count)
    }
}
