// A source and a sink in memory whose calls fail by a list, for trying what happens then.
ghost use Rattle.std.specs.Prelude.{◌≡◌, ◌↔◌, ◌⊎◌, ◌-◌, ◌<◌, ◌++◌, []};
ghost use Rattle.std.specs.Prelude.{length, take, drop, min, Some, IfOk, OnErr, IsErr, IsTrue, Contains};
ghost use Rattle.std.specs.Io.{ReadsAtMost, WritesAtMost};
ghost use Rattle.std.specs.Io.KnownBytes.{ReadConsumes, WriteAppends};
ghost use Rattle.zeus_io.specs.Bytes.{WritesInRoom};
ghost use Rattle.zeus_io.specs.Faults.{HasCause, one_more};

use crate::memory::{SafeSink, SafeSource};
use crate::sink::Sink;
use crate::source::{Failed, Source};
use std::alloc::{AllocError, Global};
use std::marker::Model;

// The numbers of the calls that fail, and how many calls came.
#[derive(Drop)]
struct Plan {
    fails: Vec<u64>,
    calls: u64,
}

impl Plan {
    // Counts a call, and tells whether it is one that fails.
    fn next_fails(&mut self) -> bool
        ensures fails { IsTrue result ↔ Contains self.old.fails.items self.old.calls }
        ensures counted { self.new.calls ≡ one_more self.old.calls }
        ensures same { self.new.fails ≡ self.old.fails }
    {
        let call = self.calls;
        self.calls = self.calls.saturating_add(1);
        self.fails.contains(&call)
    }
}

/// A source over bytes in memory that moves few bytes a call, and fails exactly at the calls of a
/// list. Calls are counted from 0, and the count stands still at its type's end.
#[derive(Drop)]
pub struct MemSource {
    source: SafeSource,
    piece: usize,
    plan: Plan,
    faults: u64,
}

impl Model for MemSource {
    ghost use Rattle.std.specs.Prelude.{◌<◌};
    ghost use Rattle.zeus_io.specs.Memory.{PlannedSource};

    ghost Value = { PlannedSource };

    ghost view = { λ s. record { left = s.source; piece = s.piece; fails = s.plan.fails.items; calls = s.plan.calls; faults = s.faults } };

    ghost invariant = { λ s. 0 < s.piece };
}

impl MemSource {
    /// The source with all these bytes left, of which a call moves at most `piece`, and whose calls
    /// with the numbers `fails` fail.
    pub fn new(bytes: Vec<u8>, piece: usize, fails: Vec<u64>) -> MemSource
        requires { 0 < piece }
        ensures { result ≡ record { left = bytes.items; piece = piece; fails = fails.items; calls = 0; faults = 0 } }
    {
        MemSource {
            source: SafeSource::new(bytes),
            piece,
            plan: Plan { fails, calls: 0 },
            faults: 0,
        }
    }
}

impl Source for MemSource {
    ghost left = { λ s. Some s.left };

    ghost faults = { λ s. s.faults };

    fn read(&mut self, buf: &mut [u8]) -> Result<usize, Failed>
        ensures bound { ReadsAtMost result buf.new }
        ensures bytes { ReadConsumes (Some self.old.left) (Some self.new.left) result buf.new }
        ensures cause { HasCause self.old.faults self.new.faults result }

        ensures fails { IsErr result ↔ Contains self.old.fails self.old.calls }
        ensures count { IfOk result (λ n. n ≡ min (min (length buf.old) self.old.piece) (length self.old.left)) }
        ensures filled { IfOk result (λ n. buf.new ≡ take n self.old.left ++ drop n buf.old) }
        ensures ok { IfOk result (λ n. self.new ≡ record self.old { left = drop n self.old.left; calls = one_more self.old.calls }) }
        ensures err { OnErr result (self.new ≡ record self.old { calls = one_more self.old.calls; faults = one_more self.old.faults }) }
        ensures untouched { OnErr result (buf.new ≡ buf.old) }
    {
        if self.plan.next_fails() {
            self.faults = self.faults.saturating_add(1);
            return Err(Failed);
        }
        let most = buf.len().min(self.piece);
        Ok(self.source.give(&mut buf[..most]))
    }
}

/// A sink in memory with a fixed room that moves few bytes a call, and fails exactly at the calls of
/// a list, and where a piece that is not empty finds none of its room left. Calls are counted from
/// 0, and the count stands still at its type's end.
#[derive(Drop)]
pub struct MemSink {
    sink: SafeSink,
    piece: usize,
    plan: Plan,
}

impl Model for MemSink {
    ghost use Rattle.std.specs.Prelude.{◌<◌};
    ghost use Rattle.zeus_io.specs.Memory.{PlannedSink};

    ghost Value = { PlannedSink };

    ghost view = { λ s. record {
      held = s.sink.held;
      room = s.sink.room;
      piece = s.piece;
      fails = s.plan.fails.items;
      calls = s.plan.calls;
      faults = s.sink.faults;
    } };

    ghost invariant = { λ s. 0 < s.piece };
}

impl MemSink {
    /// An empty sink with room for `room` bytes, all of which is taken at once, of which a call moves
    /// at most `piece`, and whose calls with the numbers `fails` fail.
    pub fn with_room(
        alloc: Global,
        room: usize,
        piece: usize,
        fails: Vec<u64>,
    ) -> Result<MemSink, AllocError>
        requires { 0 < piece }
        ensures { IfOk result (λ sink. sink ≡ record { held = []; room = room; piece = piece; fails = fails.items; calls = 0; faults = 0 }) }
    {
        Ok(MemSink {
            sink: SafeSink::with_room(alloc, room)?,
            piece,
            plan: Plan { fails, calls: 0 },
        })
    }

    /// The bytes that the sink holds.
    pub fn bytes(&self) -> &[u8]
        ensures { result.now ≡ self.now.held }
    {
        self.sink.bytes()
    }
}

impl Sink for MemSink {
    ghost held = { λ s. Some s.held };

    ghost faults = { λ s. s.faults };

    fn write(&mut self, piece: &[u8]) -> Result<usize, Failed>
        ensures bound { WritesAtMost result piece.now }
        ensures bytes { WriteAppends (Some self.old.held) (Some self.new.held) result piece.now }
        ensures some { IfOk result (λ n. 0 < length piece.now → 0 < n) }
        ensures cause { HasCause self.old.faults self.new.faults result }
        ensures room { WritesInRoom 0 0 self.old.faults self.new.faults result }

        ensures fails { IsErr result ↔ (Contains self.old.fails self.old.calls ⊎ ((0 < length piece.now) × (self.old.room ≡ 0))) }
        ensures count { IfOk result (λ n. n ≡ min (min (length piece.now) self.old.piece) self.old.room) }
        ensures ok { IfOk result (λ n. self.new ≡ record self.old {
          held = self.old.held ++ take n piece.now;
          room = self.old.room - n;
          calls = one_more self.old.calls;
        }) }
        ensures err { OnErr result (self.new ≡ record self.old { calls = one_more self.old.calls; faults = one_more self.old.faults }) }
    {
        if self.plan.next_fails() {
            return Err(self.sink.fail());
        }
        let most = piece.len().min(self.piece);
        self.sink.write(&piece[..most])
    }
}
