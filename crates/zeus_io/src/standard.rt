// Adapters over a reader and a writer of the standard library.
ghost use Rattle.std.specs.Prelude.{◌≡◌, ◌<◌, length, None, IfOk, OnOk, OnErr};
ghost use Rattle.std.specs.Io.{ReadsAtMost, WritesAtMost};
ghost use Rattle.std.specs.Io.KnownBytes.{ReadConsumes, WriteAppends};
ghost use Rattle.zeus_io.specs.Bytes.{WritesInRoom};
ghost use Rattle.zeus_io.specs.Faults.{HasCause, one_more};
ghost use Rattle.zeus_io.specs.Standard.{reader_of, read_faults, writer_of, write_faults};

use crate::sink::Sink;
use crate::source::{Failed, Source};
use std::io::{Read, Write};

/// A reader as a source. It counts each error of the reader, and tells no bytes.
#[derive(Drop)]
pub struct StdSource<I> {
    input: I,
    faults: u64,
}

impl<I: Read> StdSource<I> {
    /// The source over this reader, with no fault so far.
    pub fn new(input: I) -> StdSource<I>
        ensures reader { reader_of result ≡ input }
        ensures faults { read_faults result ≡ 0 }
    {
        StdSource { input, faults: 0 }
    }
}

impl<I: Read> Source for StdSource<I> {
    ghost left = { λ _. None };

    ghost faults = { read_faults };

    fn read(&mut self, buf: &mut [u8]) -> Result<usize, Failed>
        ensures bound { ReadsAtMost result buf.new }
        ensures bytes { ReadConsumes None None result buf.new }
        ensures cause { HasCause (read_faults self.old) (read_faults self.new) result }

        // Where the reader's own type tells its bytes, these are the bytes that it gave.
        ensures passed { ReadConsumes (I.remaining (reader_of self.old)) (I.remaining (reader_of self.new)) result buf.new }
        ensures ok { OnOk result (read_faults self.new ≡ read_faults self.old) }
        ensures err { OnErr result (read_faults self.new ≡ one_more (read_faults self.old)) }
    {
        match self.input.read(buf) {
            Ok(count) => Ok(count),
            Err(_) => {
                self.faults = self.faults.saturating_add(1);
                Err(Failed)
            }
        }
    }
}

/// A writer as a sink. It counts each error of the writer, and each write that takes nothing of a
/// piece, and tells no bytes. The writer should keep no bytes back, since nothing flushes it.
#[derive(Drop)]
pub struct StdSink<O> {
    output: O,
    faults: u64,
}

impl<O: Write> StdSink<O> {
    /// The sink over this writer, with no fault so far.
    pub fn new(output: O) -> StdSink<O>
        ensures writer { writer_of result ≡ output }
        ensures faults { write_faults result ≡ 0 }
    {
        StdSink { output, faults: 0 }
    }
}

impl<O: Write> Sink for StdSink<O> {
    ghost held = { λ _. None };

    ghost faults = { write_faults };

    fn write(&mut self, piece: &[u8]) -> Result<usize, Failed>
        ensures bound { WritesAtMost result piece.now }
        ensures bytes { WriteAppends None None result piece.now }
        ensures some { IfOk result (λ n. 0 < length piece.now → 0 < n) }
        ensures cause { HasCause (write_faults self.old) (write_faults self.new) result }
        ensures room { WritesInRoom 0 0 (write_faults self.old) (write_faults self.new) result }

        // Where the writer's own type tells its bytes, it took these.
        ensures passed { WriteAppends (O.contents (writer_of self.old)) (O.contents (writer_of self.new)) result piece.now }
        ensures ok { OnOk result (write_faults self.new ≡ write_faults self.old) }
        ensures err { OnErr result (write_faults self.new ≡ one_more (write_faults self.old)) }
    {
        match self.output.write(piece) {
            Ok(count) if count > 0 || piece.is_empty() => Ok(count),
            _ => {
                self.faults = self.faults.saturating_add(1);
                Err(Failed)
            }
        }
    }
}
