// Reading a source to its end, and writing all of a text to a sink.
ghost use Rattle.std.specs.Prelude.{◌≡◌, ◌↔◌, ◌+◌, ◌<◌, ◌≤◌, length, IfOk, IfErr, OnOk, OnErr, IsOk, IsErrOf, vec_len};
ghost use Rattle.std.specs.Io.KnownBytes.{Appends, Consumes, IsAtEnd};
ghost use Rattle.zeus_io.specs.Bytes.{Takes, AppendsFront, UsesRoom};
ghost use Rattle.zeus_io.specs.Faults.{HasCause, Rose};
ghost use Rattle.zeus_io.specs.declared.transfer.ReadEnd.TheVariants.{ReadFault, NoMemory};

use crate::sink::Sink;
use crate::source::{Failed, Source};
use std::alloc::{AllocError, Global};

/// Why reading ended before the end of input.
#[derive(Clone, Copy, Debug, PartialEq, Eq)]
pub enum ReadEnd {
    /// The source failed.
    ReadFault,
    /// The source gave more bytes than the limit.
    TooLong,
    /// Memory ran out.
    NoMemory,
}

impl From<Failed> for ReadEnd {
    ghost from_gives = { λ _ e. e ≡ ReadFault };

    fn from(_: Failed) -> Self {
        ReadEnd::ReadFault
    }
}

impl From<AllocError> for ReadEnd {
    ghost from_gives = { λ _ e. e ≡ NoMemory };

    fn from(_: AllocError) -> Self {
        ReadEnd::NoMemory
    }
}

/// The sink failed before it had taken all.
#[derive(Clone, Copy, Debug, PartialEq, Eq)]
pub struct WriteFault;

impl From<Failed> for WriteFault {
    fn from(_: Failed) -> Self {
        WriteFault
    }
}

// How many bytes one call asks for.
const CHUNK: usize = 8192;

/// All bytes that the source had left.
///
/// # Errors
///
/// 1. `ReadFault` exactly if a read failed, so that the source's count of faults rose: no failed read is tried again.
/// 2. `TooLong` exactly if more than `limit` bytes were taken.
/// 3. `NoMemory` if memory ran out.
///
/// The bytes taken until then are gone from the source.
pub fn read_all<S: Source>(alloc: Global, source: &mut S, limit: usize) -> Result<Vec<u8>, ReadEnd>
    ensures bytes { IfOk result (λ v. Consumes (S.left source.old) (S.left source.new) v.items) }
    ensures end { OnOk result (IsAtEnd (S.left source.new)) }
    ensures within { IfOk result (λ v. vec_len v ≤ limit) }
    ensures too_long { IfErr result (λ e. Takes (S.left source.old) (S.left source.new) (λ taken. (e ≡ ReadEnd.TooLong) ↔ (limit < length taken))) }
    ensures fault { IsErrOf result ReadEnd.ReadFault → Rose (S.faults source.old) (S.faults source.new) }
    ensures told { S.faults source.old < S.faults source.new → IsErrOf result ReadEnd.ReadFault }
    ensures later { S.faults source.old ≤ S.faults source.new }
{
    let mut bytes = Vec::new(alloc);
    let mut chunk = [0; CHUNK];
    // Each turn that goes on takes a byte, so they are at most as many as the limit.
    'turns: loop {
        let count = source.read(&mut chunk)?;
        if count == 0 {
            return Ok(bytes);
        }
        if count > limit - bytes.len() {
            return Err(ReadEnd::TooLong);
        }
        bytes.extend_from_slice(&chunk[..count])?;
    }
}

/// Writes all the bytes, in as many pieces as the sink wants. It takes no memory.
///
/// # Errors
///
/// `WriteFault` exactly if a write failed, so that the sink's count of faults rose: no failed write is tried again. The
/// sink then holds a front of the bytes more than before.
pub fn write_all<K: Sink>(sink: &mut K, bytes: &[u8]) -> Result<(), WriteFault>
    ensures ok { OnOk result (Appends (K.held sink.old) (K.held sink.new) bytes.now) }
    ensures err { OnErr result (AppendsFront (K.held sink.old) (K.held sink.new) bytes.now) }
    ensures cause { HasCause (K.faults sink.old) (K.faults sink.new) result }
    ensures in_room { length bytes.now ≤ K.room sink.old → IsOk result }
    ensures no_fault { length bytes.now ≤ K.room sink.old → K.faults sink.new ≡ K.faults sink.old }
    ensures room { length bytes.now ≤ K.room sink.old → UsesRoom (K.room sink.old) (K.room sink.new) (length bytes.now) }
{
    let mut written = 0;
    while written < bytes.len() {
        written += sink.write(&bytes[written..])?;
    }
    Ok(())
}
