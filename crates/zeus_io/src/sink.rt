// Where bytes go.
ghost use Rattle.std.specs.Prelude.{ℕ, ◌<◌, List, length, Option, IfOk};
ghost use Rattle.std.specs.Io.{WritesAtMost};
ghost use Rattle.std.specs.Io.KnownBytes.{WriteAppends};
ghost use Rattle.zeus_io.specs.Bytes.{WritesInRoom};
ghost use Rattle.zeus_io.specs.Faults.{HasCause};

use crate::source::Failed;

/// Where bytes go.
pub trait Sink {
    /// The bytes that it holds, where the sink can tell them.
    ghost held: { Self → Option (List ℕ) };

    /// How often the sink has failed.
    ghost faults: { Self → ℕ };

    /// How many more bytes it takes for certain before a write fails. A sink that promises nothing
    /// leaves this out.
    ghost room: { Self → ℕ } = { λ _. 0 };

    /// Takes bytes from the front of the piece, and answers how many. It takes none only where the
    /// piece is empty. After `Failed` the bytes held are as before. The count of faults rises exactly
    /// at `Failed`, and stands still at its end.
    fn write(&mut self, piece: &[u8]) -> Result<usize, Failed>
        ensures bound { WritesAtMost result piece.now }
        ensures bytes { WriteAppends (held self.old) (held self.new) result piece.now }
        ensures some { IfOk result (λ n. 0 < length piece.now → 0 < n) }
        ensures cause { HasCause (faults self.old) (faults self.new) result }
        ensures room { WritesInRoom (room self.old) (room self.new) (faults self.old) (faults self.new) result };
}
