//! What the source gives to a command.
ghost use Rattle.std.specs.Prelude.{◌≡◌, ◌<◌, ◌≤◌, IfOk, IsErrOf};
ghost use Rattle.zeus_io.specs.Faults.{Rose};
ghost use Rattle.zeus_cli.specs.Ends.{status_of_halt};
ghost use Rattle.zeus_cli.specs.Inputs.{TakesInput};

use std::alloc::Global;
use zeus_base::NoMemory;
use zeus_io::{ReadEnd, Source, Status, read_all};

/// Why there is no answer.
#[derive(Clone, Copy, Debug, PartialEq, Eq)]
pub(crate) enum Halt {
    ReadFault,
    NoMemory,
}

impl From<NoMemory> for Halt {
    ghost use Rattle.zeus_cli.specs.declared.input.Halt.TheVariants.{NoMemory as OutOfMemory};

    ghost from_gives = { λ _ e. e ≡ OutOfMemory };

    fn from(_: NoMemory) -> Self {
        Halt::NoMemory
    }
}

impl Halt {
    /// The status with which the program ends then.
    pub(crate) fn status(self) -> Status
        ensures { result ≡ status_of_halt self }
    {
        match self {
            Halt::ReadFault => Status::ReadFault,
            Halt::NoMemory => Status::OutOfMemory,
        }
    }
}

/// What the source gave.
#[derive(Drop)]
pub(crate) enum Input {
    /// All bytes that it had left.
    Whole(Vec<u8>),
    /// More bytes than the command can take.
    TooLong,
}

/// What the source gives to a command that can take so many bytes at most.
pub(crate) fn read<S: Source>(alloc: Global, source: &mut S, most: usize) -> Result<Input, Halt>
    ensures input { IfOk result (TakesInput most (S.left source.old) (S.left source.new)) }
    ensures fault { IsErrOf result Halt.ReadFault → Rose (S.faults source.old) (S.faults source.new) }
    ensures told { S.faults source.old < S.faults source.new → IsErrOf result Halt.ReadFault }
    ensures later { S.faults source.old ≤ S.faults source.new }
{
    match read_all(alloc, source, most) {
        Ok(bytes) => Ok(Input::Whole(bytes)),
        Err(ReadEnd::TooLong) => Ok(Input::TooLong),
        Err(ReadEnd::ReadFault) => Err(Halt::ReadFault),
        Err(ReadEnd::NoMemory) => Err(Halt::NoMemory),
    }
}
