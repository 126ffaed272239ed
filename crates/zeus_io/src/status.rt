// How a program ends.
ghost use Rattle.std.specs.Prelude.{◌≡◌};

/// How a program ends, in the order of the exit statuses.
#[derive(Clone, Copy, Debug, PartialEq, Eq)]
pub enum Status {
    /// The defined answer is written, whole.
    Done,
    /// The answer is written, whole, and a transaction in it is not closed.
    Unfinished,
    /// The words of the command line are none that the program knows.
    Usage,
    /// The bytes read are no input of the command.
    Script,
    /// The source failed.
    ReadFault,
    /// The sink failed.
    WriteFault,
    /// Memory ran out.
    OutOfMemory,
    /// The answer is written, whole, and it says that a report breaks a rule.
    Unsound,
}

impl Status {
    ghost use Rattle.zeus_io.specs.Status.{exit_status};

    /// The exit status: 0 for `Done`, then 1 to 7 in the order of the variants.
    pub fn number(self) -> u8
        ensures { result ≡ exit_status self }
    {
        match self {
            Status::Done => 0,
            Status::Unfinished => 1,
            Status::Usage => 2,
            Status::Script => 3,
            Status::ReadFault => 4,
            Status::WriteFault => 5,
            Status::OutOfMemory => 6,
            Status::Unsound => 7,
        }
    }
}
