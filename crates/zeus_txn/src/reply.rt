//! What a transaction answers, and what it leaves.
ghost use Rattle.std.specs.Prelude.{◌≡◌};

use crate::lists::{NewValues, Values};

/// The answer of a transaction.
#[derive(Debug, Drop)]
pub struct Reply {
    /// The values that its operations gave, in order, up to the one that failed.
    pub values: Values,
    /// The place from 0 of the operation that failed.
    pub failed: Option<u8>,
}

impl Reply {
    /// The same answer once more, without memory.
    pub fn duplicate(&self) -> Reply
        ensures { result ≡ self.now }
    {
        Reply {
            values: self.values.duplicate(),
            failed: self.failed,
        }
    }
}

/// The answer of a transaction and what it writes.
#[derive(Debug, Drop)]
pub struct Ran {
    pub reply: Reply,
    pub writes: NewValues,
}

impl Ran {
    /// The answer alone.
    pub fn into_reply(self) -> Reply
        ensures { result ≡ self.reply }
    {
        self.reply
    }
}
