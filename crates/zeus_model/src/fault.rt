//! What can be wrong with a script.

/// What is wrong with the first faulty line of a script. Where a word has several of these faults, the first counts.
#[derive(Clone, Copy, Debug, PartialEq, Eq)]
pub enum Kind {
    /// The input ends where a line is needed.
    Missing,
    /// The line is not ended by byte 10.
    LineEnd,
    /// A wrong keyword or separator, a word too few or too many.
    Word,
    /// No text of 1 to 32 printable bytes behind its mark.
    Text,
    /// No decimal number without sign and without leading zeros, or one above 2^64 - 1.
    Number,
    /// A number out of its range.
    Range,
    /// No name of an object.
    Name,
    /// A name that was declared before, or a node that is not above the one before it or is the owner.
    Twice,
    /// A name that was not declared.
    Unknown,
    /// One line, operation or object more than a script may have.
    Long,
    /// A byte behind the last line.
    Extra,
    /// More transactions than a live run takes, or a step.
    Live,
    /// More bytes than a script may have; the line is then 0.
    Size,
}

/// The fault of bytes that are no script: the first faulty line, counted from 1, and what is wrong there.
#[derive(Clone, Copy, Debug, PartialEq, Eq)]
pub struct ScriptFault {
    pub line: u32,
    pub kind: Kind,
}
