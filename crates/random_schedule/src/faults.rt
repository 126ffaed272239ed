//! The faults that a schedule makes.

/// How often a schedule loses packets, and how many nodes it may stop.
#[derive(Clone, Copy, Debug, PartialEq, Eq)]
pub struct Faults {
    /// Of a hundred deliveries of fresh packets so many are lost, on average; from 100 on all of them.
    pub loss: u8,
    /// The most nodes that are stopped.
    pub stops: u8,
}
