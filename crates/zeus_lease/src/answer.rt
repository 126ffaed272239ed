//! What steps answer.
use zeus_model::Made;

/// The answer to a step. Nodes, asks and grants are told by their numbers from 0, ends by the clock of their node.
#[derive(Clone, Copy, Debug, PartialEq, Eq)]
pub enum LeaseAnswer {
    /// Time has passed.
    Passed,
    /// The first clock would go too fast beside the second; the service's clock is behind those of the nodes.
    Skewed(u8, u8),
    /// The ask of this number was made.
    Asked(u32),
    /// The node's lease has ended, for good.
    Ended,
    /// There is no such ask; there are so many.
    NoAsk(u32),
    /// The last view leaves the node out.
    Dropped,
    /// The grant of this number was given.
    Granted(u32),
    /// There is no such grant; there are so many.
    NoGrant(u32),
    /// The node holds a lease to this end.
    Held(u64),
    /// The node has taken no lease.
    NoLease,
    /// The node acts under its lease.
    Acted,
    /// What the membership service answers.
    View(Made),
}
