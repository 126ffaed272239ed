//! Which line of a report may come next, and how far a transaction has come by the lines so far.
use zeus_base::{NodeId, NodeSet};

/// Which lines behind the line of a step may still come.
#[derive(Clone, Copy, Debug, PartialEq, Eq)]
pub(crate) enum Further {
    /// None, because no step was told.
    Nothing,
    /// Points, acknowledgements and packets.
    Points,
    /// Acknowledgements and packets.
    Acks,
    /// Packets.
    Packets,
}

/// Which line may come next.
#[derive(Clone, Copy, Debug, PartialEq, Eq)]
pub(crate) enum Stage {
    /// The first line.
    Head,
    /// So many steps were told: a further line of the last one, the next step, or the history behind the last.
    Steps(usize, Further),
    /// The history was told, and the states of so many transactions.
    States(usize),
    /// So many objects were told with their copies.
    Objects(usize),
    /// The object of this number was told with these replicas: that it is lost, or its first copy.
    Holders(u16, NodeSet),
    /// A copy of that object at this node was told: a further one, or what is behind the object.
    Copies(u16, NodeSet, NodeId),
    /// The line `end` was told.
    Ended,
}

/// How far a transaction has come by the lines so far.
#[derive(Clone, Copy, Debug, PartialEq, Eq)]
pub(crate) enum Mark {
    /// It was not begun.
    New,
    /// It was begun, and has no point.
    Begun,
    /// It has its point, and no acknowledgement.
    Passed,
    /// It has its acknowledgement.
    Acked,
}
