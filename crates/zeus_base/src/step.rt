//! Steps of a run, and the passes that a step makes.

use crate::list::List;
use crate::node_set::NodeSet;
use crate::numbers::{NodeId, SlotId, TxId};
use crate::order::Stream;

/// What happens next in a run.
#[derive(Clone, Copy, Debug, PartialEq, Eq)]
pub enum Step {
    /// The transaction is handed to the slot that it is declared at.
    Begin(TxId),
    /// A slot tries its current transaction.
    Try(NodeId, SlotId),
    /// The packet of this number on the link from the first node to the second arrives.
    Deliver(NodeId, NodeId, u32),
    /// A node's timer fires.
    Tick(NodeId),
    /// A node stops for good.
    Stop(NodeId),
    /// The membership service is asked for a view with these members.
    View(NodeSet),
    /// A node takes the view of this epoch.
    Install(NodeId, u32),
}

/// Steps in order.
pub type Steps = List<Step>;

/// The entries of a stream that passed in one call: the numbers from `first` to `after - 1`.
#[derive(Clone, Copy, Debug, PartialEq, Eq)]
pub struct Passed {
    pub stream: Stream,
    pub first: u32,
    pub after: u32,
}

/// Memory was wanting; what was called is as before.
#[derive(Clone, Copy, Debug, PartialEq, Eq)]
pub struct NoMemory;
