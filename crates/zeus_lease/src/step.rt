//! Steps of leases.

use zeus_base::{List, NodeId, NodeSet};

/// By how much each clock goes on: the nodes' by their numbers, and then the service's.
pub type Ticks = List<u64>;

/// What happens next.
#[derive(Debug, Drop)]
pub enum LeaseStep {
    /// Time passes, by each clock as much as it says.
    Pass(Ticks),
    /// A node asks for a lease.
    Ask(NodeId),
    /// The service hears the ask of this number.
    Hear(u32),
    /// The node that asked takes the grant of this number.
    Take(u32),
    /// A node acts, if it may.
    Act(NodeId),
    /// The service is asked for a view with these members.
    View(NodeSet),
}
