//! Stamps and streams, ordered by their fields from left to right.
ghost use Rattle.std.specs.Prelude.{◌≡◌};
ghost use Rattle.zeus_base.specs.Order.{is_below, is_before};

use crate::numbers::{NodeId, SlotId};

/// The commits of one slot of one node, in the order of their numbers.
#[derive(Clone, Copy, Debug, Default, PartialEq, Eq, PartialOrd, Ord)]
pub struct Stream {
    pub node: NodeId,
    pub slot: SlotId,
}

/// How new a placement of an object is: its version, and then the node that drove it.
#[derive(Clone, Copy, Debug, Default, PartialEq, Eq, PartialOrd, Ord)]
pub struct Stamp {
    pub ver: u64,
    pub driver: NodeId,
}

impl Stream {
    /// Whether this stream comes before the other: a lower node, or the same node and a lower slot. `<` says the same.
    pub fn is_before(self, other: Stream) -> bool
        ensures { result ≡ is_before self other }
    {
        self < other
    }
}

impl Stamp {
    /// Whether this stamp is below the other: a lower version, or the same version and a lower driver. `<` says the
    /// same.
    pub fn is_below(self, other: Stamp) -> bool
        ensures { result ≡ is_below self other }
    {
        self < other
    }
}
