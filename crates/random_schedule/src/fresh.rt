//! Packets that were not delivered yet.

use zeus_base::NodeId;

/// The next fresh packet of a link: the first of its packets that the schedule has neither delivered nor lost. It may
/// not have been sent yet.
#[derive(Clone, Copy, Debug, PartialEq, Eq)]
pub struct FreshPacket {
    pub from: NodeId,
    pub to: NodeId,
    pub number: u32,
}
