//! The slots and the links of a configuration.
ghost use Rattle.std.specs.Prelude.{◌≡◌, ◌<◌, ◌≤◌, ◌++◌, IfOk, OnOk, map};
ghost use Rattle.zeus_model.specs.Tables.{below};
ghost use Rattle.random_schedule.specs.Choices.{pairs, stream};
ghost use Rattle.random_schedule.specs.Schedule.{first_packet};

use crate::fresh::FreshPacket;
use crate::lists::push;
use std::alloc::Global;
use zeus_base::{NoMemory, NodeId, SlotId, Stream};

/// Adds the slots of a node.
fn add_slots(all: &mut Vec<Stream>, node: u8, slots: u8) -> Result<(), NoMemory>
    requires node { node < 8 }
    requires slots { slots ≤ 8 }
    ensures { OnOk result (all.new.items ≡ all.old.items ++ map (stream node) (below slots)) }
{
    for slot in 0..slots {
        let stream = Stream {
            node: NodeId(node),
            slot: SlotId(slot),
        };
        push(all, stream)?;
    }
    Ok(())
}

/// Each slot of each node.
pub(crate) fn all_slots(alloc: Global, nodes: u8, slots: u8) -> Result<Vec<Stream>, NoMemory>
    requires nodes { nodes ≤ 8 }
    requires slots { slots ≤ 8 }
    ensures { IfOk result (λ v. v.items ≡ pairs stream (below nodes) (below slots)) }
{
    let mut all = Vec::new(alloc);
    for node in 0..nodes {
        add_slots(&mut all, node, slots)?;
    }
    Ok(all)
}

/// Adds the links from a node, each with its first packet as the next fresh one.
fn add_links(all: &mut Vec<FreshPacket>, from: u8, nodes: u8) -> Result<(), NoMemory>
    requires from { from < 8 }
    requires nodes { nodes ≤ 8 }
    ensures { OnOk result (all.new.items ≡ all.old.items ++ map (first_packet from) (below nodes)) }
{
    for to in 0..nodes {
        let first = FreshPacket {
            from: NodeId(from),
            to: NodeId(to),
            number: 0,
        };
        push(all, first)?;
    }
    Ok(())
}

/// Each link, with its first packet as the next fresh one.
pub(crate) fn all_links(alloc: Global, nodes: u8) -> Result<Vec<FreshPacket>, NoMemory>
    requires { nodes ≤ 8 }
    ensures { IfOk result (λ v. v.items ≡ pairs first_packet (below nodes) (below nodes)) }
{
    let mut all = Vec::new(alloc);
    for from in 0..nodes {
        add_links(&mut all, from, nodes)?;
    }
    Ok(all)
}
