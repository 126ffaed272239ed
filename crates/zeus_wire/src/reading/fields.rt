//! The fields that several letters have: nodes, slots, objects, sets, streams, stamps, placements and proposals.
ghost use Rattle.std.specs.Prelude.{◌≡◌, ◌≤◌, ◌<◌};
ghost use Rattle.zeus_base.specs.Bits.{nodes_of};
ghost use Rattle.zeus_packet.specs.Fits.{nodes_fit};
ghost use Rattle.zeus_wire.specs.Ranges.{AreLimits};
ghost use Rattle.zeus_wire.specs.Reading.{IsRead, has_leaver, leaver_of, may_own, node_at, object_at, place_at};
ghost use Rattle.zeus_wire.specs.Reading.{proposal_at, set_at, slot_at, stamp_at, stream_at, want_at, want_of};

use crate::fault::Fault;
use crate::reading::input::Input;
use zeus_packet::{Limits, NodeId, NodeSet, ObjId, Place, Proposal, SlotId, Stamp, Stream, Want};

/// Reads a node, which must be one of the limits.
#[tactic(auto, unfolding(crate::specs::Reading::node_at, crate::specs::Reading::and_then))]
pub fn read_node(limits: Limits, input: &mut Input<'_>) -> Result<NodeId, Fault>
    requires { AreLimits limits }
    ensures { IsRead result input.new (node_at limits input.old) }
{
    let left = input.len();
    let node = input.u8()?;
    if node >= limits.nodes {
        return Err(Fault::Field { left });
    }
    Ok(NodeId(node))
}

/// Reads a slot, which must be one of the limits.
#[tactic(auto, unfolding(crate::specs::Reading::slot_at, crate::specs::Reading::and_then))]
pub fn read_slot(limits: Limits, input: &mut Input<'_>) -> Result<SlotId, Fault>
    requires { AreLimits limits }
    ensures { IsRead result input.new (slot_at limits input.old) }
{
    let left = input.len();
    let slot = input.u8()?;
    if slot >= limits.slots {
        return Err(Fault::Field { left });
    }
    Ok(SlotId(slot))
}

/// Reads an object, which must be one of the limits.
#[tactic(auto, unfolding(crate::specs::Reading::object_at, crate::specs::Reading::and_then))]
pub fn read_object(limits: Limits, input: &mut Input<'_>) -> Result<ObjId, Fault>
    requires { AreLimits limits }
    ensures { IsRead result input.new (object_at limits input.old) }
{
    let left = input.len();
    let obj = input.u16()?;
    if obj >= limits.objects {
        return Err(Fault::Field { left });
    }
    Ok(ObjId(obj))
}

/// Reads a stream: its node, then its slot.
#[tactic(auto, unfolding(crate::specs::Reading::stream_at, crate::specs::Reading::and_then))]
pub fn read_stream(limits: Limits, input: &mut Input<'_>) -> Result<Stream, Fault>
    requires { AreLimits limits }
    ensures { IsRead result input.new (stream_at limits input.old) }
{
    let node = read_node(limits, input)?;
    let slot = read_slot(limits, input)?;
    Ok(Stream { node, slot })
}

/// Reads a stamp: its version, then its driver.
#[tactic(auto, unfolding(crate::specs::Reading::stamp_at, crate::specs::Reading::and_then))]
pub fn read_stamp(limits: Limits, input: &mut Input<'_>) -> Result<Stamp, Fault>
    requires { AreLimits limits }
    ensures { IsRead result input.new (stamp_at limits input.old) }
{
    let ver = input.u64()?;
    let driver = read_node(limits, input)?;
    Ok(Stamp { ver, driver })
}

fn are_within(limits: Limits, bits: u8) -> bool
    requires { AreLimits limits }
    ensures { result ≡ nodes_fit limits (nodes_of bits) }
{
    u32::from(bits) < 1 << limits.nodes
}

/// Reads a set of nodes, all of which must be nodes of the limits.
#[tactic(auto, unfolding(crate::specs::Reading::set_at, crate::specs::Reading::any_set_at, crate::specs::Reading::and_then))]
pub fn read_set(limits: Limits, input: &mut Input<'_>) -> Result<NodeSet, Fault>
    requires { AreLimits limits }
    ensures { IsRead result input.new (set_at limits input.old) }
{
    let left = input.len();
    let bits = input.u8()?;
    if !are_within(limits, bits) {
        return Err(Fault::Field { left });
    }
    Ok(NodeSet { bits })
}

#[tactic(auto, unfolding(crate::specs::Reading::may_own))]
fn may_own(leaver: Option<NodeId>, node: NodeId) -> bool
    ensures { result ≡ may_own leaver node }
{
    match leaver {
        None => true,
        Some(leaver) => node != leaver,
    }
}

#[tactic(auto, unfolding(crate::specs::Reading::has_leaver))]
fn has_leaver(leaver: Option<NodeId>, nodes: NodeSet) -> bool
    ensures { result ≡ has_leaver leaver nodes }
{
    match leaver {
        None => true,
        Some(leaver) => nodes.has(leaver),
    }
}

/// A placement, whose owner does not leave, and which has the node that leaves, if one does.
#[tactic(auto, unfolding(crate::specs::Reading::place_at, crate::specs::Reading::and_then))]
pub fn read_place(
    limits: Limits,
    leaver: Option<NodeId>,
    input: &mut Input<'_>,
) -> Result<Place, Fault>
    requires { AreLimits limits }
    ensures { IsRead result input.new (place_at limits leaver input.old) }
{
    let left = input.len();
    let owner = read_node(limits, input)?;
    if !may_own(leaver, owner) {
        return Err(Fault::Field { left });
    }
    let left = input.len();
    let replicas = read_set(limits, input)?;
    if !(replicas.has(owner) && has_leaver(leaver, replicas)) {
        return Err(Fault::Field { left });
    }
    Ok(Place { owner, replicas })
}

#[tactic(auto, unfolding(crate::specs::Reading::leaver_of))]
fn leaver_of(want: Want, requester: NodeId) -> Option<NodeId>
    ensures { result ≡ leaver_of want requester }
{
    match want {
        Want::Own | Want::Read => None,
        Want::Leave => Some(requester),
    }
}

/// Reads a proposal of this wish: stamp, requester, base stamp and base placement.
#[tactic(auto, unfolding(crate::specs::Reading::proposal_at, crate::specs::Reading::and_then))]
pub fn read_proposal(limits: Limits, want: Want, input: &mut Input<'_>) -> Result<Proposal, Fault>
    requires { AreLimits limits }
    ensures { IsRead result input.new (proposal_at limits want input.old) }
{
    let stamp = read_stamp(limits, input)?;
    let requester = read_node(limits, input)?;
    let base = read_stamp(limits, input)?;
    let base_place = read_place(limits, leaver_of(want, requester), input)?;
    Ok(Proposal {
        stamp,
        requester,
        base,
        base_place,
        want,
    })
}

/// Reads a wish if there is one; without one it is a wish to own.
#[tactic(auto, unfolding(crate::specs::Reading::want_at, crate::specs::Reading::want_of, crate::specs::Reading::and_then))]
pub fn read_want(has_wish: bool, input: &mut Input<'_>) -> Result<Want, Fault>
    ensures { IsRead result input.new (want_at has_wish input.old) }
{
    if !has_wish {
        return Ok(Want::Own);
    }
    let left = input.len();
    match input.u8()? {
        1 => Ok(Want::Read),
        2 => Ok(Want::Leave),
        _ => Err(Fault::Field { left }),
    }
}
