//! Which letters keep the ranges of a configuration's limits.
ghost use Rattle.std.specs.Prelude.{◌≡◌, ◌==◌, ◌<◌, ◌↔◌, IsTrue, All};
ghost use Rattle.std.specs.List.{list_all, list_any};
ghost use Rattle.zeus_packet.specs.Fits.{are_once, body_fits, cause_fits, content_fits, fits, inv_fits, nodes_fit, object_fits};
ghost use Rattle.zeus_packet.specs.Fits.{place_fits, proposal_fits, stamp_fits, stream_fits, value_fits, want_fits, write_fits, writes_fit};

use crate::letter::{Body, Cause, Letter, RInv};
use crate::place::{Place, Proposal, Want};
use crate::write::{Content, Write};
use zeus_base::{Limits, NodeId, NodeSet, ObjId, Stamp, Stream, Value};

/// Whether the letter's nodes, its epoch and each of its fields keep the ranges of the limits: nodes, slots and objects
/// below those of the limits, an owner among its replicas, 1 to 8 writes of different objects, numbers alone in
/// version 1, and none but a replica that is not the owner leaving.
#[tactic(auto, unfolding(crate::specs::Fits::fits))]
pub fn fits(letter: &Letter, limits: &Limits) -> bool
    ensures { result ≡ fits letter.now limits.now }
{
    letter.from.0 < limits.nodes
        && letter.to.0 < limits.nodes
        && 1 <= letter.epoch
        && body_fits(limits, &letter.body)
}

#[tactic(auto, unfolding(crate::specs::Fits::body_fits))]
fn body_fits(limits: &Limits, body: &Body) -> bool
    ensures { result ≡ body_fits limits.now body.now }
{
    match body {
        Body::RInv(r) => inv_fits(limits, r),
        Body::RAck(stream, _) => stream_fits(limits, stream),
        Body::RVal(stream, _) => stream_fits(limits, stream),
        Body::OReq(obj, _) => object_fits(limits, *obj),
        Body::OInv(obj, p) => object_fits(limits, *obj) && proposal_fits(limits, p),
        Body::OAck(obj, p, content) => {
            object_fits(limits, *obj) && proposal_fits(limits, p) && content_fits(limits, content)
        }
        Body::ONack(obj, stamp, cause) => {
            object_fits(limits, *obj) && stamp_fits(limits, stamp) && cause_fits(limits, cause)
        }
        Body::OVal(obj, stamp, place) => {
            object_fits(limits, *obj) && stamp_fits(limits, stamp) && place_fits(limits, place)
        }
        Body::Recovered => true,
    }
}

#[tactic(auto, unfolding(crate::specs::Fits::inv_fits))]
fn inv_fits(limits: &Limits, r: &RInv) -> bool
    ensures { result ≡ inv_fits limits.now r.now }
{
    stream_fits(limits, &r.stream)
        && r.number < u32::MAX
        && r.done <= r.number
        && nodes_fit(limits, r.followers)
        && writes_fit(limits, r.writes.as_slice())
}

#[tactic(auto, unfolding(crate::specs::Fits::writes_fit))]
fn writes_fit(limits: &Limits, writes: &[Write]) -> bool
    ensures { result ≡ writes_fit limits.now writes.now }
{
    1 <= writes.len() && writes.len() <= 8 && all_fit(limits, writes) && are_once(writes)
}

fn all_fit(limits: &Limits, writes: &[Write]) -> bool
    ensures { result ≡ list_all (write_fits limits.now) writes.now }
{
    writes.iter().all(|write| write_fits(limits, write))
}

// Whether one of the writes is to the object.
fn names_object(obj: ObjId, writes: &[Write]) -> bool
    ensures { result ≡ list_any (λ w. w.obj == obj) writes.now }
{
    writes.iter().any(|write| write.obj == obj)
}

#[tactic(auto, unfolding(crate::specs::Fits::are_once))]
fn are_once(writes: &[Write]) -> bool
    ensures { result ≡ are_once writes.now }
{
    match writes.split_first() {
        None => true,
        Some((first, rest)) => !names_object(first.obj, rest) && are_once(rest),
    }
}

#[tactic(auto, unfolding(crate::specs::Fits::write_fits))]
fn write_fits(limits: &Limits, write: &Write) -> bool
    ensures { result ≡ write_fits limits.now write.now }
{
    object_fits(limits, write.obj) && value_fits(limits, &write.value)
}

#[tactic(auto, unfolding(crate::specs::Fits::content_fits))]
fn content_fits(limits: &Limits, content: &Option<Content>) -> bool
    ensures { result ≡ content_fits limits.now content.now }
{
    match content {
        None => true,
        Some(content) => value_fits(limits, &content.value),
    }
}

#[tactic(auto, unfolding(crate::specs::Fits::value_fits))]
fn value_fits(limits: &Limits, value: &Value) -> bool
    ensures { result ≡ value_fits limits.now value.now }
{
    match value {
        Value::Num(_) => true,
        Value::Text(_) => limits.version == 2,
    }
}

#[tactic(auto, unfolding(crate::specs::Fits::cause_fits))]
fn cause_fits(limits: &Limits, cause: &Cause) -> bool
    ensures { result ≡ cause_fits limits.now cause.now }
{
    match cause {
        Cause::Proposed(stamp) => stamp_fits(limits, stamp),
        Cause::Held(slot) => slot.0 < limits.slots,
        Cause::Kept(slot) => slot.0 < limits.slots,
        _ => true,
    }
}

#[tactic(auto, unfolding(crate::specs::Fits::proposal_fits))]
fn proposal_fits(limits: &Limits, p: &Proposal) -> bool
    ensures { result ≡ proposal_fits limits.now p.now }
{
    stamp_fits(limits, &p.stamp)
        && p.requester.0 < limits.nodes
        && stamp_fits(limits, &p.base)
        && place_fits(limits, &p.base_place)
        && want_fits(p.want, p.requester, &p.base_place)
}

#[tactic(auto, unfolding(crate::specs::Fits::want_fits))]
fn want_fits(want: Want, requester: NodeId, base: &Place) -> bool
    ensures { result ≡ want_fits want requester base.now }
{
    match want {
        Want::Own => true,
        Want::Read => true,
        Want::Leave => base.owner != requester && base.replicas.has(requester),
    }
}

#[tactic(auto, unfolding(crate::specs::Fits::place_fits))]
fn place_fits(limits: &Limits, place: &Place) -> bool
    ensures { result ≡ place_fits limits.now place.now }
{
    place.owner.0 < limits.nodes
        && nodes_fit(limits, place.replicas)
        && place.replicas.has(place.owner)
}

fn nodes_fit(limits: &Limits, nodes: NodeSet) -> bool
    ensures { result ≡ nodes_fit limits.now nodes }
{
    are_below(limits.nodes, nodes)
}

fn are_below(count: u8, nodes: NodeSet) -> bool
    ensures { IsTrue result ↔ All (λ n. n < count) nodes }
{
    nodes.nodes().all(|node| node.0 < count)
}

#[tactic(auto, unfolding(crate::specs::Fits::stream_fits))]
fn stream_fits(limits: &Limits, stream: &Stream) -> bool
    ensures { result ≡ stream_fits limits.now stream.now }
{
    stream.node.0 < limits.nodes && stream.slot.0 < limits.slots
}

#[tactic(auto, unfolding(crate::specs::Fits::stamp_fits))]
fn stamp_fits(limits: &Limits, stamp: &Stamp) -> bool
    ensures { result ≡ stamp_fits limits.now stamp.now }
{
    stamp.driver.0 < limits.nodes
}

#[tactic(auto, unfolding(crate::specs::Fits::object_fits))]
fn object_fits(limits: &Limits, obj: ObjId) -> bool
    ensures { result ≡ object_fits limits.now obj }
{
    obj.0 < limits.objects
}
