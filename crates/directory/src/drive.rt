//! Requests for objects at a directory node.
ghost use Rattle.std.specs.Prelude.{◌≡◌, ◌<◌, ◌-◌, ◌^◌, ℕ, length};
ghost use Rattle.zeus_model.specs.Ownership.{drive_cause, driven, exceeds, is_node, leave_cause, want_cause};
ghost use Rattle.zeus_model.specs.State.{Node, entry as entry_of, no_entry};
ghost use Rattle.zeus_model.specs.Tables.{nth};
ghost use Rattle.directory.specs.Driving.{IsNodeWith, answered};

use owner_entry::Dir;
use zeus_base::{NodeId, NodeSet, ObjId, Stamp};
use zeus_model::Entry;
use zeus_packet::{Cause, Place, Proposal, Want, source};

/// What a node answers to a request for an object.
#[derive(Clone, Copy, Debug, PartialEq, Eq)]
pub enum Drive {
    /// It may drive the request, by this proposal.
    Yes(Proposal),
    /// It may not: the first cause that stands against it.
    No(Cause),
}

/// What answers requests by what a node knows of who owns and keeps each object.
pub trait Drives {
    ghost use Rattle.owner_entry.specs.Directory.{Directory};

    /// What the node knows.
    ghost known: { Self → Directory };

    /// Whether the node `me` may drive the requester's wish for the object, in a view of these members. If one of these
    /// holds, the first of them is the answer:
    ///
    /// 1. `NotDirectory`: `me` is no directory node.
    /// 2. `Proposed`: a proposal for the object is held.
    /// 3. `Owns`, `HasCopy`: the requester has already what it wants. `NotReader`: it wants to leave, and is the owner or
    ///    no replica.
    /// 4. `NoSource`: the settled placement has no source.
    /// 5. `Degree`: the requester wants to leave, and no degree is given, or at most so many member replicas are there.
    ///    `IsSource`: it wants to leave, and is the source.
    /// 6. `WornOut`: the settled version is the last one.
    ///
    /// Else the answer is the proposal, which has the next version and changes the settled placement. The clause speaks of
    /// every node with these entries, directory, degree and members. Takes no memory and changes nothing.
    fn may_drive(
        &self,
        obj: ObjId,
        requester: NodeId,
        me: NodeId,
        members: NodeSet,
        want: Want,
    ) -> Drive
        requires { obj < length (known self.now).entries }
        ensures { (n : Node) → IsNodeWith n (known self.now) me members
            → result ≡ answered (drive_cause n obj requester want) (driven n obj requester want) };
}

impl Drives for Dir {
    ghost known = { λ d. d };

    fn may_drive(
        &self,
        obj: ObjId,
        requester: NodeId,
        me: NodeId,
        members: NodeSet,
        want: Want,
    ) -> Drive {
        match drive_cause(self, obj, requester, me, members, want) {
            Some(cause) => Drive::No(cause),
            None => Drive::Yes(driven(self.entry(obj), requester, want, me)),
        }
    }
}

/// The first cause that stands against a drive.
fn drive_cause(
    dir: &Dir,
    obj: ObjId,
    requester: NodeId,
    me: NodeId,
    members: NodeSet,
    want: Want,
) -> Option<Cause>
    requires { obj < length dir.now.entries }
    ensures cause { (n : Node) → IsNodeWith n dir.now me members → result ≡ drive_cause n obj requester want }
    ensures fresh { result ≡ None → (nth no_entry dir.now.entries obj).stamp.ver < 2 ^ 64 - 1 }
{
    let entry = dir.entry(obj);
    if !dir.nodes().has(me) {
        return Some(Cause::NotDirectory);
    }
    if let Some(held) = &entry.proposal {
        return Some(Cause::Proposed(held.stamp));
    }
    if let Some(cause) = want_cause(want, requester, &entry.place) {
        return Some(cause);
    }
    if source(&entry.place, members).is_none() {
        return Some(Cause::NoSource);
    }
    if let Some(cause) = leave_cause(want, requester, &entry.place, members, dir.degree()) {
        return Some(cause);
    }
    if entry.stamp.ver == u64::MAX {
        return Some(Cause::WornOut);
    }
    None
}

/// Why a wish is refused by the settled placement: it is fulfilled, or not allowed.
#[tactic(auto, unfolding(zeus_model::specs::Ownership::want_cause, zeus_model::specs::Tables::where_true))]
fn want_cause(want: Want, requester: NodeId, place: &Place) -> Option<Cause>
    ensures { result ≡ want_cause want requester place.now }
{
    let owns = place.owner == requester;
    let has_copy = place.replicas.has(requester);
    match want {
        Want::Own if owns => Some(Cause::Owns),
        Want::Read if has_copy => Some(Cause::HasCopy),
        Want::Leave if owns || !has_copy => Some(Cause::NotReader),
        _ => None,
    }
}

/// Why a reader may not leave: too few member replicas are there, or it is the source.
#[tactic(auto, unfolding(zeus_model::specs::Ownership::leave_cause, zeus_model::specs::Tables::or_else, zeus_model::specs::Tables::where_true))]
fn leave_cause(
    want: Want,
    requester: NodeId,
    place: &Place,
    members: NodeSet,
    degree: Option<u8>,
) -> Option<Cause>
    ensures { (n : Node) → n.members ≡ members → n.degree ≡ degree → result ≡ leave_cause want n requester place.now }
{
    match want {
        Want::Own | Want::Read => None,
        Want::Leave => {
            if !exceeds(degree, place.replicas.meet(members).count()) {
                Some(Cause::Degree)
            } else if is_node(source(place, members), requester) {
                Some(Cause::IsSource)
            } else {
                None
            }
        }
    }
}

/// Whether a degree is given that is below the count.
#[tactic(auto, unfolding(zeus_model::specs::Ownership::exceeds))]
fn exceeds(degree: Option<u8>, count: u8) -> bool
    ensures { result ≡ exceeds degree count }
{
    match degree {
        None => false,
        Some(degree) => degree < count,
    }
}

/// Whether a node is there and is this one.
#[tactic(auto, unfolding(zeus_model::specs::Ownership::is_node))]
fn is_node(found: Option<NodeId>, node: NodeId) -> bool
    ensures { result ≡ is_node found node }
{
    match found {
        None => false,
        Some(found) => found == node,
    }
}

/// The proposal of the next version, on the settled placement.
fn driven(entry: &Entry, requester: NodeId, want: Want, me: NodeId) -> Proposal
    requires { entry.now.stamp.ver < 2 ^ 64 - 1 }
    ensures { (n : Node) (x : ℕ) → entry_of n x ≡ entry.now → n.me ≡ me → result ≡ driven n x requester want }
{
    Proposal {
        stamp: Stamp {
            ver: entry.stamp.ver + 1,
            driver: me,
        },
        requester,
        base: entry.stamp,
        base_place: entry.place,
        want,
    }
}
