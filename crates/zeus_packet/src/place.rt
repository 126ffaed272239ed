//! Views, placements of objects, and proposals of new ones.
ghost use Rattle.std.specs.Prelude.{◌≡◌};
ghost use Rattle.zeus_packet.specs.Place.{arbiters, new_place, source};

use zeus_base::{NodeId, NodeSet, Stamp};

/// The members of an epoch.
#[derive(Clone, Copy, Debug, PartialEq, Eq)]
pub struct View {
    /// From 1 on.
    pub epoch: u32,
    pub members: NodeSet,
}

/// Where an object is: its owner, and its replicas with the owner.
#[derive(Clone, Copy, Debug)]
pub struct Place {
    pub owner: NodeId,
    pub replicas: NodeSet,
}

impl PartialEq for Place {
    ghost use Rattle.std.specs.Cmp.{partial_equiv_from_equiv};
    ghost use Rattle.zeus_packet.specs.Place.{same_place};
    ghost use Rattle.zeus_packet.specs.PlaceLaws.{same_place-equivalence};

    ghost eq = { same_place };

    ghost laws = { partial_equiv_from_equiv same_place-equivalence };

    #[tactic(auto, unfolding(crate::specs::Place::same_place))]
    fn eq(&self, other: &Place) -> bool {
        self.owner == other.owner && self.replicas == other.replicas
    }
}

impl Eq for Place {
    ghost use Rattle.zeus_packet.specs.PlaceLaws.{same_place-equivalence};

    ghost laws = { same_place-equivalence };
}

/// What a requester wants of an object.
#[derive(Clone, Copy, Debug)]
pub enum Want {
    /// To own it.
    Own,
    /// To have a copy of it.
    Read,
    /// To have no copy of it.
    Leave,
}

impl PartialEq for Want {
    ghost use Rattle.std.specs.Cmp.{partial_equiv_from_equiv};
    ghost use Rattle.zeus_packet.specs.Place.{same_want};
    ghost use Rattle.zeus_packet.specs.PlaceLaws.{same_want-equivalence};

    ghost eq = { same_want };

    ghost laws = { partial_equiv_from_equiv same_want-equivalence };

    #[tactic(auto, unfolding(crate::specs::Place::same_want))]
    fn eq(&self, other: &Want) -> bool {
        matches!(
            (self, other),
            (Want::Own, Want::Own) | (Want::Read, Want::Read) | (Want::Leave, Want::Leave)
        )
    }
}

impl Eq for Want {
    ghost use Rattle.zeus_packet.specs.PlaceLaws.{same_want-equivalence};

    ghost laws = { same_want-equivalence };
}

/// A new placement that a directory node drives: its stamp, who asked for what, and the placement that it changes.
#[derive(Clone, Copy, Debug)]
pub struct Proposal {
    pub stamp: Stamp,
    pub requester: NodeId,
    pub base: Stamp,
    pub base_place: Place,
    pub want: Want,
}

impl PartialEq for Proposal {
    ghost use Rattle.std.specs.Cmp.{partial_equiv_from_equiv};
    ghost use Rattle.zeus_packet.specs.Place.{same_proposal};
    ghost use Rattle.zeus_packet.specs.PlaceLaws.{same_proposal-equivalence};

    ghost eq = { same_proposal };

    ghost laws = { partial_equiv_from_equiv same_proposal-equivalence };

    #[tactic(auto, unfolding(crate::specs::Place::same_proposal, zeus_base::specs::Order::same_stamp))]
    fn eq(&self, other: &Proposal) -> bool {
        self.stamp == other.stamp
            && self.requester == other.requester
            && self.base == other.base
            && self.base_place == other.base_place
            && self.want == other.want
    }
}

impl Eq for Proposal {
    ghost use Rattle.zeus_packet.specs.PlaceLaws.{same_proposal-equivalence};

    ghost laws = { same_proposal-equivalence };
}

/// Who can give the content of an object: the owner where it is a member, else the least member replica.
#[tactic(auto, unfolding(crate::specs::Place::source))]
pub fn source(place: &Place, members: NodeSet) -> Option<NodeId>
    ensures { result ≡ source place.now members }
{
    if members.has(place.owner) {
        Some(place.owner)
    } else {
        place.replicas.meet(members).least()
    }
}

/// Who must all acknowledge a change of the placement: the member directory nodes and the source.
#[tactic(auto, unfolding(crate::specs::Place::arbiters, crate::specs::Place::with_optional))]
pub fn arbiters(place: &Place, members: NodeSet, directory: NodeSet) -> NodeSet
    ensures { result ≡ arbiters place.now members directory }
{
    let drivers = directory.meet(members);
    match source(place, members) {
        Some(node) => drivers.insert(node),
        None => drivers,
    }
}

/// The placement that a proposal makes of its base.
#[tactic(auto, unfolding(crate::specs::Place::new_place, crate::specs::Place::changed_place))]
pub fn new_place(p: &Proposal) -> Place
    ensures { result ≡ new_place p.now }
{
    let owner = p.base_place.owner;
    let replicas = p.base_place.replicas;
    match p.want {
        Want::Own => Place {
            owner: p.requester,
            replicas: replicas.insert(p.requester),
        },
        Want::Read => Place {
            owner,
            replicas: replicas.insert(p.requester),
        },
        Want::Leave => Place {
            owner,
            replicas: replicas.without(p.requester),
        },
    }
}
