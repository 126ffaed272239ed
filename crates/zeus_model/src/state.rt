//! The data that a node keeps of objects and of commits.
use zeus_base::{NodeSet, Stamp, TxId, Value};
use zeus_packet::{Content, Place, Proposal, State, Writes};
use zeus_txn::{Named, Reply, Tx};

/// A node's copy of an object.
#[derive(Clone, Copy, Debug, PartialEq, Eq)]
pub struct Copy {
    pub value: Value,
    pub ver: u64,
    pub state: State,
}

/// What a node knows of an object's placement: the settled one with its stamp, and a proposal that it holds.
#[derive(Clone, Copy, Debug, PartialEq, Eq)]
pub struct Entry {
    pub stamp: Stamp,
    pub place: Place,
    pub proposal: Option<Proposal>,
}

/// The acknowledgements of a proposal that a node has gathered, and the source's content where it came.
#[derive(Clone, Copy, Debug, PartialEq, Eq)]
pub struct Gather {
    pub proposal: Proposal,
    pub acks: NodeSet,
    pub content: Option<Content>,
}

/// The transaction that a slot is to try.
#[derive(Debug, Drop)]
pub struct Current {
    pub id: TxId,
    pub tx: Tx,
}

/// A committed transaction in its own node's pipeline, until its followers have acknowledged it.
#[derive(Debug, Drop)]
pub struct Pending {
    pub id: TxId,
    pub reply: Reply,
    pub named: Named,
    pub followers: NodeSet,
    pub writes: Writes,
    pub acks: NodeSet,
}

/// An entry of another node's stream that a follower stores.
#[derive(Debug, Drop)]
pub struct Kept {
    pub followers: NodeSet,
    pub writes: Writes,
    pub acks: NodeSet,
}
