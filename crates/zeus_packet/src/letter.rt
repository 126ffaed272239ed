//! Letters between nodes, and the packets that carry them.
ghost use Rattle.std.specs.Prelude.{◌≡◌};

use crate::place::{Place, Proposal, Want};
use crate::write::{Content, Writes};
use zeus_base::{NodeId, NodeSet, ObjId, SlotId, Stamp, Stream};

/// The state of a copy.
#[derive(Clone, Copy, Debug, PartialEq, Eq)]
pub enum State {
    /// It may be read.
    Valid,
    /// A newer value is on its way through the replicas.
    Invalid,
    /// Its own node wrote it, and the replicas have not all acknowledged.
    Write,
}

/// Why a letter was refused.
#[derive(Clone, Copy, Debug, PartialEq, Eq)]
pub enum Cause {
    OwnStream,
    Window,
    NotDirectory,
    Proposed(Stamp),
    Owns,
    HasCopy,
    NotReader,
    NoSource,
    Degree,
    IsSource,
    WornOut,
    NoCopy,
    Held(SlotId),
    NotValid(State),
    Kept(SlotId),
    NotArbiter,
    NotCollector,
    OwnPlace,
}

/// An entry of a stream, sent to a follower.
#[derive(Clone, Copy, Debug)]
pub struct RInv {
    pub stream: Stream,
    pub number: u32,
    /// All entries of the stream below this number have passed.
    pub done: u32,
    pub followers: NodeSet,
    pub writes: Writes,
}

impl RInv {
    /// The same once more.
    pub fn duplicate(&self) -> RInv
        ensures { result ≡ self.now }
    {
        *self
    }
}

/// What a letter says.
#[derive(Clone, Copy, Debug)]
pub enum Body {
    /// Store this entry.
    RInv(RInv),
    /// The entry of this stream and number is stored.
    RAck(Stream, u32),
    /// All entries of the stream below this number have passed.
    RVal(Stream, u32),
    /// The sender wants the object.
    OReq(ObjId, Want),
    /// Hold this proposal for the object.
    OInv(ObjId, Proposal),
    /// The sender holds this proposal; the source of its base adds the content of its copy.
    OAck(ObjId, Proposal, Option<Content>),
    /// Advice: a request for the object was refused.
    ONack(ObjId, Stamp, Cause),
    /// This placement of the object is decided.
    OVal(ObjId, Stamp, Place),
    /// The sender stores no entry of a stream whose node is no member.
    Recovered,
}

impl Body {
    /// The same once more.
    pub fn duplicate(&self) -> Body
        ensures { result ≡ self.now }
    {
        *self
    }
}

/// A letter of an epoch from one node to another.
#[derive(Clone, Copy, Debug)]
pub struct Letter {
    pub from: NodeId,
    pub to: NodeId,
    pub epoch: u32,
    pub body: Body,
}

impl Letter {
    /// The same once more.
    pub fn duplicate(&self) -> Letter
        ensures { result ≡ self.now }
    {
        *self
    }
}

/// A letter with its number on the link from its sender to its receiver.
#[derive(Clone, Copy, Debug)]
pub struct Packet {
    pub number: u32,
    pub letter: Letter,
}
