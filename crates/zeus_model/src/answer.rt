//! What calls and steps answer.
use zeus_base::{NodeId, ObjId, SlotId, Stamp, TxId};
use zeus_packet::{Cause, State};
use zeus_txn::Reply;

/// The answer to a begin at a node.
#[derive(Clone, Copy, Debug, PartialEq, Eq)]
pub enum Begin {
    Begun,
    Stopped,
    /// The slot has this current transaction.
    Busy(TxId),
}

/// The answer to a try of a slot.
#[derive(Debug, Drop)]
pub enum Tried {
    Stopped,
    /// The slot has no current transaction.
    Nothing,
    /// The transaction reads this object, of which the node has no copy.
    NoCopy(TxId, ObjId),
    /// The transaction reads this object, whose copy is in this state.
    NotValid(ObjId, State),
    Read(TxId, Reply),
    /// The slot has 16 pending entries.
    PipeFull,
    NotOwner(ObjId),
    /// Another slot holds the object.
    Held(ObjId, SlotId),
    /// The next number of the slot, or a version that would rise, is at its end.
    WornOut,
    /// The transaction is the entry of this number of the slot's stream.
    Committed(TxId, u32, Reply),
}

/// The answer to a letter.
#[derive(Clone, Copy, Debug, PartialEq, Eq)]
pub enum Outcome {
    Stopped,
    /// The letter is for this node.
    NotMine(NodeId),
    /// The letter's epoch, and the node's.
    OtherEpoch(u32, u32),
    /// A member has not reported in this epoch.
    NotOpen,
    Taken,
    Again,
    /// The entry of this number has to come first.
    Gap(u32),
    /// A proposal with this greater stamp stands.
    Older(Stamp),
    /// This stamp is settled, which is not below.
    Settled(Stamp),
    Refused(Cause),
}

/// The answer to a tick.
#[derive(Clone, Copy, Debug, PartialEq, Eq)]
pub enum Ticked {
    Ticked,
    Stopped,
}

/// The answer to an install at a node.
#[derive(Clone, Copy, Debug, PartialEq, Eq)]
pub enum Install {
    Installed,
    Stopped,
    /// The node is in this epoch already.
    Old(u32),
}

/// The answer to a stop.
#[derive(Clone, Copy, Debug, PartialEq, Eq)]
pub enum Stop {
    Done,
    Stopped,
}

/// The answer to a view.
#[derive(Clone, Copy, Debug, PartialEq, Eq)]
pub enum Made {
    /// The view of this epoch is made.
    Installed(u32),
    Empty,
    /// The least listed node that is no member of the last view.
    NotMember(NodeId),
    /// The least node that the view leaves out and that runs.
    NotStopped(NodeId),
}

/// The answer to a step of a run.
#[derive(Debug, Drop)]
pub enum Answer {
    Begin(Begin),
    /// The transaction was begun before.
    Twice,
    /// The transaction waits for the acknowledgement of this one.
    Waits(TxId),
    Try(Tried),
    /// The link has so many packets.
    NoPacket(u32),
    Receive(Outcome),
    Tick(Ticked),
    Stop(Stop),
    View(Made),
    /// There are so many views.
    NoView(u32),
    Install(Install),
}

/// How far a transaction has come.
#[derive(Clone, Copy, Debug, PartialEq, Eq)]
pub enum TxState {
    /// Not begun.
    New,
    /// Begun, and neither committed nor read nor refused.
    Current,
    /// Committed; its entry has passed at no node.
    Pending,
    /// In the history, and not acknowledged.
    Passed,
    /// Acknowledged.
    Acked,
    /// Ended without effect: its node had no copy to read.
    Refused,
}
