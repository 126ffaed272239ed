//! The foreign streams at a node, by node and slot.
ghost use Rattle.std.specs.Prelude.{◌≡◌, ◌<◌, ◌≤◌, ◌+◌, ◌-◌, ◌^◌, []};
ghost use Rattle.std.specs.Prelude.{ℕ, IfOk, OnSome, IsNone, length, option_copied, replicate, slice_get, vec_capacity};
ghost use Rattle.zeus_model.specs.Commit.{on_kept_rack, stored_rinv, passes_at};
ghost use Rattle.zeus_model.specs.State.{Node, no_log};
ghost use Rattle.zeus_model.specs.Tables.{front, nth};
ghost use Rattle.follower_log.specs.Streams.{IsStreamOf, log_at, lowest_below, outcome_of, outcome_of_ack, raised_by_one, raised_rest, with_log_at};

use crate::log::LogOver;
use std::alloc::Global;
use std::marker::Model;
use zeus_base::{Config, NoMemory, NodeId, NodeSet, Stream};
use zeus_model::Kept;
use zeus_packet::{NewWindow, RInv, RingWindow, Window};

/// What becomes of an entry that a letter brings.
#[derive(Clone, Copy, Debug, PartialEq, Eq)]
pub enum Store {
    /// It is stored now.
    Stored,
    /// It was stored before, or has passed.
    Again,
    /// It comes too early: the entry of this number is the next one.
    Gap(u32),
    /// As many entries of the stream are stored as can be.
    Window,
}

/// The streams of one node by slot, seen as the list of them.
#[derive(Drop)]
struct NodeLogs<W: Window<Kept>> {
    slots: Vec<LogOver<W>>,
}

impl<W: Window<Kept>> Model for NodeLogs<W> {
    ghost use Rattle.std.specs.Prelude.{List};
    ghost use Rattle.zeus_model.specs.State.{StreamLog};

    ghost Value = { List StreamLog };

    ghost view = { λ l. l.slots.items };
}

/// The foreign streams at a node by node and slot, each over a window `W`: how many of its entries have passed, and at
/// most 16 behind that are stored. Seen as the logs of the model's node. A call changes the stream that it names and
/// no other. No call but `new` takes memory.
#[derive(Drop)]
pub struct StoredOver<W: Window<Kept>> {
    nodes: Vec<NodeLogs<W>>,
}

/// The foreign streams at a node over rings.
pub type Stored = StoredOver<RingWindow<Kept>>;

impl<W: Window<Kept>> Model for StoredOver<W> {
    ghost use Rattle.std.specs.Prelude.{List};
    ghost use Rattle.zeus_model.specs.State.{StreamLog};

    ghost Value = { List (List StreamLog) };

    ghost view = { λ l. l.nodes.items };
}

impl<W: NewWindow<Kept> + Drop> StoredOver<W> {
    /// The streams at the start of a run: of none has an entry passed, and none is stored. All memory is taken here.
    ///
    /// # Errors
    ///
    /// `NoMemory` where that memory is not there.
    pub fn new(alloc: Global, config: &Config) -> Result<Self, NoMemory>
        ensures { IfOk result (λ logs. logs ≡ replicate config.now.nodes (replicate config.now.slots no_log)) }
    {
        let capacity = usize::from(config.nodes);
        let mut nodes = Vec::with_capacity(alloc, capacity).map_err(|_| NoMemory)?;
        for _node in 0..config.nodes {
            nodes.push_reserved(start_logs(alloc, config.slots)?);
        }
        Ok(StoredOver { nodes })
    }
}

/// The streams of a node at the start of a run.
fn start_logs<W: NewWindow<Kept> + Drop>(alloc: Global, count: u8) -> Result<NodeLogs<W>, NoMemory>
    ensures { IfOk result (λ logs. logs ≡ replicate count no_log) }
{
    let mut slots = Vec::with_capacity(alloc, usize::from(count)).map_err(|_| NoMemory)?;
    for _slot in 0..count {
        let kept = W::empty(alloc)?;
        slots.push_reserved(LogOver { done: 0, kept });
    }
    Ok(NodeLogs { slots })
}

impl<W: Window<Kept>> StoredOver<W> {
    /// Stores the entry that a letter brings, by its number alone: it is stored at the end of its stream where that is
    /// the next number and fewer than 16 are stored. Else nothing changes. The clauses speak of every node with these
    /// streams; a caller raises the entries below the letter's `done` first.
    pub fn store(&mut self, r: &RInv) -> Store
        requires stream { IsStreamOf self.old r.now.stream }
        requires numbered { r.now.number < 2 ^ 32 - 1 }
        ensures answer { (n : Node) (from : ℕ) → n.logs ≡ self.old → outcome_of result ≡ (stored_rinv n from r.now).answer }
        ensures after { (n : Node) (from : ℕ) → n.logs ≡ self.old → self.new ≡ (stored_rinv n from r.now).node.logs }
        ensures streams { (t : Stream) → IsStreamOf self.old t → IsStreamOf self.new t }
    {
        let logs = &mut self.nodes[r.stream.node.place()];
        let log = &mut logs.slots[r.stream.slot.place()];
        log.store(r)
    }

    /// Takes the lowest stored entry of the stream out where its number is below this one; else there is none, and
    /// nothing changes.
    pub fn raise_one(&mut self, s: Stream, done: u32) -> Option<Kept>
        requires { IsStreamOf self.old s }
        ensures entry { result ≡ lowest_below (log_at self.old s) done }
        ensures raised { OnSome result (self.new ≡ with_log_at self.old s (raised_by_one (log_at self.old s))) }
        ensures kept { IsNone result → self.new ≡ self.old }
        ensures streams { (t : Stream) → IsStreamOf self.old t → IsStreamOf self.new t }
    {
        let logs = &mut self.nodes[s.node.place()];
        let log = &mut logs.slots[s.slot.place()];
        log.raise_one(done)
    }

    /// All entries of the stream below this number have passed, and none of them is stored. Nothing changes where as
    /// many are known to have passed.
    pub fn raise_rest(&mut self, s: Stream, done: u32)
        requires stream { IsStreamOf self.old s }
        requires raised { (log_at self.old s).done < done → (log_at self.old s).kept ≡ [] }
        ensures after { self.new ≡ raised_rest self.old s done }
        ensures streams { (t : Stream) → IsStreamOf self.old t → IsStreamOf self.new t }
    {
        let logs = &mut self.nodes[s.node.place()];
        let log = &mut logs.slots[s.slot.place()];
        log.raise_rest(done);
    }

    /// The node `from` has acknowledged the entry of this number. It counts where that entry is stored and the node
    /// has not acknowledged it; else nothing changes, and the answer is false. The clauses speak of every node with
    /// these streams.
    pub fn ack(&mut self, s: Stream, number: u32, from: NodeId) -> bool
        requires { IsStreamOf self.old s }
        ensures answer { (n : Node) → n.logs ≡ self.old → outcome_of_ack result ≡ (on_kept_rack n from s number).answer }
        ensures after { (n : Node) → n.logs ≡ self.old → self.new ≡ (on_kept_rack n from s number).node.logs }
        ensures streams { (t : Stream) → IsStreamOf self.old t → IsStreamOf self.new t }
    {
        let logs = &mut self.nodes[s.node.place()];
        let log = &mut logs.slots[s.slot.place()];
        log.ack(number, from)
    }

    /// How many stored entries of the stream pass from the front on at the node `me`: those that every other member
    /// among their followers has acknowledged.
    pub fn passing(&self, s: Stream, me: NodeId, members: NodeSet) -> u32
        requires { IsStreamOf self.now s }
        ensures value { result ≡ front (passes_at me members) (log_at self.now s).kept }
        ensures most { result ≤ length (log_at self.now s).kept }
    {
        self.log(s).passing(me, members)
    }

    /// How many entries of the stream are known to have passed. The stored ones have the numbers from there on, all
    /// below the last number.
    pub fn done(&self, s: Stream) -> u32
        requires { IsStreamOf self.now s }
        ensures passed { result ≡ (log_at self.now s).done }
        ensures numbered { result + length (log_at self.now s).kept < 2 ^ 32 }
    {
        self.log(s).done()
    }

    /// How many entries of the stream are stored; at most 16.
    pub fn len(&self, s: Stream) -> u32
        requires { IsStreamOf self.now s }
        ensures count { result ≡ length (log_at self.now s).kept }
        ensures most { result ≤ 16 }
    {
        self.log(s).len()
    }

    /// The stored entry of the stream at this place from 0; none exactly past the end.
    pub fn kept(&self, s: Stream, place: u32) -> Option<&Kept>
        requires { IsStreamOf self.now s }
        ensures { option_copied result ≡ slice_get (log_at self.now s).kept place }
    {
        self.log(s).kept(place)
    }

    fn log(&self, s: Stream) -> &LogOver<W>
        requires { IsStreamOf self.now s }
        ensures { result.now ≡ log_at self.now s }
    {
        let logs = &self.nodes[s.node.place()];
        &logs.slots[s.slot.place()]
    }
}
