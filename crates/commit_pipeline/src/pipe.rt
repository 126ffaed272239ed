//! The pipe: entries are pushed at its end, acknowledged at any place, and passed at its front.
ghost use Rattle.std.specs.Prelude.{◌≡◌, ◌+◌, ◌-◌, ◌<◌, ◌≤◌, ◌↔◌, ◌^◌, [], ◌∷◌, ◌++◌, if◌then◌else◌};
ghost use Rattle.std.specs.Prelude.{IfOk, IsOk, OnErr, IfNone, drop, length, map, not, option_copied, slice_get};
ghost use Rattle.std.specs.Option.{OnSome};
ghost use Rattle.zeus_base.specs.Nodes.{has};
ghost use Rattle.zeus_model.specs.Commit.{acked_pending, as_kept, no_pending, passes_at};
ghost use Rattle.zeus_model.specs.Tables.{front, nth, put};
ghost use Rattle.commit_pipeline.specs.Pipes.{acknowledged, all_due, counts, outstanding};

use crate::due::{Due, DueList};
use std::alloc::Global;
use std::marker::Model;
use zeus_base::{NoMemory, NodeId, NodeSet};
use zeus_model::Pending;
use zeus_packet::{NewWindow, PlainWindow, RingWindow, Window};

/// The entries of an own slot that wait for acknowledgements, numbered from how many have passed on, over a window.
/// With them the pipe keeps the list of the sends that are due. No call but `new` takes memory.
#[derive(Debug, Drop)]
pub struct PipeOver<W: Window<Pending>> {
    done: u32,
    entries: W,
    due: DueList,
}

/// A pipe whose entries stand in a ring.
pub type Pipe = PipeOver<RingWindow<Pending>>;

/// A pipe whose entries stand in a vector.
pub type PlainPipe = PipeOver<PlainWindow<Pending>>;

/// No place is free.
#[derive(Clone, Copy, Debug, PartialEq, Eq)]
pub struct Full;

impl<W: Window<Pending>> Model for PipeOver<W> {
    ghost use Rattle.commit_pipeline.specs.Pipes.{IsKept, Waiting};

    ghost Value = { Waiting };

    ghost view = { λ p. record { done = p.done; pending = W.items p.entries } };

    ghost invariant = { λ p. IsKept (record { done = p.done; pending = W.items p.entries }) p.due };
}

impl<W: NewWindow<Pending> + Drop> PipeOver<W> {
    /// A pipe with no entry, of which none has passed. All memory is taken here.
    ///
    /// # Errors
    ///
    /// `NoMemory` where that memory is not there.
    pub fn new(alloc: Global) -> Result<Self, NoMemory>
        ensures { IfOk result (λ p. p ≡ record { done = 0; pending = [] }) }
    {
        let due = DueList::new(alloc)?;
        Ok(PipeOver::empty(W::empty(alloc)?, due))
    }
}

impl<W: Window<Pending>> PipeOver<W> {
    /// A pipe with no entry over a window with none.
    fn empty(entries: W, due: DueList) -> Self
        requires entries { W.items entries ≡ [] }
        requires due { due ≡ [] }
        ensures { result ≡ record { done = 0; pending = [] } }
    {
        PipeOver {
            done: 0,
            entries,
            due,
        }
    }

    /// Adds an entry at the end, and hands out its number.
    ///
    /// # Errors
    ///
    /// `Full` exactly where 16 entries are pending; then nothing changes.
    pub fn push(&mut self, entry: Pending) -> Result<u32, Full>
        requires { self.old.done + length self.old.pending < 2 ^ 32 - 1 }
        ensures variant { IsOk result ↔ (length self.old.pending < 16) }
        ensures number { IfOk result (λ number. number ≡ self.old.done + length self.old.pending) }
        ensures after { IfOk result (λ _. self.new ≡ record { done = self.old.done; pending = self.old.pending ++ entry ∷ [] }) }
        ensures full { OnErr result (self.new ≡ self.old) }
    {
        let number = self.done + self.entries.len();
        let (followers, acks) = (entry.followers, entry.acks);
        match self.entries.push(entry) {
            Ok(()) => {
                self.due.add(number, followers, acks);
                Ok(number)
            }
            Err(_) => Err(Full),
        }
    }

    /// The node has acknowledged the entry of this number. The answer is true exactly where the entry is pending and
    /// the node has not acknowledged it before; else nothing changes.
    pub fn ack(&mut self, number: u32, from: NodeId) -> bool
        ensures answer { result ≡ counts self.old number from }
        ensures after { self.new ≡ (if counts self.old number from then acknowledged self.old number from else self.old) }
    {
        if number < self.done {
            return false;
        }
        if !acknowledge(&mut self.entries, number - self.done, from) {
            return false;
        }
        self.due.acknowledge(number, from);
        true
    }

    /// How many entries from the front on every other member among their followers has acknowledged.
    pub fn passing(&self, me: NodeId, members: NodeSet) -> u32
        ensures value { result ≡ front (passes_at me members) (map as_kept self.now.pending) }
        ensures most { result ≤ length self.now.pending }
    {
        passing(&self.entries, me, members)
    }

    /// Takes the lowest entry out, which has passed; none exactly where there is none, and then nothing changes.
    pub fn pass(&mut self) -> Option<Pending>
        ensures first { result ≡ slice_get self.old.pending 0 }
        ensures after { OnSome result (self.new ≡ record { done = self.old.done + 1; pending = drop 1 self.old.pending }) }
        ensures none { IfNone result (self.new ≡ self.old) }
    {
        let entry = self.entries.pop()?;
        self.due.pass(self.done);
        self.done += 1;
        Some(entry)
    }

    /// How many entries have passed, which is the number of the lowest pending one.
    pub fn done(&self) -> u32
        ensures { result ≡ self.now.done }
    {
        self.done
    }

    /// How many entries are pending.
    pub fn len(&self) -> u32
        ensures count { result ≡ length self.now.pending }
        ensures most { result ≤ 16 }
        ensures numbered { self.now.done + result < 2 ^ 32 }
    {
        self.entries.len()
    }

    /// The pending entry at this place from 0, the lowest; none exactly past the end.
    pub fn pending(&self, place: u32) -> Option<&Pending>
        ensures { option_copied result ≡ slice_get self.now.pending place }
    {
        self.entries.get(place)
    }

    /// The sends that are due, of one pass: each pending entry in order of number to each follower that has not
    /// acknowledged it, in node order.
    pub fn due(&self) -> &[Due]
        ensures { result.now ≡ all_due self.now }
    {
        self.due.as_slice()
    }

    /// The send at this place from 0 among those that are due to members: each pending entry in order of number, each
    /// member among its followers that has not acknowledged it in node order; none exactly past their end.
    pub fn outstanding(&self, members: NodeSet, place: u32) -> Option<Due>
        ensures { result ≡ slice_get (outstanding members self.now) place }
    {
        self.due.get(members, place)
    }
}

/// The node has acknowledged the entry at this place. The answer is true exactly where there is one that the node has
/// not acknowledged before; else nothing changes.
fn acknowledge<W: Window<Pending>>(entries: &mut W, place: u32, from: NodeId) -> bool
    ensures answer { result ≡ counts (record { done = 0; pending = W.items entries.old }) place from }
    ensures after { W.items entries.new
        ≡ (if result then put no_pending (W.items entries.old) place (acked_pending (nth no_pending (W.items entries.old) place) from)
        else W.items entries.old) }
{
    match entries.get_mut(place) {
        Some(entry) => add_ack(entry, from),
        None => false,
    }
}

/// The node has acknowledged the entry. The answer is true exactly where it has not done so before.
fn add_ack(entry: &mut Pending, from: NodeId) -> bool
    ensures answer { result ≡ not (has from entry.old.acks) }
    ensures after { entry.new ≡ (if result then acked_pending entry.old from else entry.old) }
{
    if entry.acks.has(from) {
        return false;
    }
    entry.acks = entry.acks.insert(from);
    true
}

/// How many entries from the front on every other member among their followers has acknowledged.
fn passing<W: Window<Pending>>(entries: &W, me: NodeId, members: NodeSet) -> u32
    ensures value { result ≡ front (passes_at me members) (map as_kept (W.items entries.now)) }
    ensures most { result ≤ length (W.items entries.now) }
{
    for place in 0..entries.len() {
        match entries.get(place) {
            Some(entry) if passes(entry, me, members) => {}
            _ => return place,
        }
    }
    entries.len()
}

/// Whether every other member among its followers has acknowledged the entry.
#[tactic(auto, unfolding(zeus_model::specs::Commit::passes_at))]
fn passes(entry: &Pending, me: NodeId, members: NodeSet) -> bool
    ensures { result ≡ passes_at me members (as_kept entry.now) }
{
    entry
        .followers
        .meet(members)
        .without(me)
        .is_subset(entry.acks)
}
