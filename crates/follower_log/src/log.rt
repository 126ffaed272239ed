//! A foreign stream at a node.
ghost use Rattle.std.specs.Prelude.{◌≡◌, ◌<◌, ◌≤◌, ◌+◌, ◌-◌, ◌^◌, [], if◌then◌else◌};
ghost use Rattle.std.specs.Prelude.{ℕ, OnSome, IsNone, length, nat_lt, not, option_copied, slice_get};
ghost use Rattle.zeus_base.specs.Nodes.{has};
ghost use Rattle.zeus_model.specs.Commit.{acked_kept, on_kept_rack, stored_rinv, passes_at};
ghost use Rattle.zeus_model.specs.State.{Node, log};
ghost use Rattle.zeus_model.specs.Tables.{front};
ghost use Rattle.follower_log.specs.Streams.{lowest_below, outcome_of, outcome_of_ack, raised_by_one};

use crate::stored::Store;
use std::marker::Model;
use zeus_base::{NodeId, NodeSet, Stream};
use zeus_model::Kept;
use zeus_packet::{RInv, Window};

/// How many entries of a stream have passed, and the window of those behind that are stored, over a window `W`. Seen
/// as the model's log of a stream.
#[derive(Drop)]
pub(crate) struct LogOver<W: Window<Kept>> {
    pub(crate) done: u32,
    pub(crate) kept: W,
}

impl<W: Window<Kept>> Model for LogOver<W> {
    ghost use Rattle.std.specs.Prelude.{◌+◌, ◌^◌, ◌<◌, length};
    ghost use Rattle.zeus_model.specs.State.{StreamLog};

    ghost Value = { StreamLog };

    ghost view = { λ l. record { done = l.done; kept = W.items l.kept } };

    ghost invariant = { λ l. l.done + length (W.items l.kept) < 2 ^ 32 };
}

impl<W: Window<Kept>> LogOver<W> {
    /// How many entries of the stream are known to have passed.
    pub(crate) fn done(&self) -> u32
        ensures passed { result ≡ self.now.done }
        ensures numbered { result + length self.now.kept < 2 ^ 32 }
    {
        self.done
    }

    /// How many entries are stored; at most 16.
    pub(crate) fn len(&self) -> u32
        ensures count { result ≡ length self.now.kept }
        ensures most { result ≤ 16 }
    {
        self.kept.len()
    }

    /// The stored entry at this place, counted from the front, where there is one.
    pub(crate) fn kept(&self, place: u32) -> Option<&Kept>
        ensures { option_copied result ≡ slice_get self.now.kept place }
    {
        self.kept.get(place)
    }

    /// Stores an entry at the end where its number is the next one and a place is free.
    pub(crate) fn store(&mut self, r: &RInv) -> Store
        requires { r.now.number < 2 ^ 32 - 1 }
        ensures answer { (n : Node) (from : ℕ) → log n r.now.stream ≡ self.old → outcome_of result ≡ (stored_rinv n from r.now).answer }
        ensures after { (n : Node) (from : ℕ) → log n r.now.stream ≡ self.old → self.new ≡ log (stored_rinv n from r.now).node r.now.stream }
    {
        let next = self.done + self.kept.len();
        let number = r.number;
        if number < next {
            return Store::Again;
        }
        if next < number {
            return Store::Gap(next);
        }
        let entry = Kept {
            followers: r.followers,
            writes: r.writes.duplicate(),
            acks: NodeSet::empty(),
        };
        match self.kept.push(entry) {
            Ok(()) => Store::Stored,
            Err(_) => Store::Window,
        }
    }

    /// Takes the lowest stored entry out where it is below this number.
    pub(crate) fn raise_one(&mut self, done: u32) -> Option<Kept>
        ensures entry { result ≡ lowest_below self.old done }
        ensures raised { OnSome result (self.new ≡ raised_by_one self.old) }
        ensures kept { IsNone result → self.new ≡ self.old }
    {
        if self.done >= done {
            return None;
        }
        let entry = self.kept.pop()?;
        self.done += 1;
        Some(entry)
    }

    /// All entries below this number have passed, of which none is stored.
    pub(crate) fn raise_rest(&mut self, done: u32)
        requires { self.old.done < done → self.old.kept ≡ [] }
        ensures { self.new ≡ (if nat_lt self.old.done done then record { done = done; kept = [] } else self.old) }
    {
        if self.done < done {
            self.done = done;
        }
    }

    /// The node has acknowledged the entry of this number.
    pub(crate) fn ack(&mut self, number: u32, from: NodeId) -> bool
        ensures answer { (n : Node) (s : Stream) → log n s ≡ self.old → outcome_of_ack result ≡ (on_kept_rack n from s number).answer }
        ensures after { (n : Node) (s : Stream) → log n s ≡ self.old → self.new ≡ log (on_kept_rack n from s number).node s }
    {
        if number < self.done {
            return false;
        }
        match self.kept.get_mut(number - self.done) {
            None => false,
            Some(entry) => add_ack(entry, from),
        }
    }

    /// How many entries from the front on every other member among their followers has acknowledged.
    pub(crate) fn passing(&self, me: NodeId, members: NodeSet) -> u32
        ensures value { result ≡ front (passes_at me members) self.now.kept }
        ensures most { result ≤ length self.now.kept }
    {
        let mut count = 0;
        while let Some(entry) = self.kept.get(count) {
            if !passes(entry, me, members) {
                return count;
            }
            count += 1;
        }
        count
    }
}

/// The node has acknowledged the entry; the answer is true exactly where it had not before.
fn add_ack(entry: &mut Kept, from: NodeId) -> bool
    ensures answer { result ≡ not (has from entry.old.acks) }
    ensures after { entry.new ≡ (if result then acked_kept entry.old from else entry.old) }
{
    if entry.acks.has(from) {
        return false;
    }
    entry.acks = entry.acks.insert(from);
    true
}

/// Whether every other member among its followers has acknowledged the entry.
#[tactic(auto, unfolding(zeus_model::specs::Commit::passes_at))]
fn passes(entry: &Kept, me: NodeId, members: NodeSet) -> bool
    ensures { result ≡ passes_at me members entry.now }
{
    entry
        .followers
        .meet(members)
        .without(me)
        .is_subset(entry.acks)
}
