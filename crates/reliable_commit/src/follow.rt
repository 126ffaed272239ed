//! The letters of a stream at a follower.
ghost use Rattle.std.specs.Prelude.{◌≡◌, ◌<◌, ◌-◌, ◌^◌, ℕ, length};
ghost use Rattle.zeus_model.specs.Commit.{on_rinv, on_rval};
ghost use Rattle.zeus_model.specs.State.{Node};
ghost use Rattle.follower_log.specs.Streams.{IsStreamOf, log_at};
ghost use Rattle.object_table.specs.Table.{AreWithin};
ghost use Rattle.reliable_commit.specs.Following.{IsFollowed, IsNodeWith, raised_copies, raised_logs, rinv_acks, rinv_outcome, rval_outcome};

use crate::writes::{apply_each, validate_each};
use follower_log::{Store, Stored};
use object_table::Copies;
use zeus_base::{NodeId, Stream};
use zeus_packet::{Cause, RInv};

/// What a follower answers to an entry. An acknowledgement is due exactly for the first two.
#[derive(Clone, Copy, Debug, PartialEq, Eq)]
pub enum RInvAnswer {
    /// It is stored, and its writes are taken.
    Taken,
    /// It was stored before, or has passed.
    Again,
    /// It comes too early: the entry of this number is the next one.
    Gap(u32),
    /// It is refused.
    No(Cause),
}

/// What a follower answers to the word that the entries below a number have passed.
#[derive(Clone, Copy, Debug, PartialEq, Eq)]
pub enum RValAnswer {
    /// That was news.
    Taken,
    /// As many had passed before.
    Again,
    /// It is refused.
    No(Cause),
}

/// An entry of a stream comes to the node `me`. The first of these is the answer:
///
/// 1. `No(OwnStream)`: the stream is the node's own, and nothing changes. Else the stream is raised to the `done` that
///    comes with the entry, whatever the answer.
/// 2. `Again`: the entry is stored already, or has passed.
/// 3. `Gap`: the entry of this number is the next one, and this one comes too early.
/// 4. `No(Window)`: 16 entries are stored.
/// 5. `Taken`: the entry is stored, and its writes are taken into the copies.
///
/// An acknowledgement is due for `Taken` and `Again`. The clauses speak of every node with these copies, streams and
/// number; `from` is the sender. No hold changes. Takes no memory.
pub fn on_rinv(copies: &mut Copies, log: &mut Stored, me: NodeId, r: &RInv) -> RInvAnswer
    requires followed { IsFollowed (length copies.old.copies) log.old r.now.stream }
    requires writes { AreWithin (length copies.old.copies) r.now.writes }
    requires numbered { r.now.number < 2 ^ 32 - 1 }
    ensures answer { (n : Node) (from : ℕ) → IsNodeWith n copies.old.copies log.old me → rinv_outcome result ≡ (on_rinv n from r.now).answer }
    ensures acks { (n : Node) (from : ℕ) → IsNodeWith n copies.old.copies log.old me → (on_rinv n from r.now).sent ≡ rinv_acks n from r.now result }
    ensures copies { (n : Node) (from : ℕ) → IsNodeWith n copies.old.copies log.old me → copies.new.copies ≡ (on_rinv n from r.now).node.copies }
    ensures logs { (n : Node) (from : ℕ) → IsNodeWith n copies.old.copies log.old me → log.new ≡ (on_rinv n from r.now).node.logs }
    ensures holds { copies.new.holds ≡ copies.old.holds }
    ensures objects { length copies.new.copies ≡ length copies.old.copies }
    ensures streams { (t : Stream) → IsFollowed (length copies.old.copies) log.old t → IsFollowed (length copies.old.copies) log.new t }
{
    if r.stream.node == me {
        return RInvAnswer::No(Cause::OwnStream);
    }
    raise(copies, log, &r.stream, r.done);
    match log.store(r) {
        Store::Stored => {
            apply_each(copies, r.writes.as_slice());
            RInvAnswer::Taken
        }
        Store::Again => RInvAnswer::Again,
        Store::Gap(next) => RInvAnswer::Gap(next),
        Store::Window => RInvAnswer::No(Cause::Window),
    }
}

/// The node `me` is told that all entries of the stream below `done` have passed. The first of these is the answer:
///
/// 1. `No(OwnStream)`: the stream is the node's own, and nothing changes.
/// 2. `Taken`: the node did not know it. Its stored entries below `done` are validated in order and dropped.
/// 3. `Again`: the node knew it, and nothing changes.
///
/// The clauses speak of every node with these copies, streams and number. No hold changes, and nothing is sent. Takes no
/// memory.
pub fn on_rval(
    copies: &mut Copies,
    log: &mut Stored,
    me: NodeId,
    s: Stream,
    done: u32,
) -> RValAnswer
    requires { IsFollowed (length copies.old.copies) log.old s }
    ensures answer { (n : Node) → IsNodeWith n copies.old.copies log.old me → rval_outcome result ≡ (on_rval n s done).answer }
    ensures copies { (n : Node) → IsNodeWith n copies.old.copies log.old me → copies.new.copies ≡ (on_rval n s done).node.copies }
    ensures logs { (n : Node) → IsNodeWith n copies.old.copies log.old me → log.new ≡ (on_rval n s done).node.logs }
    ensures holds { copies.new.holds ≡ copies.old.holds }
    ensures objects { length copies.new.copies ≡ length copies.old.copies }
    ensures streams { (t : Stream) → IsFollowed (length copies.old.copies) log.old t → IsFollowed (length copies.old.copies) log.new t }
{
    let stream = &s;
    if stream.node == me {
        return RValAnswer::No(Cause::OwnStream);
    }
    if log.done(*stream) >= done {
        return RValAnswer::Again;
    }
    raise(copies, log, stream, done);
    RValAnswer::Taken
}

/// The entries of the stream below this number have passed elsewhere: the stored ones are validated in order and
/// dropped. Where all that is known already, no entry is moved.
pub(crate) fn raise(copies: &mut Copies, log: &mut Stored, s: &Stream, done: u32)
    requires { IsFollowed (length copies.old.copies) log.old s.now }
    ensures copies { copies.new.copies ≡ raised_copies copies.old.copies (log_at log.old s.now) done }
    ensures logs { log.new ≡ raised_logs log.old s.now done }
    ensures holds { copies.new.holds ≡ copies.old.holds }
    ensures objects { length copies.new.copies ≡ length copies.old.copies }
    ensures streams { (t : Stream) → IsFollowed (length copies.old.copies) log.old t → IsFollowed (length copies.old.copies) log.new t }
{
    if log.done(*s) < done {
        raise_stored(copies, log, s, done);
    }
}

/// The stored entries of the stream below this number are validated in order and dropped.
fn raise_stored(copies: &mut Copies, log: &mut Stored, s: &Stream, done: u32)
    requires { IsFollowed (length copies.old.copies) log.old s.now }
    ensures copies { copies.new.copies ≡ raised_copies copies.old.copies (log_at log.old s.now) done }
    ensures logs { log.new ≡ raised_logs log.old s.now done }
    ensures holds { copies.new.holds ≡ copies.old.holds }
    ensures objects { length copies.new.copies ≡ length copies.old.copies }
    ensures streams { (t : Stream) → IsFollowed (length copies.old.copies) log.old t → IsFollowed (length copies.old.copies) log.new t }
{
    while let Some(entry) = log.raise_one(*s, done) {
        validate_each(copies, entry.writes.as_slice());
    }
    log.raise_rest(*s, done);
}
