//! What passes: entries of an own slot, and those of the stream of a node that is no member.
ghost use Rattle.std.specs.Prelude.{◌≡◌, ◌≤◌, ◌+◌, ◌-◌, ◌^◌, ℕ, drop, length, map, take};
ghost use Rattle.zeus_base.specs.Nodes.{meet, without};
ghost use Rattle.zeus_model.specs.Commit.{as_kept, each_write, followers_of, validated, writes_of};
ghost use Rattle.follower_log.specs.Streams.{IsStreamOf, log_at};
ghost use Rattle.object_table.specs.Entries.{AreEntriesWithin, named_of};
ghost use Rattle.object_table.specs.Table.{each_unheld};
ghost use Rattle.reliable_commit.specs.Advancing.{AdvancesKept, AdvancesOwn};
ghost use Rattle.reliable_commit.specs.Following.{IsFollowed};

use crate::follow::raise;
use crate::writes::{unhold_each, validate_each};
use commit_pipeline::Pipe;
use follower_log::Stored;
use object_table::Copies;
use zeus_base::{NodeId, NodeSet, Stream};

/// The entries of a stream that pass, those from number `first` to below `after`, and the members among their
/// followers, which are to be told. None passes where the two numbers are the same; then none is to be told.
#[derive(Clone, Copy, Debug, PartialEq, Eq)]
pub struct Advance {
    pub first: u32,
    pub after: u32,
    pub tell: NodeSet,
}

/// The entries from the front of an own slot on that every other member among their followers has acknowledged pass
/// at the node `me`: their writes are validated in order, and what they name is let go. The clauses speak of every
/// node with these copies, number and members, of which this slot's entries that wait are those of the pipe. Takes no
/// memory.
pub fn advance_own(copies: &mut Copies, pipe: &mut Pipe, me: NodeId, members: NodeSet) -> Advance
    requires { AreEntriesWithin (length copies.old.copies) pipe.old.pending }
    ensures does { AdvancesOwn me members copies.old copies.new pipe.old pipe.new result }
{
    let first = pipe.done();
    let count = pipe.passing(me, members);
    let followers = own_followers(pipe, count);
    pass(copies, pipe, count);
    Advance {
        first,
        after: pipe.done(),
        tell: told(followers, me, members),
    }
}

/// The entries from the front of a stream on that every other member among their followers has acknowledged pass at
/// the node `me`, which replays the stream: their writes are validated in order. The clauses speak of every node with
/// these copies and streams, this number and these members. No hold changes. Takes no memory.
pub fn advance_kept(
    copies: &mut Copies,
    log: &mut Stored,
    s: Stream,
    me: NodeId,
    members: NodeSet,
) -> Advance
    requires { IsFollowed (length copies.old.copies) log.old s }
    ensures does { AdvancesKept s me members copies.old copies.new log.old log.new result }
{
    let stream = &s;
    let first = log.done(*stream);
    let count = log.passing(*stream, me, members);
    let followers = kept_followers(log, stream, count);
    let after = first + count;
    raise(copies, log, stream, after);
    Advance {
        first,
        after,
        tell: told(followers, me, members),
    }
}

/// The members among the followers, without the node itself.
fn told(followers: NodeSet, me: NodeId, members: NodeSet) -> NodeSet
    ensures { result ≡ without me (meet followers members) }
{
    followers.meet(members).without(me)
}

/// The first entries of the pipe pass: the writes of each are validated, and what it names is let go.
fn pass(copies: &mut Copies, pipe: &mut Pipe, count: u32)
    requires few { count ≤ length pipe.old.pending }
    requires within { AreEntriesWithin (length copies.old.copies) pipe.old.pending }
    ensures pending { pipe.new.pending ≡ drop count pipe.old.pending }
    ensures done { pipe.new.done ≡ pipe.old.done + count }
    ensures copies { copies.new.copies ≡ each_write validated copies.old.copies (writes_of (take count (map as_kept pipe.old.pending))) }
    ensures holds { copies.new.holds ≡ each_unheld copies.old.holds (named_of (take count pipe.old.pending)) }
    ensures objects { length copies.new.copies ≡ length copies.old.copies }
{
    for _turn in 0..count {
        let Some(entry) = pipe.pass() else {
            return;
        };
        validate_each(copies, entry.writes.as_slice());
        unhold_each(copies, entry.named.as_slice());
    }
}

/// All followers of the first entries of the pipe.
fn own_followers(pipe: &Pipe, count: u32) -> NodeSet
    requires { count ≤ length pipe.now.pending }
    ensures { result ≡ followers_of (take count (map as_kept pipe.now.pending)) }
{
    let mut all = NodeSet::empty();
    for turn in 0..count {
        if let Some(entry) = pipe.pending(count - 1 - turn) {
            all = entry.followers.join(all);
        }
    }
    all
}

/// All followers of the first stored entries of the stream.
fn kept_followers(log: &Stored, s: &Stream, count: u32) -> NodeSet
    requires stream { IsStreamOf log.now s.now }
    requires few { count ≤ length (log_at log.now s.now).kept }
    ensures { result ≡ followers_of (take count (log_at log.now s.now).kept) }
{
    let mut all = NodeSet::empty();
    for turn in 0..count {
        if let Some(entry) = log.kept(*s, count - 1 - turn) {
            all = entry.followers.join(all);
        }
    }
    all
}
