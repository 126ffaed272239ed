//! Commit and replication at a node: entries are stored, acknowledged and passed, and who has reported.
ghost use Rattle.std.specs.Prelude.{◌≡◌, ◌<◌, ◌≤◌, ℕ, [], not, true, length, option_copied, slice_get};
ghost use Rattle.zeus_base.specs.Nodes.{has};
ghost use Rattle.zeus_packet.specs.Fits.{inv_fits, nodes_fit, stream_fits};
ghost use Rattle.zeus_packet.specs.declared.letter.Body.TheVariants.{RVal};
ghost use Rattle.zeus_model.specs.Act.{to_each};
ghost use Rattle.zeus_model.specs.Commit.{advance_kept, advance_own, none_stored, on_rack, on_rinv, on_rval, outside};
ghost use Rattle.zeus_model.specs.Receive.{on_recovered};
ghost use Rattle.zeus_model.specs.State.{own_stream};
ghost use Rattle.crash_replay.specs.Replay.{next_stored};
ghost use Rattle.follower_log.specs.Streams.{outcome_of_ack};
ghost use Rattle.reliable_commit.specs.Advancing.{passed_by};
ghost use Rattle.reliable_commit.specs.Following.{rinv_acks, rinv_outcome, rval_outcome};
ghost use Rattle.node_ranges.specs.Ranges.{limits_of};
ghost use Rattle.node_state.specs.Changes.{in_view, stopped};

use crate::state::NodeState;
use reliable_commit::{Advance, RInvAnswer, RValAnswer};
use zeus_base::{NodeId, SlotId, Stream};
use zeus_packet::{RInv, View};

impl NodeState {
    /// An entry comes: what has passed before it is raised first; then it is stored, and its writes are taken, where
    /// its number is the next one of the stream and a place is free.
    pub fn on_rinv(&mut self, r: &RInv) -> RInvAnswer
        requires { inv_fits (limits_of self.old) r.now ≡ true }
        ensures answer { (from : ℕ) → rinv_outcome result ≡ (on_rinv self.old from r.now).answer }
        ensures after { (from : ℕ) → self.new ≡ (on_rinv self.old from r.now).node }
        ensures sent { (from : ℕ) → rinv_acks self.old from r.now result ≡ (on_rinv self.old from r.now).sent }
    {
        reliable_commit::on_rinv(&mut self.copies, &mut self.logs, self.me, r)
    }

    /// The word comes that all entries of the stream below this number have passed: where that was not known, the
    /// stored ones among them are validated in order and dropped.
    pub fn on_rval(&mut self, s: Stream, done: u32) -> RValAnswer
        requires { stream_fits (limits_of self.old) s ≡ true }
        ensures answer { rval_outcome result ≡ (on_rval self.old s done).answer }
        ensures after { self.new ≡ (on_rval self.old s done).node }
    {
        reliable_commit::on_rval(&mut self.copies, &mut self.logs, self.me, s, done)
    }

    /// An acknowledgement comes. The answer is true exactly where the entry is pending in the own stream, or stored of
    /// the foreign one, and the sender has not acknowledged it before; else nothing changes.
    pub fn on_rack(&mut self, from: NodeId, s: Stream, number: u32) -> bool
        requires { stream_fits (limits_of self.old) s ≡ true }
        ensures answer { outcome_of_ack result ≡ (on_rack self.old from s number).answer }
        ensures after { self.new ≡ (on_rack self.old from s number).node }
    {
        let stream = &s;
        if stream.node != self.me {
            return self.logs.ack(*stream, number, from);
        }
        let slot = &mut self.slots[stream.slot.place()];
        slot.pipe.ack(number, from)
    }

    /// The longest front of acknowledged entries of the slot passes.
    pub fn advance_own(&mut self, slot: SlotId) -> Advance
        requires { slot < length self.old.slots }
        ensures after { self.new ≡ (advance_own self.old slot).node }
        ensures letters { (advance_own self.old slot).sent ≡ to_each self.old result.tell (RVal (own_stream self.old slot) result.after) }
        ensures passed { (advance_own self.old slot).passed ≡ passed_by (own_stream self.old slot) result }
        ensures limits { limits_of self.new ≡ limits_of self.old }
    {
        let slot = &mut self.slots[slot.place()];
        reliable_commit::advance_own(&mut self.copies, &mut slot.pipe, self.me, self.members)
    }

    /// The longest front of acknowledged entries of the stream, which this node replays, passes.
    pub fn advance_kept(&mut self, s: Stream) -> Advance
        requires { stream_fits (limits_of self.old) s ≡ true }
        ensures after { self.new ≡ (advance_kept self.old s).node }
        ensures letters { (advance_kept self.old s).sent ≡ to_each self.old result.tell (RVal s result.after) }
        ensures passed { (advance_kept self.old s).passed ≡ passed_by s result }
        ensures limits { limits_of self.new ≡ limits_of self.old }
    {
        reliable_commit::advance_kept(&mut self.copies, &mut self.logs, s, self.me, self.members)
    }

    /// Whether no entry of a non-member's stream is stored, so that nothing is to be replayed.
    pub fn is_recovered(&self) -> bool
        ensures { result ≡ none_stored self.now (outside self.now) }
    {
        crash_replay::is_recovered(&self.logs, self.node_count, self.slot_count, self.members)
    }

    /// The first stream after the given one, or of all, in the order of node and slot, whose node is no member and of
    /// which entries are stored. `None` exactly if there is no such stream.
    pub fn next_replay(&self, after: Option<Stream>) -> Option<Stream>
        ensures { result ≡ next_stored self.now after }
    {
        crash_replay::next_replay(
            &self.logs,
            self.node_count,
            self.slot_count,
            self.members,
            after,
        )
    }

    /// Notes that the node has reported in this epoch. True exactly where it had not.
    pub fn report(&mut self, node: NodeId) -> bool
        requires { node < length self.old.logs }
        ensures answer { result ≡ not (has node self.old.reported) }
        ensures after { self.new ≡ (on_recovered self.old node).node }
    {
        self.barrier.report(node)
    }

    /// Takes the epoch and the members of the view. Nobody has reported in it, and nothing is gathered.
    pub fn take_view(&mut self, view: &View)
        requires epoch { 1 ≤ view.now.epoch }
        requires members { nodes_fit (limits_of self.old) view.now.members ≡ true }
        ensures { self.new ≡ in_view self.old view.now }
    {
        self.epoch = view.epoch;
        self.members = view.members;
        self.barrier.reset();
        self.gathers.drop_all();
    }

    /// The node has stopped.
    pub fn stop(&mut self)
        ensures { self.new ≡ stopped self.old }
    {
        self.stopped = true;
    }
}
