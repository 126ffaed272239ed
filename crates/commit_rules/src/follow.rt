//! The letters of streams, and the word that a node has reported.
ghost use Rattle.std.specs.Prelude.{◌≡◌, ◌<◌, ◌≤◌, [], ◌∷◌, true, length};
ghost use Rattle.zeus_packet.specs.Fits.{inv_fits, stream_fits};
ghost use Rattle.zeus_packet.specs.declared.letter.Body.TheVariants.{RAck};
ghost use Rattle.zeus_model.specs.Act.{letter};
ghost use Rattle.zeus_model.specs.Commit.{on_rack, on_rinv, on_rval};
ghost use Rattle.zeus_model.specs.Receive.{on_recovered};
ghost use Rattle.node_ranges.specs.Ranges.{limits_of};
ghost use Rattle.node_state.specs.Done.{Adds, IsDone, IsQuiet};

use node_state::{Effect, NodeState, RInvAnswer, RValAnswer};
use zeus_base::{NodeId, Stream};
use zeus_model::Outcome;
use zeus_packet::{Body, RInv};

/// An entry comes from a node: what has passed before it is raised first; then it is stored, and its writes are taken,
/// if its number is the next one of the stream and a place is free. An entry that is stored, now or before, is
/// acknowledged to the sender.
pub fn on_rinv(node: &mut NodeState, from: NodeId, r: &RInv, out: &mut Effect) -> Outcome
    requires fits { inv_fits (limits_of node.old) r.now ≡ true }
    requires room { length out.old.sent ≤ 64 }
    ensures { IsDone (on_rinv node.old from r.now) result node.new out.old out.new }
{
    match node.on_rinv(r) {
        RInvAnswer::Taken => {
            acknowledge(node, from, r, out);
            Outcome::Taken
        }
        RInvAnswer::Again => {
            acknowledge(node, from, r, out);
            Outcome::Again
        }
        RInvAnswer::Gap(next) => Outcome::Gap(next),
        RInvAnswer::No(cause) => Outcome::Refused(cause),
    }
}

/// Tells the sender that the entry is stored.
fn acknowledge(node: &NodeState, from: NodeId, r: &RInv, out: &mut Effect)
    ensures { Adds (letter node.now from (RAck r.now.stream r.now.number) ∷ []) [] out.old out.new }
{
    node.send(from, Body::RAck(r.stream, r.number), out);
}

/// An acknowledgement comes from a node. It counts if its entry is pending in the own stream, or stored of the foreign
/// one, and the node has not acknowledged the entry before; else nothing changes. Nothing is sent.
pub fn on_rack(node: &mut NodeState, from: NodeId, s: Stream, number: u32) -> Outcome
    requires { stream_fits (limits_of node.old) s ≡ true }
    ensures { IsQuiet (on_rack node.old from s number) result node.new }
{
    if node.on_rack(from, s, number) {
        Outcome::Taken
    } else {
        Outcome::Again
    }
}

/// The word comes that all entries of the stream below this number have passed: if that was not known, the stored ones
/// among them are validated in order and dropped. Nothing is sent.
pub fn on_rval(node: &mut NodeState, s: Stream, done: u32) -> Outcome
    requires { stream_fits (limits_of node.old) s ≡ true }
    ensures { IsQuiet (on_rval node.old s done) result node.new }
{
    match node.on_rval(s, done) {
        RValAnswer::Taken => Outcome::Taken,
        RValAnswer::Again => Outcome::Again,
        RValAnswer::No(cause) => Outcome::Refused(cause),
    }
}

/// The word comes that a node has reported. Nothing is sent.
pub fn on_recovered(node: &mut NodeState, from: NodeId) -> Outcome
    requires { from < length node.old.logs }
    ensures { IsQuiet (on_recovered node.old from) result node.new }
{
    if node.report(from) {
        Outcome::Taken
    } else {
        Outcome::Again
    }
}
