//! What a node does with a letter, but for the finish.
ghost use Rattle.std.specs.Prelude.{◌≡◌, ◌<◌, ◌≤◌, ◌&&◌, length, not, true};
ghost use Rattle.zeus_packet.specs.Fits.{body_fits};
ghost use Rattle.zeus_model.specs.Receive.{needs_open, row, rejection};
ghost use Rattle.zeus_model.specs.State.{is_open};
ghost use Rattle.zeus_model.specs.Tables.{where_true};
ghost use Rattle.zeus_model.specs.declared.answer.Outcome.TheVariants.{NotOpen};
ghost use Rattle.node_ranges.specs.Ranges.{limits_of};
ghost use Rattle.node_state.specs.Done.{IsDone};

use commit_rules::{on_rack, on_recovered, on_rinv, on_rval};
use node_state::{Effect, NodeState};
use ownership_rules::{on_oack, on_oinv, on_oreq, on_oval};
use zeus_model::Outcome;
use zeus_packet::{Body, Letter};

/// Why a letter meets no rule: the first test that it fails.
pub(crate) fn rejection(state: &NodeState, letter: &Letter) -> Option<Outcome>
    ensures { result ≡ rejection state.now letter.now }
{
    if state.is_stopped() {
        return Some(Outcome::Stopped);
    }
    if letter.to != state.me() {
        return Some(Outcome::NotMine(letter.to));
    }
    if letter.epoch != state.epoch() {
        return Some(Outcome::OtherEpoch(letter.epoch, state.epoch()));
    }
    closed(state, &letter.body)
}

/// A request or a proposal is not taken at a node that is not open.
fn closed(state: &NodeState, body: &Body) -> Option<Outcome>
    ensures { result ≡ where_true (needs_open body.now && not (is_open state.now)) NotOpen }
{
    if state.is_open() {
        return None;
    }
    if needs_open(body) {
        Some(Outcome::NotOpen)
    } else {
        None
    }
}

/// Whether the body is taken by open nodes alone.
#[tactic(auto, unfolding(zeus_model::specs::Receive::needs_open))]
fn needs_open(body: &Body) -> bool
    ensures { result ≡ needs_open body.now }
{
    matches!(body, Body::OReq(_, _) | Body::OInv(_, _))
}

/// The rule of the letter's body.
pub(crate) fn apply(state: &mut NodeState, letter: &Letter, out: &mut Effect) -> Outcome
    requires from { letter.now.from < length state.old.logs }
    requires body { body_fits (limits_of state.old) letter.now.body ≡ true }
    requires room { length out.old.sent ≤ 64 }
    ensures { IsDone (row state.old letter.now.from letter.now.body) result state.new out.old out.new }
{
    let from = letter.from;
    match &letter.body {
        Body::RInv(r) => on_rinv(state, from, r, out),
        Body::RAck(stream, number) => on_rack(state, from, *stream, *number),
        Body::RVal(stream, done) => on_rval(state, *stream, *done),
        Body::OReq(obj, want) => on_oreq(state, from, *obj, *want, out),
        Body::OInv(obj, p) => on_oinv(state, from, *obj, p, out),
        Body::OAck(obj, p, content) => on_oack(state, from, *obj, p, *content, out),
        Body::ONack(_, _, _) => Outcome::Taken,
        Body::OVal(obj, stamp, place) => on_oval(state, *obj, *stamp, *place),
        Body::Recovered => on_recovered(state, from),
    }
}
