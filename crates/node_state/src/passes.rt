//! Streams pass, and their followers are told.
ghost use Rattle.std.specs.Prelude.{◌≡◌, ◌<◌, ◌≤◌, [], true, length};
ghost use Rattle.zeus_model.specs.Act.{to_each};
ghost use Rattle.zeus_model.specs.Commit.{advance_kept, advance_own};
ghost use Rattle.zeus_packet.specs.Fits.{stream_fits};
ghost use Rattle.zeus_packet.specs.declared.letter.Body.TheVariants.{RVal};
ghost use Rattle.node_ranges.specs.Ranges.{limits_of};
ghost use Rattle.reliable_commit.specs.Advancing.{passed_by};
ghost use Rattle.node_state.specs.Done.{Adds, IsActed};

use crate::effect::Effect;
use crate::state::NodeState;
use reliable_commit::Advance;
use zeus_base::{NodeSet, Passed, SlotId, Stream};
use zeus_packet::Body;

impl NodeState {
    /// The longest front of acknowledged entries of the slot passes, and the members among their followers are told.
    pub fn pass_own(&mut self, slot: SlotId, out: &mut Effect)
        requires slot { slot < length self.old.slots }
        requires sent { length out.old.sent ≤ 64 }
        requires passed { length out.old.passed < 72 }
        ensures acted { IsActed (advance_own self.old slot) self.new out.old out.new }
        ensures limits { limits_of self.new ≡ limits_of self.old }
    {
        let stream = Stream {
            node: self.me,
            slot,
        };
        let advance = self.advance_own(slot);
        self.tell(&stream, &advance, out);
    }

    /// The longest front of acknowledged entries of the stream, which this node replays, passes, and the members among
    /// their followers are told.
    pub fn pass_kept(&mut self, stream: &Stream, out: &mut Effect)
        requires fits { stream_fits (limits_of self.old) stream.now ≡ true }
        requires sent { length out.old.sent ≤ 64 }
        requires passed { length out.old.passed < 72 }
        ensures acted { IsActed (advance_kept self.old stream.now) self.new out.old out.new }
        ensures limits { limits_of self.new ≡ limits_of self.old }
    {
        let Some(_first) = self.stored(*stream, 0) else {
            return;
        };
        let advance = self.advance_kept(*stream);
        self.tell(stream, &advance, out);
    }

    /// Tells who is to be told how many entries of the stream have passed, and notes the pass, if there is one.
    fn tell(&self, stream: &Stream, advance: &Advance, out: &mut Effect)
        requires sent { length out.old.sent ≤ 64 }
        requires passed { length out.old.passed < 72 }
        ensures { Adds (to_each self.now advance.now.tell (RVal stream.now advance.now.after)) (passed_by stream.now advance.now) out.old out.new }
    {
        self.tell_done(advance.tell, stream, advance.after, out);
        if advance.first != advance.after {
            out.passed.push(Passed {
                stream: *stream,
                first: advance.first,
                after: advance.after,
            });
        }
    }

    // Tells each of the nodes how many entries of the stream have passed. For nobody no letter is made.
    fn tell_done(&self, receivers: NodeSet, stream: &Stream, done: u32, out: &mut Effect)
        requires { length out.old.sent ≤ 64 }
        ensures { Adds (to_each self.now receivers (RVal stream.now done)) [] out.old out.new }
    {
        if receivers.is_empty() {
            return;
        }
        let body = Body::RVal(*stream, done);
        self.send_each(receivers, &body, out);
    }
}
