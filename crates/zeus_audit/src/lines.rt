//! A line of a report.
ghost use Rattle.zeus_model.specs.Scripts.{FitsScript};
ghost use Rattle.zeus_audit.specs.Auditing.{Takes};
ghost use Rattle.zeus_audit.specs.Fitting.{Fits};
ghost use Rattle.zeus_audit.specs.Progress.{state_of};
ghost use Rattle.zeus_audit.specs.Rules.{state_line, other_line, line_taken};

use crate::events::{take_ack_line, take_packet_line, take_point_line};
use crate::failure::Failure;
use crate::objects::{take_copy_line, take_lost, take_object_line};
use crate::progress::Progress;
use crate::stage::Stage;
use crate::steps::{take_head, take_state, take_step};
use crate::verdict::Rule;
use zeus_model::Script;

/// Takes the line behind so many states: the next state, or behind the last one the first object.
#[tactic(auto, unfolding(crate::specs::Rules::state_line))]
fn take_state_line(
    progress: &mut Progress,
    script: &Script,
    told: usize,
    line: &[u8],
) -> Result<(), Failure>
    requires { FitsScript script.now }
    ensures { Takes result progress.new (state_line script.now (state_of progress.old) told line.now) }
{
    if told < script.txs.len() {
        take_state(progress, told, line)
    } else {
        take_object_line(progress, script, 0, line)
    }
}

/// Takes a line that tells neither a point nor an acknowledgement nor a packet nor a copy.
#[tactic(auto, unfolding(crate::specs::Rules::other_line))]
fn take_other_line(progress: &mut Progress, script: &Script, line: &[u8]) -> Result<(), Failure>
    requires script { FitsScript script.now }
    requires fits { Fits script.now (state_of progress.old) }
    ensures { Takes result progress.new (other_line script.now (state_of progress.old) progress.old.stage line.now) }
{
    match progress.stage {
        Stage::Head => take_head(progress, script, line),
        Stage::Steps(told, _) => take_step(progress, script, told, line),
        Stage::States(told) => take_state_line(progress, script, told, line),
        Stage::Objects(told) => take_object_line(progress, script, told, line),
        Stage::Holders(object, _) => take_lost(progress, script, object, line),
        Stage::Copies(object, _, _) => {
            take_object_line(progress, script, usize::from(object) + 1, line)
        }
        Stage::Ended => Err(Failure::Rule(Rule::Form)),
    }
}

/// Takes the next line: what the lines then tell, or the first rule that the line breaks.
#[tactic(auto, unfolding(crate::specs::Rules::line_taken))]
pub(crate) fn take_line(
    progress: &mut Progress,
    script: &Script,
    line: &[u8],
) -> Result<(), Failure>
    requires script { FitsScript script.now }
    requires fits { Fits script.now (state_of progress.old) }
    ensures { Takes result progress.new (line_taken script.now (state_of progress.old) line.now) }
{
    if line.starts_with(b"* ") {
        take_point_line(progress, script, line)
    } else if line.starts_with(b"! ") {
        take_ack_line(progress, line)
    } else if line.starts_with(b"copy ") {
        take_copy_line(progress, script, line)
    } else if line.starts_with(b"> ") {
        take_packet_line(progress)
    } else {
        take_other_line(progress, script, line)
    }
}
