//! The lines behind the line of a step: points, acknowledgements and packets.
ghost use Rattle.zeus_model.specs.Scripts.{FitsScript};
ghost use Rattle.zeus_audit.specs.Auditing.{Takes};
ghost use Rattle.zeus_audit.specs.Fitting.{Fits};
ghost use Rattle.zeus_audit.specs.Progress.{state_of};
ghost use Rattle.zeus_audit.specs.Rules.{point_line, ack_taken, ack_line, packet_line};

use crate::failure::Failure;
use crate::progress::Progress;
use crate::replies::take_point;
use crate::shapes::ack_shape;
use crate::stage::{Further, Mark, Stage};
use crate::verdict::Rule;
use script_lang::Parts;
use zeus_model::Script;

/// Takes a line that begins with `* `.
#[tactic(auto, unfolding(crate::specs::Rules::point_line))]
pub(crate) fn take_point_line(
    progress: &mut Progress,
    script: &Script,
    line: &[u8],
) -> Result<(), Failure>
    requires script { FitsScript script.now }
    requires fits { Fits script.now (state_of progress.old) }
    ensures { Takes result progress.new (point_line script.now (state_of progress.old) progress.old.stage line.now) }
{
    match progress.stage {
        Stage::Steps(_, Further::Points) => take_point(progress, script, line),
        _ => Err(Failure::Rule(Rule::Form)),
    }
}

/// Takes `! K` behind so many steps.
#[tactic(auto, unfolding(crate::specs::Rules::ack_taken, crate::specs::Rules::in_form, crate::specs::Rules::if_passed))]
fn take_ack(progress: &mut Progress, told: usize, line: &[u8]) -> Result<(), Failure>
    ensures { Takes result progress.new (ack_taken (state_of progress.old) told line.now) }
{
    let id = ack_shape(&mut Parts::new(line, b' '))?;
    let Mark::Passed = progress.mark_of(id) else {
        return Err(Failure::Rule(Rule::Ack));
    };
    progress.marks[id as usize] = Mark::Acked;
    progress.stage = Stage::Steps(told, Further::Acks);
    Ok(())
}

/// Takes a line that begins with `! `.
#[tactic(auto, unfolding(crate::specs::Rules::ack_line))]
pub(crate) fn take_ack_line(progress: &mut Progress, line: &[u8]) -> Result<(), Failure>
    ensures { Takes result progress.new (ack_line (state_of progress.old) progress.old.stage line.now) }
{
    match progress.stage {
        Stage::Steps(told, Further::Points | Further::Acks) => take_ack(progress, told, line),
        _ => Err(Failure::Rule(Rule::Form)),
    }
}

/// Takes a line that begins with `> `.
#[tactic(auto, unfolding(crate::specs::Rules::packet_line))]
pub(crate) fn take_packet_line(progress: &mut Progress) -> Result<(), Failure>
    ensures { Takes result progress.new (packet_line (state_of progress.old) progress.old.stage) }
{
    match progress.stage {
        Stage::Steps(told, Further::Points | Further::Acks | Further::Packets) => {
            progress.stage = Stage::Steps(told, Further::Packets);
            Ok(())
        }
        _ => Err(Failure::Rule(Rule::Form)),
    }
}
