//! The first line, the lines of the steps, the history, and the states of the transactions.
ghost use Rattle.std.specs.Prelude.{◌≡◌, ◌<◌, ◌-◌, ◌^◌, slice_get, length};
ghost use Rattle.zeus_model.specs.Scripts.{FitsScript};
ghost use Rattle.zeus_audit.specs.Auditing.{Takes};
ghost use Rattle.zeus_audit.specs.Fitting.{Fits, BeginsBelow};
ghost use Rattle.zeus_audit.specs.Progress.{state_of};
ghost use Rattle.zeus_audit.specs.Rules.{head_taken, begun_marks, answered_marks, answered, step_line, history_taken, fits_mark, state_taken};
ghost use Rattle.zeus_audit.specs.Texts.{behind, step_head};

use crate::expected::{answer_of, is_head, is_history};
use crate::failure::Failure;
use crate::progress::Progress;
use crate::shapes::{history_shape, state_shape};
use crate::stage::{Further, Mark, Stage};
use crate::verdict::Rule;
use script_lang::Parts;
use zeus_base::{Step, TxId};
use zeus_model::{Script, TxState};

/// Takes the first line.
#[tactic(auto, unfolding(crate::specs::Rules::head_taken, crate::specs::Rules::kept))]
pub(crate) fn take_head(
    progress: &mut Progress,
    script: &Script,
    line: &[u8],
) -> Result<(), Failure>
    ensures { Takes result progress.new (head_taken script.now (state_of progress.old) line.now) }
{
    if !is_head(&mut progress.expected, line, script.config.version)? {
        return Err(Failure::Rule(Rule::Form));
    }
    progress.stage = Stage::Steps(0, Further::Nothing);
    Ok(())
}

/// Begins a transaction that was not begun.
#[tactic(auto, unfolding(crate::specs::Rules::begun_marks, crate::specs::Rules::if_new))]
fn begin(marks: &mut Vec<Mark>, id: TxId)
    requires { id < length marks.old.items }
    ensures { marks.new.items ≡ begun_marks marks.old.items id }
{
    if let Mark::New = marks[id.place()] {
        marks[id.place()] = Mark::Begun;
    }
}

/// Notes the answer to a step.
#[tactic(auto, unfolding(crate::specs::Rules::answered_marks))]
fn note_answer(marks: &mut Vec<Mark>, step: &Step, answer: &[u8])
    requires { BeginsBelow (length marks.old.items) step.now }
    ensures { marks.new.items ≡ answered_marks marks.old.items step.now answer.now }
{
    if let Step::Begin(id) = step {
        if answer == b"begun".as_slice() {
            begin(marks, *id);
        }
    }
}

/// Takes `I STEP = ANSWER` of the step behind so many.
#[tactic(auto, unfolding(crate::specs::Rules::answered))]
fn take_answer(
    progress: &mut Progress,
    told: usize,
    step: &Step,
    line: &[u8],
) -> Result<(), Failure>
    requires step { BeginsBelow (length progress.old.marks.items) step.now }
    requires count { told < 2 ^ 64 - 1 }
    ensures { Takes result progress.new (answered (state_of progress.old) told step.now (behind (step_head told step.now) line.now)) }
{
    match answer_of(&mut progress.expected, line, told as u64, step)? {
        Some(answer) if !answer.is_empty() => {
            note_answer(&mut progress.marks, step, answer);
            progress.stage = Stage::Steps(told + 1, Further::Points);
            Ok(())
        }
        _ => Err(Failure::Rule(Rule::Form)),
    }
}

/// Takes `history` and the points.
#[tactic(auto, unfolding(crate::specs::Rules::history_taken, crate::specs::Rules::in_form, crate::specs::Rules::kept))]
fn take_history(progress: &mut Progress, line: &[u8]) -> Result<(), Failure>
    ensures { Takes result progress.new (history_taken (state_of progress.old) line.now) }
{
    history_shape(&mut Parts::new(line, b' '))?;
    if !is_history(&mut progress.expected, line, &progress.points)? {
        return Err(Failure::Rule(Rule::History));
    }
    progress.stage = Stage::States(0);
    Ok(())
}

/// Takes the line of the step behind so many, or behind the last one the history.
#[tactic(auto, unfolding(crate::specs::Rules::step_line))]
pub(crate) fn take_step(
    progress: &mut Progress,
    script: &Script,
    told: usize,
    line: &[u8],
) -> Result<(), Failure>
    requires script { FitsScript script.now }
    requires fits { Fits script.now (state_of progress.old) }
    ensures { Takes result progress.new (step_line (state_of progress.old) told (slice_get script.now.steps told) line.now) }
{
    let count = script.steps.len();
    match script.steps.get(told) {
        Some(step) => {
            prove!(told < count);
            take_answer(progress, told, step, line)
        }
        None => take_history(progress, line),
    }
}

/// Whether a state fits how far the transaction has come.
#[tactic(auto, unfolding(crate::specs::Rules::fits_mark))]
fn fits_mark(mark: Mark, state: TxState) -> bool
    ensures { result ≡ fits_mark mark state }
{
    match mark {
        Mark::New => matches!(state, TxState::New),
        Mark::Begun => matches!(
            state,
            TxState::Current | TxState::Pending | TxState::Refused
        ),
        Mark::Passed => matches!(state, TxState::Passed),
        Mark::Acked => matches!(state, TxState::Acked),
    }
}

/// Takes `tx K STATE` of the transaction of this number.
#[tactic(auto, unfolding(crate::specs::Rules::state_taken, crate::specs::Rules::in_form, crate::specs::Rules::kept))]
pub(crate) fn take_state(progress: &mut Progress, id: usize, line: &[u8]) -> Result<(), Failure>
    requires { id < 2 ^ 64 - 1 }
    ensures { Takes result progress.new (state_taken (state_of progress.old) id line.now) }
{
    let state = state_shape(&mut Parts::new(line, b' '), id as u64)?;
    if !fits_mark(progress.mark_of(id as u64), state) {
        return Err(Failure::Rule(Rule::State));
    }
    progress.stage = Stage::States(id + 1);
    Ok(())
}
