//! The text that is printed for a script of leases.
ghost use Rattle.std.specs.Prelude.{◌≡◌, ◌≤◌, ◌<◌, ◌+◌, ◌++◌, All, IfOk, OnOk, decimal, length, map};
ghost use Rattle.zeus_model.specs.ReportWords.{made_text};
ghost use Rattle.zeus_model.specs.Spelling.{spaced};
ghost use Rattle.zeus_lease.specs.Machine.{happens, stepped};
ghost use Rattle.zeus_lease.specs.Scripts.{FitsScript, FitsStep};
ghost use Rattle.zeus_lease.specs.Text.{answer_line, answer_lines, answer_text, lease_text, step_text};

use crate::answer::LeaseAnswer;
use crate::leases::Leases;
use crate::script::LeaseScript;
use crate::step::LeaseStep;
use std::alloc::Global;
use zeus_base::NoMemory;
use zeus_model::Made;
use zeus_text::{
    append, write_counted, write_decimal, write_line_end, write_members, write_number,
};

#[tactic(auto, unfolding(zeus_model::specs::Spelling::spaced))]
fn write_ticks(out: &mut Vec<u8>, ticks: &[u64]) -> Result<(), NoMemory>
    ensures { OnOk result (out.new.items ≡ out.old.items ++ spaced (map decimal ticks.now)) }
{
    for tick in ticks {
        write_number(out, *tick)?;
    }
    Ok(())
}

#[tactic(auto, unfolding(zeus_model::specs::Spelling::words_text, crate::specs::Scripts::step_words, zeus_model::specs::Spelling::spaced))]
fn write_step(out: &mut Vec<u8>, step: &LeaseStep) -> Result<(), NoMemory>
    ensures { OnOk result (out.new.items ≡ out.old.items ++ step_text step.now) }
{
    match step {
        LeaseStep::Pass(ticks) => {
            append(out, b"pass")?;
            write_ticks(out, ticks.as_slice())
        }
        LeaseStep::Ask(node) => write_counted(out, b"ask", u64::from(node.0)),
        LeaseStep::Hear(number) => write_counted(out, b"hear", u64::from(*number)),
        LeaseStep::Take(number) => write_counted(out, b"take", u64::from(*number)),
        LeaseStep::Act(node) => write_counted(out, b"act", u64::from(node.0)),
        LeaseStep::View(members) => {
            append(out, b"view")?;
            write_members(out, *members)
        }
    }
}

// The answer to a view.
#[tactic(auto, unfolding(zeus_model::specs::ReportWords::made_text))]
fn write_made(out: &mut Vec<u8>, made: Made) -> Result<(), NoMemory>
    ensures { OnOk result (out.new.items ≡ out.old.items ++ made_text made) }
{
    match made {
        Made::Installed(epoch) => write_counted(out, b"installed", u64::from(epoch)),
        Made::Empty => append(out, b"empty"),
        Made::NotMember(node) => write_counted(out, b"not member", u64::from(node.0)),
        Made::NotStopped(node) => write_counted(out, b"not stopped", u64::from(node.0)),
    }
}

#[tactic(auto, unfolding(crate::specs::Text::answer_text))]
fn write_answer(out: &mut Vec<u8>, answer: LeaseAnswer) -> Result<(), NoMemory>
    ensures { OnOk result (out.new.items ≡ out.old.items ++ answer_text answer) }
{
    match answer {
        LeaseAnswer::Passed => append(out, b"passed"),
        LeaseAnswer::Skewed(fast, slow) => {
            write_counted(out, b"skewed", u64::from(fast))?;
            write_number(out, u64::from(slow))
        }
        LeaseAnswer::Asked(number) => write_counted(out, b"asked", u64::from(number)),
        LeaseAnswer::Ended => append(out, b"ended"),
        LeaseAnswer::NoAsk(count) => write_counted(out, b"no ask", u64::from(count)),
        LeaseAnswer::Dropped => append(out, b"dropped"),
        LeaseAnswer::Granted(number) => write_counted(out, b"granted", u64::from(number)),
        LeaseAnswer::NoGrant(count) => write_counted(out, b"no grant", u64::from(count)),
        LeaseAnswer::Held(end) => write_counted(out, b"held", end),
        LeaseAnswer::NoLease => append(out, b"no lease"),
        LeaseAnswer::Acted => append(out, b"acted"),
        LeaseAnswer::View(made) => write_made(out, made),
    }
}

/// Writes the line of a step with its answer.
fn write_line(
    out: &mut Vec<u8>,
    number: u64,
    step: &LeaseStep,
    answer: LeaseAnswer,
) -> Result<(), NoMemory>
    ensures { OnOk result (out.new.items ≡ out.old.items ++ answer_line number step.now answer) }
{
    write_decimal(out, number)?;
    append(out, b" ")?;
    write_step(out, step)?;
    append(out, b" = ")?;
    write_answer(out, answer)?;
    write_line_end(out)
}

/// Takes the step, and writes its line.
fn take_step(
    out: &mut Vec<u8>,
    leases: &mut Leases,
    number: u64,
    step: &LeaseStep,
) -> Result<(), NoMemory>
    requires few { leases.old.steps < 50000 }
    requires fits { FitsStep (length leases.old.nodes) step.now }
    ensures text { OnOk result (out.new.items ≡ out.old.items ++ answer_line number step.now (happens leases.old step.now).answer) }
    ensures after { OnOk result (leases.new ≡ stepped leases.old step.now) }
    ensures nodes { OnOk result (length leases.new.nodes ≡ length leases.old.nodes) }
{
    match leases.step(step) {
        Ok(answer) => write_line(out, number, step, answer),
        Err(error) => Err(error),
    }
}

/// Takes the steps, and writes a line for each.
fn write_lines(out: &mut Vec<u8>, leases: &mut Leases, steps: &[LeaseStep]) -> Result<(), NoMemory>
    requires few { leases.old.steps + length steps.now ≤ 50000 }
    requires fits { All (FitsStep (length leases.old.nodes)) steps.now }
    ensures { OnOk result (out.new.items ≡ out.old.items ++ answer_lines leases.old 0 steps.now) }
{
    for (number, step) in steps.iter().enumerate() {
        take_step(out, leases, number as u64, step)?;
    }
    Ok(())
}

/// The text of a script's answers: `lease 1`, for each step its number, the step and its answer, and `end`.
///
/// # Errors
/// `NoMemory` if the memory for the text, or for a step, is not there.
#[tactic(auto, unfolding(crate::specs::Text::lease_text))]
pub fn lease_text(alloc: Global, script: &LeaseScript) -> Result<Vec<u8>, NoMemory>
    requires { FitsScript script.now }
    ensures { IfOk result (λ text. text.items ≡ lease_text script.now) }
{
    let mut out = Vec::new(alloc);
    let mut leases = Leases::new(alloc, script.nodes, script.length, script.percent)?;
    append(&mut out, b"lease 1\n")?;
    write_lines(&mut out, &mut leases, script.steps.as_slice())?;
    append(&mut out, b"end\n")?;
    Ok(out)
}
