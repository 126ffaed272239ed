//! Sets of nodes and steps as a script has them.
ghost use Rattle.std.specs.Prelude.{◌≡◌, ◌++◌, map, decimal, OnOk};
ghost use Rattle.zeus_model.specs.ReportText.{step_text};
ghost use Rattle.zeus_model.specs.Spelling.{spaced};

use crate::words::{append, write_counted, write_number};
use zeus_base::{NoMemory, NodeSet, Step};

/// Writes the numbers of the nodes, each behind a space.
///
/// # Errors
///
/// Memory ran out.
#[tactic(auto, unfolding(zeus_model::specs::Spelling::spaced))]
pub fn write_members(out: &mut Vec<u8>, set: NodeSet) -> Result<(), NoMemory>
    ensures { OnOk result (out.new.items ≡ out.old.items ++ spaced (map decimal set)) }
{
    for node in set {
        write_number(out, u64::from(node.0))?;
    }
    Ok(())
}

/// Writes the step.
///
/// # Errors
///
/// Memory ran out.
#[tactic(auto, unfolding(zeus_model::specs::Spelling::words_text, zeus_model::specs::Spelling::step_words, zeus_model::specs::Spelling::spaced))]
pub fn write_step(out: &mut Vec<u8>, step: &Step) -> Result<(), NoMemory>
    ensures { OnOk result (out.new.items ≡ out.old.items ++ step_text step.now) }
{
    match step {
        Step::Begin(id) => write_counted(out, b"begin", u64::from(id.0)),
        Step::Try(node, slot) => {
            write_counted(out, b"try", u64::from(node.0))?;
            write_number(out, u64::from(slot.0))
        }
        Step::Deliver(sender, receiver, n) => {
            write_counted(out, b"deliver", u64::from(sender.0))?;
            write_number(out, u64::from(receiver.0))?;
            write_number(out, u64::from(*n))
        }
        Step::Tick(node) => write_counted(out, b"tick", u64::from(node.0)),
        Step::Stop(node) => write_counted(out, b"stop", u64::from(node.0)),
        Step::View(members) => {
            append(out, b"view")?;
            write_members(out, *members)
        }
        Step::Install(node, epoch) => {
            write_counted(out, b"install", u64::from(node.0))?;
            write_number(out, u64::from(*epoch))
        }
    }
}
