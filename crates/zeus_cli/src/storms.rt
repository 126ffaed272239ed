//! The answer to `storm`.
ghost use Rattle.std.specs.Prelude.{IfOk};
ghost use Rattle.storm.specs.Numbers.{AreInRange};
ghost use Rattle.zeus_cli.specs.Storms.{IsStormAnswer};

use crate::answer::Answer;
use std::alloc::Global;
use storm::{StormNumbers, storm_run, summary};
use zeus_base::NoMemory;
use zeus_io::Status;

/// The summary of the storm.
#[tactic(auto, unfolding(crate::specs::Storms::storm_status))]
pub(crate) fn run_storm(alloc: Global, numbers: &StormNumbers) -> Result<Answer, NoMemory>
    requires { AreInRange numbers.now }
    ensures { IfOk result (λ a. IsStormAnswer numbers.now a.status a.text.items) }
{
    let end = storm_run(alloc, numbers)?;
    let text = summary(alloc, &end)?;
    let status = if end.unfinished == 0 {
        Status::Done
    } else {
        Status::Unfinished
    };
    Ok(Answer { status, text })
}
