//! The run of a storm.
ghost use Rattle.std.specs.Prelude.{◌≡◌, ◌≤◌, ℕ, IfOk, length, take};
ghost use Rattle.soundness.specs.Promise.{KeepsPromise};
ghost use Rattle.storm.specs.Numbers.{AreInRange};
ghost use Rattle.storm.specs.Storm.{storm_end, storm_start, storm_steps};

use crate::end::{StormEnd, end_of};
use crate::numbers::StormNumbers;
use crate::script::storm_script;
use random_schedule::{Words, schedule_run};
use std::alloc::Global;
use zeus_base::NoMemory;

/// Runs a storm: draws its transactions and then its schedule from one row of words, and tells how its world stands at the
/// end. The run keeps the whole promise of the theorem after each of its steps.
///
/// # Errors
/// `NoMemory` if memory ran out.
pub fn storm_run(alloc: Global, numbers: &StormNumbers) -> Result<StormEnd, NoMemory>
    requires { AreInRange numbers.now }
    ensures end { IfOk result (λ end. end ≡ storm_end numbers.now) }
    ensures promise { IfOk result (λ end. (k : ℕ) → KeepsPromise (storm_start numbers.now) (take k (storm_steps numbers.now))) }
{
    let mut words = Words::new(numbers.start);
    let script = storm_script(alloc, numbers, &mut words)?;
    let (steps, world) = schedule_run(
        alloc,
        &script,
        numbers.steps,
        numbers.loss,
        numbers.stops,
        &mut words,
    )?;
    end_of(numbers, &world, steps.len() as u32)
}
