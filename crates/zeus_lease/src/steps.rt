//! Steps as lines.
ghost use Rattle.std.specs.Prelude.{◌≡◌, ◌≤◌, []};
ghost use Rattle.zeus_lease.specs.Reading.{ReadsTicks, TakesStep, step_at, ticks_after};

use crate::keywords::StepWord;
use crate::step::{LeaseStep, Ticks};
use script_lang::{Failure, NodeRule, Parts};
use std::alloc::Global;

/// So many numbers of a pass.
fn ticks_of(words: &mut Parts, alloc: Global, count: u8) -> Result<Ticks, Failure>
    ensures { ReadsTicks result words.new (ticks_after count [] words.old) }
{
    let mut ticks = Vec::new(alloc);
    for _turn in 0..count {
        let tick = words.number_in(0, 1 << 32)?;
        ticks.push(tick)?;
    }
    Ok(Ticks::from_vec(ticks))
}

/// The step of its word and the numbers behind it.
#[tactic(auto, unfolding(crate::specs::Reading::step_at))]
pub(crate) fn step_of(
    words: &mut Parts,
    alloc: Global,
    word: StepWord,
    nodes: u8,
) -> Result<LeaseStep, Failure>
    requires nodes { nodes ≤ 8 }
    ensures { TakesStep result (step_at nodes word words.old) }
{
    let step = match word {
        StepWord::Pass => LeaseStep::Pass(ticks_of(words, alloc, nodes + 1)?),
        StepWord::Ask => LeaseStep::Ask(words.node(nodes)?),
        StepWord::Hear => LeaseStep::Hear(words.number_in(0, 1 << 32)? as u32),
        StepWord::Take => LeaseStep::Take(words.number_in(0, 1 << 32)? as u32),
        StepWord::Act => LeaseStep::Act(words.node(nodes)?),
        StepWord::View => {
            let rule = NodeRule {
                nodes,
                most: None,
                owner: None,
            };
            return Ok(LeaseStep::View(words.nodes(&rule)?));
        }
    };
    words.end()?;
    Ok(step)
}
