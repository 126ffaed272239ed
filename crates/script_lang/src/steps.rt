//! Steps as lines.
ghost use Rattle.std.specs.Prelude.{◌≡◌, ◌≤◌};
ghost use Rattle.script_lang.specs.Steps.{step_at};

use crate::head::Head;
use crate::keywords::StepWord;
use crate::parts::Parts;
use crate::words::NodeRule;
use zeus_base::{Step, TxId};
use zeus_model::Kind;

/// The step of its word and the numbers behind it.
#[tactic(auto, unfolding(crate::specs::Steps::step_at))]
pub(crate) fn step_of(
    words: &mut Parts,
    word: StepWord,
    head: &Head,
    txs: u32,
) -> Result<Step, Kind>
    requires nodes { head.now.nodes ≤ 8 }
    requires slots { head.now.slots ≤ 8 }
    ensures { result ≡ step_at head.now.nodes head.now.slots txs word words.old }
{
    let step = match word {
        StepWord::Begin => Step::Begin(TxId(words.number_in(0, txs as u64)? as u32)),
        StepWord::Try => Step::Try(words.node(head.nodes)?, words.slot(head.slots)?),
        StepWord::Deliver => {
            let sender = words.node(head.nodes)?;
            let receiver = words.node(head.nodes)?;
            let packet = words.number_in(0, 1 << 32)? as u32;
            Step::Deliver(sender, receiver, packet)
        }
        StepWord::Tick => Step::Tick(words.node(head.nodes)?),
        StepWord::Stop => Step::Stop(words.node(head.nodes)?),
        StepWord::View => {
            let rule = NodeRule {
                nodes: head.nodes,
                most: None,
                owner: None,
            };
            return Ok(Step::View(words.nodes(&rule)?));
        }
        StepWord::Install => {
            let node = words.node(head.nodes)?;
            Step::Install(node, words.number_in(1, 1 << 32)? as u32)
        }
    };
    words.end()?;
    Ok(step)
}
