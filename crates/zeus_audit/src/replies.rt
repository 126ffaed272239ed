//! Points: the reply of a transaction, behind those before it.
ghost use Rattle.std.specs.Prelude.{◌-◌, ◌^◌, ◌<◌, ℕ, All, length};
ghost use Rattle.zeus_model.specs.Scripts.{FitsScript};
ghost use Rattle.zeus_txn.specs.Map.{content};
ghost use Rattle.zeus_txn.specs.Ops.{named};
ghost use Rattle.zeus_audit.specs.Auditing.{Takes};
ghost use Rattle.zeus_audit.specs.Fitting.{Fits};
ghost use Rattle.zeus_audit.specs.Progress.{state_of};
ghost use Rattle.zeus_audit.specs.Rules.{replied, point_taken};

use crate::expected::is_point;
use crate::failure::Failure;
use crate::progress::Progress;
use crate::shapes::point_shape;
use crate::stage::Mark;
use crate::verdict::Rule;
use script_lang::Parts;
use zeus_base::TxId;
use zeus_model::Script;
use zeus_txn::Tx;

/// Takes the reply of a transaction that has no point.
#[tactic(auto, unfolding(crate::specs::Rules::replied, crate::specs::Rules::kept))]
fn take_reply(progress: &mut Progress, id: TxId, tx: &Tx, line: &[u8]) -> Result<(), Failure>
    requires there { id < length progress.old.marks.items }
    requires objects { All (λ x. x < length progress.old.map) (named tx.now) }
    requires versions { (x : ℕ) → x < length progress.old.map → (content progress.old.map x).ver < 2 ^ 64 - 1 }
    ensures { Takes result progress.new (replied (state_of progress.old) id tx.now line.now) }
{
    let reply = progress.map.apply(tx);
    if !is_point(&mut progress.expected, line, id, &reply)? {
        return Err(Failure::Rule(Rule::Reply));
    }
    progress.marks[id.place()] = Mark::Passed;
    progress.points.push(id)?;
    Ok(())
}

/// Takes `* K REPLY`.
#[tactic(auto, unfolding(crate::specs::Rules::point_taken, crate::specs::Rules::in_form, crate::specs::Rules::if_begun))]
pub(crate) fn take_point(
    progress: &mut Progress,
    script: &Script,
    line: &[u8],
) -> Result<(), Failure>
    requires script { FitsScript script.now }
    requires fits { Fits script.now (state_of progress.old) }
    ensures { Takes result progress.new (point_taken script.now (state_of progress.old) line.now) }
{
    let id = point_shape(&mut Parts::new(line, b' '), script.config.version)?;
    let Mark::Begun = progress.mark_of(id) else {
        return Err(Failure::Rule(Rule::Point));
    };
    match script.txs.get(id as usize) {
        Some(declared) => {
            let number = id as u32;
            take_reply(progress, TxId(number), &declared.tx, line)
        }
        None => Err(Failure::Rule(Rule::Point)),
    }
}
