//! What the lines of a report so far tell.
ghost use Rattle.std.specs.Prelude.{◌≡◌, IfOk};
ghost use Rattle.zeus_audit.specs.declared.stage.Mark.TheVariants as marks;

use crate::stage::{Mark, Stage};
use std::alloc::Global;
use zeus_base::{NoMemory, TxId};
use zeus_model::Script;
use zeus_txn::Map;

/// What the lines so far tell, and room for the text of a line.
#[derive(Drop)]
pub(crate) struct Progress {
    pub stage: Stage,
    /// For each transaction, how far it has come.
    pub marks: Vec<Mark>,
    /// The transactions that have a point, in order.
    pub points: Vec<TxId>,
    /// What they leave when they run one after another.
    pub map: Map,
    /// What a line is compared with.
    pub expected: Vec<u8>,
}

impl Progress {
    ghost use Rattle.zeus_audit.specs.Progress.{state_of, start, mark_of};

    /// Before the first line.
    #[tactic(auto, unfolding(crate::specs::Progress::start))]
    pub(crate) fn new(alloc: Global, script: &Script) -> Result<Self, NoMemory>
        ensures { IfOk result (λ p. state_of p ≡ start script.now) }
    {
        Ok(Progress {
            stage: Stage::Head,
            marks: vec![in alloc; Mark::New; script.txs.len()].map_err(|_| NoMemory)?,
            points: Vec::new(alloc),
            map: Map::new(alloc, &script.config)?,
            expected: Vec::new(alloc),
        })
    }

    /// How far the transaction of this number has come; one that the script has not was never begun.
    pub(crate) fn mark_of(&self, id: u64) -> Mark
        ensures { result ≡ mark_of (state_of self.now) id }
    {
        match self.marks.get(id as usize) {
            Some(mark) => *mark,
            None => Mark::New,
        }
    }
}
