//! The steps that send nothing and let nothing pass: begins, stops and views.
ghost use Rattle.std.specs.Prelude.{ℕ, ◌≡◌, ◌<◌, ◌+◌, ◌^◌, IfOk, OnErr, length, if◌then◌else◌};
ghost use Rattle.zeus_base.specs.Nodes.{has, with_node};
ghost use Rattle.zeus_base.specs.declared.step.Step.TheVariants.{Begin as BeginStep, Stop as StopStep, View as ViewStep};
ghost use Rattle.zeus_model.specs.Book.{counted};
ghost use Rattle.zeus_model.specs.Scripts.{FitsStep};
ghost use Rattle.zeus_model.specs.World.{begin_refused, happens, node, tx_decl, waits_for};
ghost use Rattle.history_book.specs.Books.{with_book};
ghost use Rattle.zeus_world.specs.Reports.{TellsSame};
ghost use Rattle.zeus_world.specs.Taken.{IsAlone, IsTaken};

use crate::event::StepEvent;
use crate::world::World;
use history_book::Book;
use zeus_base::{NoMemory, NodeId, NodeSet, TxId};
use zeus_model::{Answer, Begin};
use zeus_txn::TxDecl;

/// The step is over: there is this answer, and nothing else to tell.
pub(crate) fn answer_alone(book: &mut Book, answer: Answer, event: &mut StepEvent)
    requires { book.old.book.steps + 1 < 2 ^ 64 }
    ensures book { book.new ≡ with_book book.old (counted book.old.book) }
    ensures event { IsAlone answer event.new }
{
    event.clear();
    event.answer = answer;
    book.count();
}

impl<'a> World<'a> {
    /// How a transaction is declared.
    pub fn declared(&self, id: TxId) -> &TxDecl
        requires { id < length self.now.txs }
        ensures { result.now ≡ tx_decl self.now id }
    {
        &self.txs.as_slice()[id.place()]
    }

    /// The answer if a transaction waits for one that is not acknowledged.
    #[tactic(auto, unfolding(zeus_model::specs::World::waits_for, zeus_model::specs::Tables::where_true))]
    fn waits_for(&self, after: Option<TxId>) -> Option<Answer>
        ensures { result ≡ waits_for self.now after }
    {
        match after {
            Some(other) if !self.book.is_acked(other) => Some(Answer::Waits(other)),
            _ => None,
        }
    }

    /// The answer to a begin that does not come to a node: the transaction was begun before, its node has stopped, or it
    /// waits.
    fn begin_refused(&self, id: TxId) -> Option<Answer>
        requires { id < length self.now.txs }
        ensures { result ≡ begin_refused self.now id }
    {
        if self.book.is_begun(id) {
            return Some(Answer::Twice);
        }
        let tx = self.declared(id);
        if !self.is_live(tx.node) {
            return Some(Answer::Begin(Begin::Stopped));
        }
        self.waits_for(tx.after)
    }

    /// A transaction is to begin: it goes to its slot.
    pub(crate) fn begin(&mut self, id: TxId, event: &mut StepEvent)
        requires there { id < length self.old.txs }
        requires counted { self.old.book.steps + 1 < 2 ^ 64 }
        ensures { IsTaken event.new self.new (happens self.old (BeginStep id)) }
    {
        if let Some(answer) = self.begin_refused(id) {
            answer_alone(&mut self.book, answer, event);
            return;
        }
        let tx = &self.txs.as_slice()[id.place()];
        let node = &mut self.nodes[tx.node.place()];
        let begun = node.begin(tx.slot, id, &tx.tx);
        self.book.note_begun(id, &begun);
        answer_alone(&mut self.book, Answer::Begin(begun), event);
    }

    /// A node stops.
    pub(crate) fn stop(&mut self, at: NodeId, event: &mut StepEvent)
        requires node { at < self.old.config.nodes }
        requires counted { self.old.book.steps + 1 < 2 ^ 64 }
        ensures { IsTaken event.new self.new (happens self.old (StopStep at)) }
    {
        let node = &mut self.nodes[at.place()];
        let stopped = node.stop();
        answer_alone(&mut self.book, Answer::Stop(stopped), event);
    }

    /// The set with the node, if it has stopped.
    fn with_stopped(&self, set: NodeSet, at: NodeId) -> NodeSet
        ensures { result ≡ (if (node self.now at).stopped then with_node at set else set) }
    {
        if self.is_live(at) {
            set
        } else {
            set.insert(at)
        }
    }

    /// The nodes that have stopped.
    fn stopped(&self) -> NodeSet
        ensures { (n : ℕ) → n < self.now.config.nodes → has n result ≡ (node self.now n).stopped }
    {
        let mut stopped = NodeSet::empty();
        for number in 0..self.config.nodes {
            stopped = self.with_stopped(stopped, NodeId(number));
        }
        stopped
    }

    /// A view of these members is to be made.
    ///
    /// # Errors
    /// `NoMemory` if the view would be made and there is no memory for it, or if no more views can be counted; nothing
    /// has changed then.
    pub(crate) fn view(&mut self, members: NodeSet, event: &mut StepEvent) -> Result<(), NoMemory>
        requires fits { FitsStep self.old.config (length self.old.txs) (ViewStep members) }
        requires counted { self.old.book.steps + 1 < 2 ^ 64 }
        ensures ok { IfOk result (λ _. IsTaken event.new self.new (happens self.old (ViewStep members))) }
        ensures err { OnErr result (self.new ≡ self.old) }
        ensures same { OnErr result (TellsSame event.old event.new) }
    {
        if self.views.count() == u32::MAX {
            return Err(NoMemory);
        }
        let stopped = self.stopped();
        let made = self.views.view(members, stopped)?;
        answer_alone(&mut self.book, Answer::View(made), event);
        Ok(())
    }
}
