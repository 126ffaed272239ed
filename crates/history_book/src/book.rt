//! The book: what it keeps, and what each call writes into it.
ghost use Rattle.std.specs.Prelude.{◌≡◌, ◌<◌, ◌+◌, ◌^◌, [], IfOk, None, is_some, length, replicate, true};
ghost use Rattle.zeus_model.specs.Book.{book_ack, book_begin, book_commit, book_point, book_read, book_refuse, book_reply, counted, no_record, record_of};
ghost use Rattle.zeus_model.specs.Readers.{state_of};
ghost use Rattle.zeus_model.specs.declared.answer.TxState.TheVariants.{Current};
ghost use Rattle.history_book.specs.Books.{IsNext, with_book};
ghost use Rattle.history_book.specs.Entries.{IsStream};

use crate::entries::Entries;
use crate::record::Record;
use crate::tx_ids::TxIds;
use std::alloc::Global;
use std::marker::Model;
use zeus_base::{Config, NoMemory, Stream, TxId};
use zeus_txn::Reply;

/// The book of a run, seen as the book of the machine and the numbers of nodes and of slots. The reply of a transaction
/// stands once, in its record: the history's points have it from there.
#[derive(Debug, Drop)]
pub struct Book {
    pub(crate) steps: u64,
    pub(crate) points: TxIds,
    pub(crate) records: Vec<Record>,
    nodes: u8,
    slots: u8,
    pub(crate) entries: Entries,
}

impl Model for Book {
    ghost use Rattle.history_book.specs.Books.{BookState, IsKept, points_of};

    ghost Value = { BookState };

    ghost view = { λ b. record {
      book = record { steps = b.steps; points = points_of b.records.items b.points.ids; records = b.records.items };
      nodes = b.nodes;
      slots = b.slots;
    } };

    ghost invariant = { λ b. IsKept b.records.items b.points b.nodes b.slots b.entries };
}

impl Book {
    /// The book of so many transactions of a configuration, of which nothing is known yet. All memory is taken here.
    ///
    /// # Errors
    /// `NoMemory` if the memory is not there.
    pub fn new(alloc: Global, config: &Config, txs: u32) -> Result<Book, NoMemory>
        ensures { IfOk result (λ b. b ≡ record {
          book = record { steps = 0; points = []; records = replicate txs no_record };
          nodes = config.now.nodes;
          slots = config.now.slots;
        }) }
    {
        let count = txs as usize;
        let mut records = Vec::with_capacity(alloc, count).map_err(|_| NoMemory)?;
        for _id in 0..count {
            records.push_reserved(Record::new());
        }
        Ok(Book {
            steps: 0,
            points: TxIds::with_room(alloc, count)?,
            records,
            nodes: config.nodes,
            slots: config.slots,
            entries: Entries::new(alloc, config.nodes, config.slots, count)?,
        })
    }

    /// The step is over.
    pub fn count(&mut self)
        requires { self.old.book.steps + 1 < 2 ^ 64 }
        ensures { self.new ≡ with_book self.old (counted self.old.book) }
    {
        self.steps += 1;
    }

    /// The transaction is begun at this step.
    pub fn begin(&mut self, id: TxId)
        requires { id < length self.old.book.records }
        ensures { self.new ≡ with_book self.old (book_begin self.old.book id) }
    {
        let step = self.steps;
        let record = &mut self.records[id.place()];
        record.begin(step);
    }

    /// The current transaction is committed as the next entry of the stream, with this reply.
    pub fn commit(&mut self, id: TxId, stream: Stream, number: u32, reply: Reply)
        requires there { id < length self.old.book.records }
        requires current { state_of (record_of self.old.book id) ≡ Current }
        requires stream { IsStream self.old.nodes self.old.slots stream }
        requires next { IsNext self.old.book stream number }
        ensures { self.new ≡ with_book self.old (book_commit self.old.book stream id number reply) }
    {
        let record = &mut self.records[id.place()];
        record.commit(&stream, number, reply);
        self.entries.push(&stream, id);
    }

    /// The transaction, which has no point yet, replies this.
    fn set_reply(&mut self, id: TxId, reply: Reply)
        requires there { id < length self.old.book.records }
        requires first { (record_of self.old.book id).point ≡ None }
        ensures { self.new ≡ with_book self.old (book_reply self.old.book id reply) }
    {
        let record = &mut self.records[id.place()];
        record.set_reply(reply);
    }

    /// The transaction, which has a reply and no point yet, has its point at this step, behind those of the history.
    pub(crate) fn add_point(&mut self, id: TxId)
        requires there { id < length self.old.book.records }
        requires replied { is_some (record_of self.old.book id).reply ≡ true }
        requires first { (record_of self.old.book id).point ≡ None }
        ensures { self.new ≡ with_book self.old (book_point self.old.book id) }
    {
        let step = self.steps;
        let record = &mut self.records[id.place()];
        record.set_point(step);
        self.points.push(id);
    }

    /// The current transaction was read with this reply: it has its point and its acknowledgement at this step.
    pub fn read(&mut self, id: TxId, reply: Reply)
        requires there { id < length self.old.book.records }
        requires current { state_of (record_of self.old.book id) ≡ Current }
        ensures { self.new ≡ with_book self.old (book_read self.old.book id reply).book }
    {
        self.set_reply(id, reply);
        self.add_point(id);
        self.ack(id);
    }

    /// The transaction is acknowledged at this step.
    pub fn ack(&mut self, id: TxId)
        requires { id < length self.old.book.records }
        ensures { self.new ≡ with_book self.old (book_ack self.old.book id) }
    {
        let step = self.steps;
        let record = &mut self.records[id.place()];
        record.ack(step);
    }

    /// The transaction is refused.
    pub fn refuse(&mut self, id: TxId)
        requires { id < length self.old.book.records }
        ensures { self.new ≡ with_book self.old (book_refuse self.old.book id) }
    {
        let record = &mut self.records[id.place()];
        record.refuse();
    }
}
