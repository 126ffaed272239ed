//! What a reader asks of the book: how far a transaction has come, its reply, and the history.
ghost use Rattle.std.specs.Prelude.{◌≡◌, ◌<◌, ◌≤◌, ◌^◌, Some, is_some, length, option_copied, slice_get, MatchOption, IfSome};
ghost use Rattle.zeus_model.specs.Book.{record_of, tx_of};
ghost use Rattle.zeus_model.specs.Readers.{state_of};
ghost use Rattle.history_book.specs.Books.{IsReplied};

use crate::book::Book;
use crate::record::Record;
use zeus_base::{Stream, TxId};
use zeus_model::TxState;
use zeus_txn::Reply;

impl Book {
    /// How many steps were taken.
    pub fn steps(&self) -> u64
        ensures { result ≡ self.now.book.steps }
    {
        self.steps
    }

    /// How many transactions there are.
    pub fn txs(&self) -> u32
        ensures { result ≡ length self.now.book.records }
    {
        self.records.len() as u32
    }

    /// The record of the transaction, if there is one.
    pub(crate) fn record(&self, id: TxId) -> Option<&Record>
        ensures { option_copied result ≡ slice_get self.now.book.records id }
    {
        self.records.get(id.place())
    }

    /// Whether the transaction was begun.
    pub fn is_begun(&self, id: TxId) -> bool
        ensures { result ≡ is_some (record_of self.now.book id).begun }
    {
        match self.record(id) {
            None => false,
            Some(record) => record.is_begun(),
        }
    }

    /// Whether the transaction is acknowledged.
    pub fn is_acked(&self, id: TxId) -> bool
        ensures { result ≡ is_some (record_of self.now.book id).acked }
    {
        match self.record(id) {
            None => false,
            Some(record) => record.is_acked(),
        }
    }

    /// Whether the transaction is refused.
    pub fn is_refused(&self, id: TxId) -> bool
        ensures { result ≡ (record_of self.now.book id).refused }
    {
        match self.record(id) {
            None => false,
            Some(record) => record.is_refused(),
        }
    }

    /// What the transaction replied, if it did.
    pub fn reply(&self, id: TxId) -> Option<&Reply>
        ensures { option_copied result ≡ (record_of self.now.book id).reply }
    {
        match self.record(id) {
            None => None,
            Some(record) => record.reply(),
        }
    }

    /// How far the transaction has come.
    pub fn state(&self, id: TxId) -> TxState
        ensures { result ≡ state_of (record_of self.now.book id) }
    {
        match self.record(id) {
            None => TxState::New,
            Some(record) => record.state(),
        }
    }

    /// The transaction of an entry: the one that was committed with this stream and number, if there is one.
    pub fn at(&self, stream: Stream, number: u32) -> Option<TxId>
        ensures tx { result ≡ tx_of self.now.book stream number }
        ensures replied { IfSome result (IsReplied self.now.book) }
    {
        self.entries.get(&stream, number)
    }

    /// How many points the history has.
    pub fn len(&self) -> u32
        ensures { result ≡ length self.now.book.points }
    {
        self.points.len() as u32
    }

    /// The point of the history at this place from 0, if there is one: its transaction and the reply.
    pub fn point(&self, place: u32) -> Option<(TxId, &Reply)>
        ensures { MatchOption result (length self.now.book.points ≤ place)
            (λ p. slice_get self.now.book.points place ≡ Some record { id = p.0; reply = p.1.now }) }
    {
        let Some(id) = self.points.get(place) else {
            return None;
        };
        match self.reply(id) {
            None => None,
            Some(reply) => Some((id, reply)),
        }
    }
}
