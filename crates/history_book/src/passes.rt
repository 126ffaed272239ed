//! The passes of a step: each first pass of an entry is its transaction's point, and its own node's acknowledges it.
ghost use Rattle.std.specs.Prelude.{◌≡◌, ◌==◌, ◌<◌, ◌≤◌, ◌+◌, ◌-◌, Some, false, is_some, length, true};
ghost use Rattle.zeus_model.specs.Book.{ack_once, book_passes, change_then, pass_numbers, pass_tx, point_once, record_of, tx_of};
ghost use Rattle.zeus_model.specs.Tables.{numbers_from};
ghost use Rattle.history_book.specs.Books.{HasLists, IsChange, has_no_ack, has_no_point, how_many, so_far, with_book};
ghost use Rattle.history_book.specs.Ids.{one};

use crate::book::Book;
use crate::tx_ids::TxIds;
use zeus_base::{NodeId, Passed, Stream, TxId};

impl Book {
    /// Whether the transaction has had its point.
    fn has_point(&self, id: TxId) -> bool
        ensures { result ≡ is_some (record_of self.now.book id).point }
    {
        match self.record(id) {
            None => false,
            Some(record) => record.has_point(),
        }
    }

    /// The first pass of the transaction's entry is its point; answers whether this one is the first.
    fn point_once(&mut self, id: TxId) -> bool
        requires there { id < length self.old.book.records }
        requires replied { is_some (record_of self.old.book id).reply ≡ true }
        ensures shape { self.new ≡ with_book self.old self.new.book }
        ensures change { IsChange result false id self.new.book (point_once self.old.book id (record_of self.old.book id).point) }
        ensures points { how_many has_no_point self.new.book.records + one result ≡ how_many has_no_point self.old.book.records }
        ensures acks { how_many has_no_ack self.new.book.records ≡ how_many has_no_ack self.old.book.records }
    {
        if self.has_point(id) {
            return false;
        }
        self.add_point(id);
        true
    }

    /// The first pass at its own node acknowledges the transaction; answers whether this one does.
    fn ack_once(&mut self, id: TxId, own: bool) -> bool
        requires { id < length self.old.book.records }
        ensures shape { self.new ≡ with_book self.old self.new.book }
        ensures change { IsChange false result id self.new.book (ack_once self.old.book id own (record_of self.old.book id).acked) }
        ensures points { how_many has_no_point self.new.book.records ≡ how_many has_no_point self.old.book.records }
        ensures acks { how_many has_no_ack self.new.book.records + one result ≡ how_many has_no_ack self.old.book.records }
    {
        if self.is_acked(id) {
            return false;
        }
        if own {
            self.ack(id);
        }
        own
    }

    /// The entry of this number of the stream has passed, at its own node or at another: its transaction, if there is
    /// one, stands in `points` if this is its point, and in `acked` if it is acknowledged by it.
    fn pass_entry(
        &mut self,
        stream: &Stream,
        number: u32,
        own: bool,
        points: &mut TxIds,
        acked: &mut TxIds,
    )
        requires { HasLists self.old.book points.old acked.old }
        ensures shape { self.new ≡ with_book self.old self.new.book }
        ensures change { so_far self.new points.new acked.new
            ≡ change_then (so_far self.old points.old acked.old) (λ b. pass_tx b own (tx_of b stream.now number)) }
        ensures lists { HasLists self.new.book points.new acked.new }
    {
        if let Some(id) = self.at(*stream, number) {
            let is_point = self.point_once(id);
            points.push_if(is_point, id);
            let is_acked = self.ack_once(id, own);
            acked.push_if(is_acked, id);
        }
    }

    /// Notes that the entries of the stream from `first` on and below `after` have passed: at the stream's own node if
    /// `own`, else at another one.
    ///
    /// A transaction that has its point by this stands then at the end of `points`, and one that is acknowledged by it at
    /// the end of `acked`, in the order of the entries. Takes no memory.
    pub fn pass(&mut self, passed: &Passed, own: bool, points: &mut TxIds, acked: &mut TxIds)
        requires { HasLists self.old.book points.old acked.old }
        ensures shape { self.new ≡ with_book self.old self.new.book }
        ensures change { so_far self.new points.new acked.new
            ≡ change_then (so_far self.old points.old acked.old)
            (λ b. pass_numbers b own passed.now.stream (numbers_from passed.now.first (passed.now.after - passed.now.first))) }
        ensures lists { HasLists self.new.book points.new acked.new }
    {
        for number in passed.first..passed.after {
            self.pass_entry(&passed.stream, number, own, points, acked);
        }
    }

    /// Notes all that the node `me` has passed, one after another as [`pass`](Book::pass) does; its own streams are
    /// acknowledged.
    pub fn pass_each(
        &mut self,
        me: NodeId,
        passes: &[Passed],
        points: &mut TxIds,
        acked: &mut TxIds,
    )
        requires { HasLists self.old.book points.old acked.old }
        ensures shape { self.new ≡ with_book self.old self.new.book }
        ensures change { so_far self.new points.new acked.new ≡ change_then (so_far self.old points.old acked.old) (λ b. book_passes b me passes.now) }
        ensures lists { HasLists self.new.book points.new acked.new }
    {
        for passed in passes {
            let own = passed.stream.node == me;
            self.pass(passed, own, points, acked);
        }
    }
}
