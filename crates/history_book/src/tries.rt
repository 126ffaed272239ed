//! What the answers of nodes to begins and tries write into the book.
ghost use Rattle.std.specs.Prelude.{◌≡◌, ◌<◌, length};
ghost use Rattle.zeus_model.specs.Book.{book_tried, change_then};
ghost use Rattle.zeus_model.specs.World.{book_begun};
ghost use Rattle.history_book.specs.Books.{HasLists, so_far, with_book};
ghost use Rattle.history_book.specs.Tries.{CanNote};

use crate::book::Book;
use crate::tx_ids::TxIds;
use zeus_base::{Stream, TxId};
use zeus_model::{Begin, Tried};

impl Book {
    /// A node was asked to begin the transaction: it is begun at this step if the node took it.
    #[tactic(auto, unfolding(zeus_model::specs::World::book_begun))]
    pub fn note_begun(&mut self, id: TxId, begun: &Begin)
        requires { id < length self.old.book.records }
        ensures { self.new ≡ with_book self.old (book_begun self.old.book id begun.now).book }
    {
        match begun {
            Begin::Begun => self.begin(id),
            Begin::Stopped => {}
            Begin::Busy(_) => {}
        }
    }

    /// The slot of the stream was tried with this answer: a committed transaction is an entry of the stream, one that was
    /// read has its point and its acknowledgement, which stand behind those of the lists, and one without a copy is
    /// refused if there is no degree.
    pub fn note_tried(
        &mut self,
        stream: Stream,
        degree: Option<u8>,
        tried: &Tried,
        points: &mut TxIds,
        acked: &mut TxIds,
    )
        requires tried { CanNote self.old stream tried.now }
        requires lists { HasLists self.old.book points.old acked.old }
        ensures shape { self.new ≡ with_book self.old self.new.book }
        ensures change { so_far self.new points.new acked.new
            ≡ change_then (so_far self.old points.old acked.old) (λ b. book_tried b stream degree tried.now) }
        ensures lists { HasLists self.new.book points.new acked.new }
    {
        match tried {
            Tried::Committed(id, number, reply) => {
                self.commit(*id, stream, *number, reply.duplicate());
            }
            Tried::Read(id, reply) => {
                self.read(*id, reply.duplicate());
                points.push(*id);
                acked.push(*id);
            }
            Tried::NoCopy(id, _) => match degree {
                None => self.refuse(*id),
                Some(_) => {}
            },
            _ => {}
        }
    }
}
