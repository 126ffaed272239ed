//! A read-only transaction reads where all its copies are valid.
ghost use Rattle.std.specs.Prelude.{◌≡◌, None, Some};
ghost use Rattle.zeus_model.specs.Local.{hindrance, run_here};
ghost use Rattle.zeus_model.specs.State.{Node};
ghost use Rattle.zeus_model.specs.Tables.{nth};
ghost use Rattle.zeus_txn.specs.declared.reply.Reply.{Reply};
ghost use Rattle.replica_reads.specs.Reads.{hindrance_among, read_told, told_hindrance};

use crate::run::run_on;
use object_table::Copies;
use zeus_base::ObjId;
use zeus_packet::State;
use zeus_txn::{Reply, Tx};

/// What becomes of a try to read.
#[derive(Debug, Drop)]
pub enum ReadTry {
    /// There is no copy of this object.
    NoCopy(ObjId),
    /// The copy of this object is in this state, which is not valid.
    NotValid(ObjId, State),
    /// All are valid, and the transaction replies this.
    Read(Reply),
}

/// What hinders a read.
#[derive(Clone, Copy, Debug, PartialEq, Eq)]
enum Hindrance {
    /// There is no copy of the object.
    Missing(ObjId),
    /// The copy of the object is not valid.
    Unready(ObjId, State),
}

impl Hindrance {
    #[tactic(auto, unfolding(crate::specs::Reads::read_told, crate::specs::Reads::told_hindrance))]
    fn answer(self) -> ReadTry
        ensures { (reply : Reply) → result ≡ read_told (told_hindrance (Some self)) reply }
    {
        match self {
            Hindrance::Missing(object) => ReadTry::NoCopy(object),
            Hindrance::Unready(object, state) => ReadTry::NotValid(object, state),
        }
    }
}

/// The first object, in the order of first naming, that has no copy or one that is not valid; else what the transaction
/// replies on the copies. The clause speaks of every node that has these copies, so of the one that they are from.
pub fn try_read(copies: &Copies, tx: &Tx) -> ReadTry
    ensures { (n : Node) → n.copies ≡ copies.now.copies → result ≡ read_told (hindrance n tx.now) (run_here n tx.now).reply }
{
    match first_hindrance(copies, tx) {
        Some(found) => found.answer(),
        None => ReadTry::Read(run_on(copies, tx).into_reply()),
    }
}

/// The first named object that hinders a read.
fn first_hindrance(copies: &Copies, tx: &Tx) -> Option<Hindrance>
    ensures { told_hindrance result ≡ hindrance_among copies.now.copies tx.now }
{
    let named = tx.named();
    for object in named.as_slice() {
        let found = hindrance_at(copies, *object);
        if found.is_some() {
            return found;
        }
    }
    None
}

/// What hinders a read at this object.
fn hindrance_at(copies: &Copies, object: ObjId) -> Option<Hindrance>
    ensures { told_hindrance result ≡ Rattle.zeus_model.specs.Local.hindrance_at object (nth None copies.now.copies object) }
{
    match copies.copy(object) {
        None => Some(Hindrance::Missing(object)),
        Some(copy) => match copy.state {
            State::Valid => None,
            state => Some(Hindrance::Unready(object, state)),
        },
    }
}
