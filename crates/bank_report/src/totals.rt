//! What a run of a bank comes to.
ghost use Rattle.std.specs.Prelude.{◌≡◌, ◌≤◌, ◌<◌, ◌*◌, ◌^◌, length};
ghost use Rattle.bank_ledger.specs.Money.{amount, bank_tx, held, paid_in, paid_out};
ghost use Rattle.bank_report.specs.Totals.{CanNote, noted, tally_of};

use bank_ledger::{AccountId, BankTx};
use history_book::Book;
use zeus_base::{ObjId, TxId, Value};
use zeus_txn::Map;

/// What a history comes to.
#[derive(Clone, Copy, Debug, PartialEq, Eq)]
pub struct Tally {
    /// How many transactions are in it.
    pub history: u32,
    /// How many of them failed.
    pub failed: u32,
    /// What the others paid in.
    pub paid_in: u64,
    /// What the others paid out.
    pub paid_out: u64,
}

/// The transaction of this number; one that moves nothing if there is none.
fn tx_at(txs: &[BankTx], id: TxId) -> BankTx
    ensures { result ≡ bank_tx txs.now id }
{
    match txs.get(id.place()) {
        Some(tx) => *tx,
        None => BankTx::Balance(AccountId(0)),
    }
}

impl Tally {
    /// Counts what a transaction moved, which failed or not.
    #[tactic(auto, unfolding(crate::specs::Totals::noted, crate::specs::Totals::failures, bank_ledger::specs::Money::unless_failed))]
    fn note(&mut self, tx: &BankTx, failed: Option<u8>)
        requires { CanNote tx.now self.old failed }
        ensures { self.new ≡ noted tx.now self.old failed }
    {
        self.history += 1;
        match failed {
            Some(_) => self.failed += 1,
            None => {
                self.paid_in += tx.brings();
                self.paid_out += tx.takes_out();
            }
        }
    }

    /// What the history of the book comes to. The transactions are those of the bank, by number.
    pub fn of(txs: &[BankTx], book: &Book) -> Tally
        requires paid_in { paid_in txs.now book.now.book.points < 2 ^ 64 }
        requires paid_out { paid_out txs.now book.now.book.points < 2 ^ 64 }
        ensures { result ≡ tally_of txs.now book.now.book.points }
    {
        let mut tally = Tally {
            history: 0,
            failed: 0,
            paid_in: 0,
            paid_out: 0,
        };
        for place in 0..book.len() {
            if let Some(point) = book.point(place) {
                tally.note(&tx_at(txs, point.0), point.1.failed);
            }
        }
        tally
    }
}

/// A value as money.
#[tactic(auto, unfolding(bank_ledger::specs::Money::amount))]
pub(crate) fn amount(value: Value) -> u64
    ensures { result ≡ amount value }
{
    match value {
        Value::Num(number) => number,
        Value::Text(_) => 0,
    }
}

/// All the money in the objects of so many accounts.
pub fn held(map: &Map, accounts: u8) -> u64
    requires few { accounts ≤ 128 }
    requires size { length map.now ≡ 2 * accounts }
    requires range { held map.now < 2 ^ 64 }
    ensures { result ≡ held map.now }
{
    let mut sum = 0;
    for object in 0..2 * u16::from(accounts) {
        sum += amount(map.value(ObjId(object)));
    }
    sum
}
