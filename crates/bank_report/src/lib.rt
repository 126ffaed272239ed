//! A bank's run from outside: the words that ask for it, and the text that tells of it.
#![tactic(auto)]

mod numbers;
mod text;
mod totals;

pub use bank_ledger::BankTx;
pub use history_book::Book;
pub use numbers::BankNumbers;
pub use text::report_text;
pub use totals::{Tally, held};
pub use zeus_base::NoMemory;
pub use zeus_txn::Map;
