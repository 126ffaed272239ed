//! The money of a bank whose accounts are objects of the store: what its transactions do, and that no run loses or makes
//! any of it.
#![tactic(auto)]

ghost use Rattle.std.specs.Prelude.{All, List, length, ℕ};
ghost use Rattle.zeus_base.specs.declared.step.Step.{Step};
ghost use Rattle.zeus_model.specs.Scripts.{FitsStep, FitsTxs};
ghost use Rattle.zeus_model.specs.World.{run, start};
ghost use Rattle.zeus_txn.specs.declared.tx.TxDecl.{TxDecl};
ghost use Rattle.bank_ledger.specs.declared.bank_tx.BankTx.{BankTx as BankTxData};
ghost use Rattle.bank_ledger.specs.Bank.{IsBank, KeepsMoney, bank_config};

mod account;
mod bank_tx;

pub use account::AccountId;
pub use bank_tx::BankTx;
pub use zeus_base::ObjId;
pub use zeus_txn::Tx;

/// No run of a bank's transactions loses or makes money, whatever its steps lose, repeat or reorder and whichever nodes they
/// stop: what the history leaves are the balances of its transactions in whole numbers, and the bank holds what it held at the
/// start and was paid in, less what was paid out.
pub fn no_run_loses_money()
    ensures { (accounts : ℕ) (txs : List BankTxData) (declared : List TxDecl) (steps : List Step) → IsBank accounts txs declared
        → FitsTxs (bank_config accounts) declared → All (FitsStep (bank_config accounts) (length declared)) steps
        → KeepsMoney accounts txs (run (start (bank_config accounts) declared) steps) }
{}
