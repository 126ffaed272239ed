//! The transactions of a bank.
ghost use Rattle.std.specs.Prelude.{ℕ, ◌≡◌, ◌≤◌, ◌∷◌, [], length};
ghost use Rattle.zeus_txn.specs.declared.ops.Op.TheVariants.{Add, Need};
ghost use Rattle.bank_ledger.specs.Money.{brings, takes_out};
ghost use Rattle.bank_ledger.specs.Operations.{FitsBank, operations, taking};

use crate::account::AccountId;
use std::alloc::Global;
use zeus_base::ObjId;
use zeus_txn::{Op, Tx};

/// A transaction of a bank. One that takes an amount fails if there is less, and then changes nothing.
#[derive(Clone, Copy, Debug, PartialEq, Eq)]
pub enum BankTx {
    /// Tells what an account has in checking and in savings.
    Balance(AccountId),
    /// Pays the amount in, to an account's checking.
    Deposit(AccountId, u64),
    /// Pays the amount out, from an account's savings.
    Withdraw(AccountId, u64),
    /// Moves the amount from the first account's checking to that of the second.
    Pay(AccountId, AccountId, u64),
    /// Moves the amount from an account's checking to its savings.
    Save(AccountId, u64),
}

/// The transaction of a few operations.
fn tx_of(alloc: Global, ops: &[Op]) -> Tx
    requires { (1 ≤ length ops.now) × (length ops.now ≤ 8) }
    ensures { result ≡ ops.now }
{
    Tx::new(alloc, ops).unwrap()
}

/// What is added to take the amount.
fn taking(amount: u64) -> u64
    requires { 1 ≤ amount }
    ensures { result ≡ taking amount }
{
    u64::MAX - amount + 1
}

/// The transaction that moves the amount.
fn moving(alloc: Global, from: ObjId, to: ObjId, amount: u64) -> Tx
    requires { 1 ≤ amount }
    ensures { result ≡ Need from amount ∷ Add from (taking amount) ∷ Add to amount ∷ [] }
{
    let ops = [
        Op::Need(from, amount),
        Op::Add(from, taking(amount)),
        Op::Add(to, amount),
    ];
    tx_of(alloc, &ops)
}

impl BankTx {
    /// What it brings into the bank, if it does not fail.
    #[tactic(auto, unfolding(crate::specs::Money::brings))]
    pub fn brings(&self) -> u64
        ensures { result ≡ brings self.now }
    {
        match self {
            BankTx::Deposit(_, amount) => *amount,
            _ => 0,
        }
    }

    /// What it takes out of the bank, if it does not fail.
    #[tactic(auto, unfolding(crate::specs::Money::takes_out))]
    pub fn takes_out(&self) -> u64
        ensures { result ≡ takes_out self.now }
    {
        match self {
            BankTx::Withdraw(_, amount) => *amount,
            _ => 0,
        }
    }

    /// Its operations on the objects of its accounts, which are some of `accounts`; amounts are from 1 to 100.
    #[tactic(auto, unfolding(crate::specs::Operations::operations, crate::specs::Operations::FitsBank))]
    pub fn tx(&self, alloc: Global) -> Tx
        ghost accounts: { ℕ }
        requires { FitsBank accounts self.now }
        ensures { result ≡ operations self.now }
    {
        match *self {
            BankTx::Balance(account) => {
                let ops = [Op::Get(account.checking()), Op::Get(account.savings())];
                tx_of(alloc, &ops)
            }
            BankTx::Deposit(account, amount) => {
                let ops = [Op::Add(account.checking(), amount)];
                tx_of(alloc, &ops)
            }
            BankTx::Withdraw(account, amount) => {
                let savings = account.savings();
                let ops = [Op::Need(savings, amount), Op::Add(savings, taking(amount))];
                tx_of(alloc, &ops)
            }
            BankTx::Pay(account, other, amount) => {
                moving(alloc, account.checking(), other.checking(), amount)
            }
            BankTx::Save(account, amount) => {
                moving(alloc, account.checking(), account.savings(), amount)
            }
        }
    }
}
