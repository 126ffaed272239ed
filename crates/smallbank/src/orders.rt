//! The orders of a bank, chosen by the words of a generator.
ghost use Rattle.std.specs.Prelude.{◌≡◌, ◌≤◌, ◌++◌, ◌∷◌, [], IfOk, OnOk, map};
ghost use Rattle.smallbank.specs.Orders.{picked_order, picked_orders, picked_tx, tx_of, tx_of_kind};
ghost use Rattle.random_schedule.specs.Words.{pick};

use crate::lists::push;
use bank_ledger::{AccountId, BankTx};
use random_schedule::Words;
use std::alloc::Global;
use zeus_base::{NoMemory, NodeId, SlotId};

/// How many kinds of transactions there are.
const KINDS: u32 = 5;

/// The greatest amount.
const MOST: u32 = 100;

/// A transaction of the bank, and where it is to run.
#[derive(Clone, Copy, Debug)]
pub struct Order {
    pub node: NodeId,
    pub slot: SlotId,
    pub tx: BankTx,
}

/// The transaction of a kind.
#[tactic(auto, unfolding(crate::specs::Orders::tx_of_kind))]
fn tx_of_kind(kind: u32, account: AccountId, other: AccountId, amount: u64) -> BankTx
    ensures { result ≡ tx_of_kind kind account other amount }
{
    match kind {
        0 => BankTx::Balance(account),
        1 => BankTx::Deposit(account, amount),
        2 => BankTx::Withdraw(account, amount),
        3 => BankTx::Pay(account, other, amount),
        _ => BankTx::Save(account, amount),
    }
}

fn pick_account(words: &mut Words, accounts: u8) -> AccountId
    requires { (1 ≤ accounts) × (accounts ≤ 128) }
    ensures { (result, words.new) ≡ pick accounts words.old }
{
    AccountId(words.pick(u32::from(accounts)) as u8)
}

/// The transaction of the next order of a bank with so many accounts.
#[tactic(auto, unfolding(crate::specs::Orders::picked_tx))]
fn pick_tx(words: &mut Words, accounts: u8) -> BankTx
    requires { (1 ≤ accounts) × (accounts ≤ 128) }
    ensures { (result, words.new) ≡ picked_tx accounts words.old }
{
    let kind = words.pick(KINDS);
    let account = pick_account(words, accounts);
    let other = pick_account(words, accounts);
    let amount = u64::from(words.pick(MOST)) + 1;
    tx_of_kind(kind, account, other, amount)
}

/// Adds the next order of a bank with so many accounts.
#[tactic(auto, unfolding(crate::specs::Orders::picked_order))]
fn push_order(orders: &mut Vec<Order>, words: &mut Words, accounts: u8) -> Result<(), NoMemory>
    requires { (1 ≤ accounts) × (accounts ≤ 128) }
    ensures order { OnOk result (orders.new.items ≡ orders.old.items ++ (picked_order accounts words.old).0 ∷ []) }
    ensures words { words.new ≡ (picked_order accounts words.old).1 }
{
    let node = NodeId(words.pick(4) as u8);
    let slot = SlotId(words.pick(2) as u8);
    let tx = pick_tx(words, accounts);
    push(orders, Order { node, slot, tx })
}

/// So many orders of a bank with so many accounts.
///
/// # Errors
/// `NoMemory` if the memory for them is not there.
pub(crate) fn pick_orders(
    alloc: Global,
    words: &mut Words,
    accounts: u8,
    count: u32,
) -> Result<Vec<Order>, NoMemory>
    requires { (1 ≤ accounts) × (accounts ≤ 128) }
    ensures { IfOk result (λ v. (v.items, words.new) ≡ picked_orders accounts count words.old) }
{
    let mut orders = Vec::with_capacity(alloc, count as usize).map_err(|_| NoMemory)?;
    for _number in 0..count {
        push_order(&mut orders, words, accounts)?;
    }
    Ok(orders)
}

/// What the orders do.
///
/// # Errors
/// `NoMemory` if the memory for it is not there.
pub(crate) fn txs_of(alloc: Global, orders: &[Order]) -> Result<Vec<BankTx>, NoMemory>
    ensures { IfOk result (λ v. v.items ≡ map tx_of orders.now) }
{
    let mut txs = Vec::with_capacity(alloc, orders.len()).map_err(|_| NoMemory)?;
    for order in orders {
        push(&mut txs, order.tx)?;
    }
    Ok(txs)
}
