//! The script of a bank: its configuration and its transactions.
ghost use Rattle.std.specs.Prelude.{◌≡◌, ◌≤◌, ◌++◌, ◌∷◌, [], All, IfOk, OnOk, map};
ghost use Rattle.bank_ledger.specs.Bank.{bank_config, bank_object, objects_from};
ghost use Rattle.smallbank.specs.Orders.{FitsOrder, declared_tx};

use crate::lists::push;
use crate::orders::Order;
use std::alloc::Global;
use zeus_base::{Config, NoMemory, NodeId, NodeSet, ObjectDecl, ObjectList, Steps, Value};
use zeus_model::{Names, Script};
use zeus_txn::{TxDecl, TxList};

/// How many nodes there are.
const NODES: u8 = 4;

/// How many slots each node has.
const SLOTS: u8 = 2;

/// What each account has in checking and in savings at the start.
const OPENING: u64 = 1_000;

/// Adds an object of an account; both are declared alike.
#[tactic(auto, unfolding(bank_ledger::specs::Bank::bank_object))]
fn push_object(objects: &mut Vec<ObjectDecl>, account: u8) -> Result<(), NoMemory>
    ensures { OnOk result (objects.new.items ≡ objects.old.items ++ bank_object account ∷ []) }
{
    let owner = NodeId(account % NODES);
    let next = NodeId((account % NODES + 1) % NODES);
    push(
        objects,
        ObjectDecl {
            value: Value::Num(OPENING),
            owner,
            replicas: NodeSet::empty().insert(owner).insert(next),
        },
    )
}

/// The objects of so many accounts.
fn bank_objects(alloc: Global, accounts: u8) -> Result<ObjectList, NoMemory>
    requires { accounts ≤ 128 }
    ensures { IfOk result (λ objects. objects ≡ objects_from 0 accounts) }
{
    let count = 2 * usize::from(accounts);
    let mut objects = Vec::with_capacity(alloc, count).map_err(|_| NoMemory)?;
    for account in 0..accounts {
        push_object(&mut objects, account)?;
        push_object(&mut objects, account)?;
    }
    Ok(ObjectList::from_vec(objects))
}

/// The nodes of the directory.
#[tactic(auto, unfolding(zeus_base::specs::Nodes::with_node))]
fn directory() -> NodeSet
    ensures { result ≡ 0 ∷ 1 ∷ 2 ∷ [] }
{
    NodeSet::empty()
        .insert(NodeId(0))
        .insert(NodeId(1))
        .insert(NodeId(2))
}

/// The configuration of a bank with so many accounts.
fn bank_config(alloc: Global, accounts: u8) -> Result<Config, NoMemory>
    requires { accounts ≤ 128 }
    ensures { IfOk result (λ config. config ≡ bank_config accounts) }
{
    Ok(Config {
        version: 1,
        nodes: NODES,
        slots: SLOTS,
        directory: directory(),
        degree: None,
        objects: bank_objects(alloc, accounts)?,
    })
}

/// The order as a declared transaction.
#[tactic(auto, unfolding(crate::specs::Orders::declared_tx))]
fn declare(alloc: Global, order: &Order) -> TxDecl
    requires { FitsOrder 128 order.now }
    ensures { result ≡ declared_tx order.now }
{
    TxDecl {
        node: order.node,
        slot: order.slot,
        after: None,
        tx: order.tx.tx(alloc),
    }
}

/// The orders as declared transactions.
fn declare_all(alloc: Global, orders: &[Order]) -> Result<TxList, NoMemory>
    requires { All (FitsOrder 128) orders.now }
    ensures { IfOk result (λ txs. txs ≡ map declared_tx orders.now) }
{
    let mut txs = Vec::with_capacity(alloc, orders.len()).map_err(|_| NoMemory)?;
    for order in orders {
        push(&mut txs, declare(alloc, order))?;
    }
    Ok(TxList::from_vec(txs))
}

/// The script of a bank with so many accounts and these orders, without steps. Its objects have no names, since nothing that
/// the bank prints names one.
///
/// # Errors
/// `NoMemory` if the memory for it is not there.
pub(crate) fn bank_script(alloc: Global, accounts: u8, orders: &[Order]) -> Result<Script, NoMemory>
    requires few { accounts ≤ 128 }
    requires orders { All (FitsOrder 128) orders.now }
    ensures config { IfOk result (λ s. s.config ≡ bank_config accounts) }
    ensures txs { IfOk result (λ s. s.txs ≡ map declared_tx orders.now) }
{
    Ok(Script {
        config: bank_config(alloc, accounts)?,
        names: Names::from_vec(Vec::new(alloc)),
        txs: declare_all(alloc, orders)?,
        steps: Steps::from_vec(Vec::new(alloc)),
    })
}
