//! The run of a bank.
ghost use Rattle.std.specs.Prelude.{◌≡◌, ◌≤◌, ◌<◌, IfOk, length};
ghost use Rattle.bank_ledger.specs.Bank.{KeepsMoney};
ghost use Rattle.bank_report.specs.Numbers.{FitsNumbers};
ghost use Rattle.smallbank.specs.Run.{IsGood, bank_text, bank_world, told, unclosed, unclosed_one};

use crate::orders::{pick_orders, txs_of};
use crate::script::bank_script;
use bank_ledger::{BankTx, no_run_loses_money};
use bank_report::{BankNumbers, Tally, report_text};
use random_schedule::{Words, schedule_run};
use std::alloc::Global;
use zeus_base::{NoMemory, TxId};
use zeus_world::World;

/// What a bank's run comes to.
#[derive(Debug, Drop)]
pub struct BankRun {
    /// The text that tells of it.
    pub text: Vec<u8>,
    /// How many transactions are not closed.
    pub unclosed: u32,
}

/// 1 for a transaction that is not closed.
#[tactic(auto, unfolding(crate::specs::Run::unclosed_one))]
fn unclosed_one(world: &World, id: TxId) -> u32
    requires { id < length world.now.txs }
    ensures { result ≡ unclosed_one world.now id }
{
    if world.is_closed(id) { 0 } else { 1 }
}

/// How many transactions of the world are not closed.
fn count_unclosed(world: &World) -> u32
    requires { length world.now.txs ≤ 10000 }
    ensures { result ≡ unclosed world.now }
{
    let mut count = 0;
    for number in 0..world.txs().len() as u32 {
        count += unclosed_one(world, TxId(number));
    }
    count
}

/// Tells of so many steps of these transactions, which have led to this world.
fn tell(
    alloc: Global,
    numbers: &BankNumbers,
    steps: u32,
    txs: &[BankTx],
    world: &World,
) -> Result<BankRun, NoMemory>
    requires accounts { numbers.now.accounts ≤ 128 }
    requires few { length world.now.txs ≤ 10000 }
    requires money { KeepsMoney numbers.now.accounts txs.now world.now }
    ensures text { IfOk result (λ r. r.text.items ≡ told numbers.now steps txs.now world.now) }
    ensures unclosed { IfOk result (λ r. r.unclosed ≡ unclosed world.now) }
{
    let unclosed = count_unclosed(world);
    let tally = Tally::of(txs, world.book());
    let map = world.serial_map()?;
    let text = report_text(alloc, numbers, steps, unclosed, &tally, &map)?;
    Ok(BankRun { text, unclosed })
}

/// Runs a bank: a random schedule of its orders. Whatever the schedule loses, repeats or reorders and whichever nodes it
/// stops, no money is lost or made, and the run keeps the whole promise after each of its steps.
///
/// # Errors
/// `NoMemory` if memory ran out.
pub fn bank_run(alloc: Global, numbers: &BankNumbers) -> Result<BankRun, NoMemory>
    requires { FitsNumbers numbers.now }
    ensures text { IfOk result (λ r. r.text.items ≡ bank_text numbers.now) }
    ensures unclosed { IfOk result (λ r. r.unclosed ≡ unclosed (bank_world numbers.now)) }
    ensures good { IfOk result (λ _. IsGood numbers.now) }
{
    no_run_loses_money();
    let mut words = Words::new(numbers.start);
    let orders = pick_orders(alloc, &mut words, numbers.accounts, numbers.txs)?;
    let txs = txs_of(alloc, &orders)?;
    let script = bank_script(alloc, numbers.accounts, &orders)?;
    let (steps, world) = schedule_run(
        alloc,
        &script,
        numbers.steps,
        numbers.loss,
        numbers.stops,
        &mut words,
    )?;
    tell(alloc, numbers, steps.len() as u32, &txs, &world)
}
