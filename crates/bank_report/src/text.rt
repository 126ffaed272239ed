//! The text that tells of a bank's run.
ghost use Rattle.std.specs.Prelude.{◌≡◌, ◌≤◌, ◌<◌, ◌+◌, ◌*◌, ◌^◌, ◌++◌, IfOk, OnOk, length};
ghost use Rattle.bank_ledger.specs.Money.{held};
ghost use Rattle.bank_report.specs.Report.{account_line, account_lines, count_line, first_line, history_line, money_lines, report_text};

use crate::numbers::BankNumbers;
use crate::totals::{Tally, amount, held};
use bank_ledger::AccountId;
use std::alloc::Global;
use zeus_base::NoMemory;
use zeus_text::{append, write_counted, write_line_end, write_number};
use zeus_txn::Map;

/// What each account has in checking and in savings at the start.
const OPENING: u64 = 1_000;

/// A line of a label and a number.
fn write_count(out: &mut Vec<u8>, label: &[u8], count: u64) -> Result<(), NoMemory>
    ensures { OnOk result (out.new.items ≡ out.old.items ++ count_line label.now count) }
{
    write_counted(out, label, count)?;
    write_line_end(out)
}

/// The words that the run was asked for with.
fn write_first_line(out: &mut Vec<u8>, numbers: &BankNumbers) -> Result<(), NoMemory>
    ensures { OnOk result (out.new.items ≡ out.old.items ++ first_line numbers.now) }
{
    write_counted(out, b"bank", u64::from(numbers.accounts))?;
    write_number(out, u64::from(numbers.txs))?;
    write_number(out, u64::from(numbers.steps))?;
    write_number(out, u64::from(numbers.loss))?;
    write_number(out, u64::from(numbers.stops))?;
    write_number(out, numbers.start)?;
    write_line_end(out)
}

/// How many transactions there are in the history, how many of them failed, and how many are not closed.
fn write_history_line(out: &mut Vec<u8>, tally: &Tally, unclosed: u32) -> Result<(), NoMemory>
    ensures { OnOk result (out.new.items ≡ out.old.items ++ history_line tally.now unclosed) }
{
    write_counted(out, b"history", u64::from(tally.history))?;
    write_counted(out, b" failed", u64::from(tally.failed))?;
    write_counted(out, b" open", u64::from(unclosed))?;
    write_line_end(out)
}

/// The money of the start, what came and what went, and what is held at last.
fn write_money(out: &mut Vec<u8>, accounts: u8, tally: &Tally, map: &Map) -> Result<(), NoMemory>
    requires few { accounts ≤ 128 }
    requires size { length map.now ≡ 2 * accounts }
    requires range { held map.now < 2 ^ 64 }
    ensures { OnOk result (out.new.items ≡ out.old.items ++ money_lines accounts tally.now map.now) }
{
    write_count(out, b"start", 2 * u64::from(accounts) * OPENING)?;
    write_count(out, b"in", tally.paid_in)?;
    write_count(out, b"out", tally.paid_out)?;
    write_count(out, b"held", held(map, accounts))
}

/// What an account has in checking and in savings.
fn write_account(out: &mut Vec<u8>, map: &Map, account: AccountId) -> Result<(), NoMemory>
    requires { 2 * account + 1 < length map.now }
    ensures { OnOk result (out.new.items ≡ out.old.items ++ account_line map.now account) }
{
    write_counted(out, b"account", u64::from(account.0))?;
    write_number(out, amount(map.value(account.checking())))?;
    write_number(out, amount(map.value(account.savings())))?;
    write_line_end(out)
}

/// What each account has.
fn write_accounts(out: &mut Vec<u8>, map: &Map, accounts: u8) -> Result<(), NoMemory>
    requires few { accounts ≤ 128 }
    requires size { length map.now ≡ 2 * accounts }
    ensures { OnOk result (out.new.items ≡ out.old.items ++ account_lines map.now 0 accounts) }
{
    for account in 0..accounts {
        write_account(out, map, AccountId(account))?;
    }
    Ok(())
}

/// The text of a bank's run: its numbers, the steps that were taken, what is in the history and how many transactions are not
/// closed, the money, and each account as the history leaves it.
///
/// # Errors
/// `NoMemory` if memory ran out.
pub fn report_text(
    alloc: Global,
    numbers: &BankNumbers,
    steps: u32,
    unclosed: u32,
    tally: &Tally,
    map: &Map,
) -> Result<Vec<u8>, NoMemory>
    requires few { numbers.now.accounts ≤ 128 }
    requires size { length map.now ≡ 2 * numbers.now.accounts }
    requires range { held map.now < 2 ^ 64 }
    ensures { IfOk result (λ text. text.items ≡ report_text numbers.now steps unclosed tally.now map.now) }
{
    let mut out = Vec::new(alloc);
    write_first_line(&mut out, numbers)?;
    write_count(&mut out, b"steps", u64::from(steps))?;
    write_history_line(&mut out, tally, unclosed)?;
    write_money(&mut out, numbers.accounts, tally, map)?;
    write_accounts(&mut out, map, numbers.accounts)?;
    append(&mut out, b"end\n")?;
    Ok(out)
}
