//! The numbers of a bank's run.
ghost use Rattle.std.specs.Prelude.{◌≡◌, None, IfSome, map, string_bytes};
ghost use Rattle.bank_report.specs.declared.numbers.BankNumbers.{BankNumbers as BankNumbersData};
ghost use Rattle.bank_report.specs.Numbers.{AsksBank};

use command_words::number_in;

/// How many accounts a bank has, and how its run goes.
#[derive(Clone, Copy, Debug, PartialEq, Eq)]
pub struct BankNumbers {
    /// 1 to 128 accounts.
    pub accounts: u8,
    /// At most 10,000 transactions.
    pub txs: u32,
    /// The most steps that are taken, at most 50,000.
    pub steps: u32,
    /// Of a hundred packets so many are lost, on average.
    pub loss: u8,
    /// The most nodes that are stopped, at most 7.
    pub stops: u8,
    /// The number that the random words begin at.
    pub start: u64,
}

impl BankNumbers {
    /// The numbers of the words `bank ACCOUNTS TXS STEPS LOSS STOPS START`; none if the words are others, or a number is not
    /// in its range.
    pub fn from_words(words: &[String]) -> Option<BankNumbers>
        ensures numbers { IfSome result (AsksBank (map string_bytes words.now)) }
        ensures none { result ≡ None → (n : BankNumbersData) → ¬ AsksBank (map string_bytes words.now) n }
    {
        let [command, accounts, txs, steps, loss, stops, start] = words else {
            return None;
        };
        if command.as_str() != "bank" {
            return None;
        }
        Some(BankNumbers {
            accounts: number_in(accounts.as_str(), 1, 128)? as u8,
            txs: number_in(txs.as_str(), 0, 10_000)? as u32,
            steps: number_in(steps.as_str(), 0, 50_000)? as u32,
            loss: number_in(loss.as_str(), 0, 100)? as u8,
            stops: number_in(stops.as_str(), 0, 7)? as u8,
            start: number_in(start.as_str(), 0, u64::MAX)?,
        })
    }
}
