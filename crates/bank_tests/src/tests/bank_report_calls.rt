//! The words that ask for a bank.
use super::words;
use bank_report::BankNumbers;
use std::test::Fail;

#[test]
fn takes_numbers_at_the_ends_of_their_ranges(rt: HostRuntime) -> Result<(), Fail> {
    let alloc = rt.alloc();
    let least = BankNumbers::from_words(&words(alloc, "bank 1 0 0 0 0 0")?);
    assert_eq!(rt;
        least,
        Some(BankNumbers {
            accounts: 1,
            txs: 0,
            steps: 0,
            loss: 0,
            stops: 0,
            start: 0,
        })
    );
    let text = "bank 128 10000 50000 100 7 18446744073709551615";
    let greatest = BankNumbers::from_words(&words(alloc, text)?);
    assert_eq!(rt;
        greatest,
        Some(BankNumbers {
            accounts: 128,
            txs: 10_000,
            steps: 50_000,
            loss: 100,
            stops: 7,
            start: u64::MAX,
        })
    );
    assert_eq!(rt;
        BankNumbers::from_words(&words(alloc, "bank 0 0 0 0 0 0")?),
        None
    );
    assert_eq!(rt;
        BankNumbers::from_words(&words(alloc, "storm 1 0 0 0 0 0")?),
        None
    );
    Ok(())
}
