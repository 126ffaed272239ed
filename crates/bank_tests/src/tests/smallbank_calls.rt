//! The program of the bank.
use super::words;
use smallbank::bank_top;
use std::test::Fail;
use zeus_io::{MemSink, SafeSink, Status};

const NO_TRANSACTION: &str =
    "bank 2 0 0 0 0 7\nsteps 0\nhistory 0 failed 0 open 0\nstart 4000\nin 0\nout 0\nheld 4000\naccount 0 1000 1000\naccount 1 1000 1000\nend\n";

const ONE_OPEN: &str =
    "bank 2 1 0 0 0 7\nsteps 0\nhistory 0 failed 0 open 1\nstart 4000\nin 0\nout 0\nheld 4000\naccount 0 1000 1000\naccount 1 1000 1000\nend\n";

/// As an independent program has it.
const ALL_CLOSED: &str =
    "bank 2 4 3000 5 0 8\nsteps 737\nhistory 4 failed 0 open 0\nstart 4000\nin 124\nout 47\nheld 4077\naccount 0 1091 953\naccount 1 1033 1000\nend\n";

#[test]
fn banks_are_told_byte_for_byte(rt: HostRuntime) -> Result<(), Fail> {
    let alloc = rt.alloc();
    for (asked, text, status) in [
        ("bank 2 0 0 0 0 7", NO_TRANSACTION, Status::Done),
        ("bank 2 1 0 0 0 7", ONE_OPEN, Status::Unfinished),
        ("bank 2 4 3000 5 0 8", ALL_CLOSED, Status::Done),
    ] {
        let mut sink = SafeSink::with_room(alloc, 4096)?;
        assert_eq!(rt; bank_top(alloc, &words(alloc, asked)?, &mut sink), status);
        assert_eq!(rt; sink.bytes(), text.as_bytes());
    }
    Ok(())
}

#[test]
fn other_words_get_the_line_usage(rt: HostRuntime) -> Result<(), Fail> {
    let alloc = rt.alloc();
    for asked in [
        "bank",
        "bank 0 0 0 0 0 7",
        "bank 129 0 0 0 0 7",
        "bank 2 10001 0 0 0 7",
        "bank 2 0 50001 0 0 7",
        "bank 2 0 0 101 0 7",
        "bank 2 0 0 0 8 7",
        "bank 2 0 0 0 0 07",
        "bank 2 0 0 0 0 7 7",
        "storm 2 0 0 0 0 7",
    ] {
        let mut sink = SafeSink::with_room(alloc, 100)?;
        assert_eq!(rt;
            bank_top(alloc, &words(alloc, asked)?, &mut sink),
            Status::Usage,
            "{asked}"
        );
        assert_eq!(rt; sink.bytes(), b"usage\n".as_slice());
    }
    Ok(())
}

#[test]
fn a_sink_that_fails_keeps_what_was_written_before(rt: HostRuntime) -> Result<(), Fail> {
    let alloc = rt.alloc();
    let mut sink = MemSink::with_room(alloc, 4096, 10, Vec::from_slice(alloc, &[1])?)?;
    let status = bank_top(alloc, &words(alloc, "bank 2 0 0 0 0 7")?, &mut sink);
    assert_eq!(rt; status, Status::WriteFault);
    assert_eq!(rt; sink.bytes(), b"bank 2 0 0".as_slice());
    Ok(())
}
