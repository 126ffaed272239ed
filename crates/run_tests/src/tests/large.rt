//! Runs at the ends of the limits: memory is never wanted where it is there.

use super::words;
use std::alloc::{AllocError, Global};
use std::test::Fail;
use zeus_cli::zeus_top;
use zeus_io::{SafeSink, SafeSource, Status};

// A script of 8 nodes and 8 slots, 256 objects, a transaction for each slot of node 0, and 50,000 steps: a begin and a
// try of each, then so many ticks of node 0, each with 56 packets, and views that are refused.
fn largest_script(alloc: Global, ticks: u32) -> Result<Vec<u8>, AllocError> {
    let mut text = Vec::new(alloc);
    text.extend_from_slice(b"zeus 1\nnodes 8\nslots 8\ndirectory 0 1 2\n")?;
    for object in 0..256 {
        let line = format!(in alloc; "object o{object} {object} 0\n")?;
        text.extend_from_slice(line.as_bytes())?;
    }
    for slot in 0..8 {
        let line = format!(in alloc; "tx 0 {slot} add o{slot} 1\n")?;
        text.extend_from_slice(line.as_bytes())?;
    }
    text.extend_from_slice(b"run\n")?;
    for slot in 0..8 {
        let line = format!(in alloc; "begin {slot}\ntry 0 {slot}\n")?;
        text.extend_from_slice(line.as_bytes())?;
    }
    for _ in 0..ticks {
        text.extend_from_slice(b"tick 0\n")?;
    }
    for _ in ticks..49_984 {
        text.extend_from_slice(b"view\n")?;
    }
    text.extend_from_slice(b"end\n")?;
    Ok(text)
}

#[test]
fn a_run_at_the_ends_of_the_limits_is_reported(rt: HostRuntime) -> Result<(), Fail> {
    let alloc = rt.alloc();
    let text = largest_script(alloc, 12_500)?;
    let mut sink = SafeSink::with_room(alloc, 1 << 26)?;
    let run = words(alloc, &["run"])?;
    let status = zeus_top(alloc, &run, &mut SafeSource::new(text), &mut sink);
    assert_eq!(rt; status, Status::Done);
    assert!(rt; sink.bytes().len() > 16_000_000);
    assert!(rt; sink.bytes().ends_with(b"copy o255 0 valid 0 255\nend\n"));
    Ok(())
}

/// A transaction with as many operations as there may be.
fn longest_transaction(alloc: Global) -> Result<String, AllocError> {
    let mut line = String::from_str(alloc, "tx 0 0 put abcdefghijklmnop 1")?;
    for _ in 1..16 {
        line.push_str(" ; put abcdefghijklmnop 18446744073709551615")?;
    }
    line.push_str("\n")?;
    Ok(line)
}

/// A script of 4,194,304 bytes: one node, one object, transactions that are not begun, and views that are refused.
fn script_of_most_bytes(alloc: Global) -> Result<Vec<u8>, AllocError> {
    let head = "zeus 1\nnodes 1\nslots 1\ndirectory 0\nobject abcdefghijklmnop 1000 0\n";
    let mut text = Vec::from_slice(alloc, head.as_bytes())?;
    let transaction = longest_transaction(alloc)?;
    for _ in 0..6_000 {
        text.extend_from_slice(transaction.as_bytes())?;
    }
    text.extend_from_slice(b"run\n")?;
    for _ in 0..10_846 {
        text.extend_from_slice(b"view\n")?;
    }
    text.extend_from_slice(b"end\n")?;
    Ok(text)
}

#[test]
fn a_script_of_most_bytes_is_run_and_one_byte_more_is_not(rt: HostRuntime) -> Result<(), Fail> {
    let alloc = rt.alloc();
    let run = words(alloc, &["run"])?;
    let mut text = script_of_most_bytes(alloc)?;
    assert_eq!(rt; text.len(), 4_194_304);
    let mut source = SafeSource::new(Vec::from_slice(alloc, text.as_slice())?);
    let mut sink = SafeSink::with_room(alloc, 1 << 22)?;
    let status = zeus_top(alloc, &run, &mut source, &mut sink);
    assert_eq!(rt; status, Status::Done);
    assert!(rt;
        sink.bytes()
            .ends_with(b"copy abcdefghijklmnop 0 valid 0 1000\nend\n")
    );
    text.push(b'\n')?;
    let mut longer = SafeSink::with_room(alloc, 100)?;
    let status = zeus_top(alloc, &run, &mut SafeSource::new(text), &mut longer);
    assert_eq!(rt; status, Status::Script);
    assert_eq!(rt; longer.bytes(), b"script 0 size\n".as_slice());
    Ok(())
}
