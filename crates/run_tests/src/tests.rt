mod large;

use example_reports::{
    LATE_VALIDATION, LATE_VALIDATION_REPORT, NO_STEP, NO_STEP_REPORT, ONE_NODE, ONE_NODE_REPORT,
    OWNERSHIP_MOVES, OWNERSHIP_MOVES_REPORT, READER_COMES_AND_GOES, READER_COMES_AND_GOES_REPORT,
    REPEATED_PACKETS, REPEATED_PACKETS_REPORT, SECOND_ENTRY_FIRST, SECOND_ENTRY_FIRST_REPORT,
    SURVIVOR_REPLAYS, SURVIVOR_REPLAYS_REPORT, TEXTS_AS_VALUES, TEXTS_AS_VALUES_REPORT,
    TWO_DRIVERS, TWO_DRIVERS_REPORT, TWO_NODES, TWO_NODES_REPORT,
};
use std::alloc::{AllocError, Global};
use std::test::Fail;
use zeus_cli::zeus_top;
use zeus_io::{MemSink, MemSource, Status};

fn words(alloc: Global, texts: &[&str]) -> Result<Vec<String>, AllocError> {
    let mut all = Vec::new(alloc);
    for text in texts {
        all.push(String::from_str(alloc, *text)?)?;
    }
    Ok(all)
}

#[test]
fn every_example_is_reported_byte_for_byte(rt: HostRuntime) -> Result<(), Fail> {
    let alloc = rt.alloc();
    let run = words(alloc, &["run"])?;
    for (script, report) in [
        (NO_STEP, NO_STEP_REPORT),
        (ONE_NODE, ONE_NODE_REPORT),
        (TWO_NODES, TWO_NODES_REPORT),
        (REPEATED_PACKETS, REPEATED_PACKETS_REPORT),
        (LATE_VALIDATION, LATE_VALIDATION_REPORT),
        (SECOND_ENTRY_FIRST, SECOND_ENTRY_FIRST_REPORT),
        (OWNERSHIP_MOVES, OWNERSHIP_MOVES_REPORT),
        (TWO_DRIVERS, TWO_DRIVERS_REPORT),
        (SURVIVOR_REPLAYS, SURVIVOR_REPLAYS_REPORT),
        (READER_COMES_AND_GOES, READER_COMES_AND_GOES_REPORT),
        (TEXTS_AS_VALUES, TEXTS_AS_VALUES_REPORT),
    ] {
        let bytes = Vec::from_slice(alloc, script.as_bytes())?;
        let mut source = MemSource::new(bytes, 7, Vec::new(alloc));
        let mut sink = MemSink::with_room(alloc, 4096, 7, Vec::new(alloc))?;
        let status = zeus_top(alloc, &run, &mut source, &mut sink);
        assert_eq!(rt; status, Status::Done);
        assert_eq!(rt; sink.bytes(), report.as_bytes());
    }
    Ok(())
}
