use example_reports::{ONE_NODE, TWO_NODES, TWO_NODES_REPORT};
use std::alloc::{AllocError, Global};
use std::io;
use std::io::Read;
use std::test::Fail;
use zeus_cli::zeus_top;
use zeus_io::{MemSink, MemSource, SafeSink, SafeSource, Status, StdSource};

// A reader that always fails.
#[derive(Drop)]
struct Broken;

impl Read for Broken {
    fn read(&mut self, _: &mut [u8]) -> io::Result<usize> {
        Err(io::Error::new(io::ErrorKind::Other, "broken"))
    }
}

fn words(alloc: Global, texts: &[&str]) -> Result<Vec<String>, AllocError> {
    let mut all = Vec::new(alloc);
    for text in texts {
        all.push(String::from_str(alloc, *text)?)?;
    }
    Ok(all)
}

#[test]
fn each_read_that_fails_leaves_the_sink_alone(rt: HostRuntime) -> Result<(), Fail> {
    let alloc = rt.alloc();
    let run = words(alloc, &["run"])?;
    for (call, _piece) in TWO_NODES.as_bytes().chunks(7).enumerate() {
        let bytes = Vec::from_slice(alloc, TWO_NODES.as_bytes())?;
        let mut source = MemSource::new(bytes, 7, Vec::from_slice(alloc, &[call as u64])?);
        let mut sink = MemSink::with_room(alloc, 4096, 7, Vec::new(alloc))?;
        let status = zeus_top(alloc, &run, &mut source, &mut sink);
        assert_eq!(rt; status, Status::ReadFault);
        assert_eq!(rt; sink.bytes(), b"".as_slice());
    }
    Ok(())
}

#[test]
fn each_write_that_fails_leaves_what_was_written_before(rt: HostRuntime) -> Result<(), Fail> {
    let alloc = rt.alloc();
    let run = words(alloc, &["run"])?;
    let mut written = Vec::new(alloc);
    for (call, piece) in TWO_NODES_REPORT.as_bytes().chunks(7).enumerate() {
        let bytes = Vec::from_slice(alloc, TWO_NODES.as_bytes())?;
        let mut source = MemSource::new(bytes, 7, Vec::new(alloc));
        let mut sink = MemSink::with_room(alloc, 4096, 7, Vec::from_slice(alloc, &[call as u64])?)?;
        let status = zeus_top(alloc, &run, &mut source, &mut sink);
        assert_eq!(rt; status, Status::WriteFault);
        assert_eq!(rt; sink.bytes(), written.as_slice());
        written.extend_from_slice(piece)?;
    }
    Ok(())
}

#[test]
fn a_sink_that_fails_at_its_second_call_keeps_the_first_piece(rt: HostRuntime) -> Result<(), Fail> {
    let alloc = rt.alloc();
    let run = words(alloc, &["run"])?;
    let bytes = Vec::from_slice(alloc, ONE_NODE.as_bytes())?;
    let mut source = MemSource::new(bytes, 4096, Vec::new(alloc));
    let mut sink = MemSink::with_room(alloc, 4096, 10, Vec::from_slice(alloc, &[1])?)?;
    let status = zeus_top(alloc, &run, &mut source, &mut sink);
    assert_eq!(rt; status, Status::WriteFault);
    assert_eq!(rt; sink.bytes(), b"report 1\n0".as_slice());
    Ok(())
}

#[test]
fn a_failing_reader_leaves_the_sink_alone(rt: HostRuntime) -> Result<(), Fail> {
    let alloc = rt.alloc();
    let mut sink = SafeSink::with_room(alloc, 100)?;
    let run = words(alloc, &["run"])?;
    let status = zeus_top(alloc, &run, &mut StdSource::new(Broken), &mut sink);
    assert_eq!(rt; status, Status::ReadFault);
    assert_eq!(rt; sink.bytes(), b"".as_slice());
    Ok(())
}

#[test]
fn a_full_sink_keeps_a_front(rt: HostRuntime) -> Result<(), Fail> {
    let alloc = rt.alloc();
    let mut source = SafeSource::new(Vec::new(alloc));
    let mut sink = SafeSink::with_room(alloc, 3)?;
    let status = zeus_top(alloc, &words(alloc, &[])?, &mut source, &mut sink);
    assert_eq!(rt; status, Status::WriteFault);
    assert_eq!(rt; sink.bytes(), b"usa".as_slice());
    Ok(())
}
