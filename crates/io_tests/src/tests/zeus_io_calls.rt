//! Tests of typical calls.
use std::io;
use std::io::{Read, Write};
use std::test::Fail;
use zeus_io::{
    MemSink, MemSource, ReadEnd, SafeSink, SafeSource, Status, StdSink, StdSource, WriteFault,
    read_all, write_all,
};

// A reader that gives three bytes, and then fails.
#[derive(Drop)]
struct Breaking {
    reads: u64,
}

impl Read for Breaking {
    fn read(&mut self, buf: &mut [u8]) -> io::Result<usize> {
        let first = self.reads == 0;
        self.reads = self.reads.saturating_add(1);
        if first && buf.len() >= 3 {
            buf[..3].copy_from_slice(b"abc");
            return Ok(3);
        }
        Err(io::Error::new(io::ErrorKind::Other, "broken"))
    }
}

// A writer that takes nothing.
#[derive(Drop)]
struct Closed;

impl Write for Closed {
    fn write(&mut self, _: &[u8]) -> io::Result<usize> {
        Ok(0)
    }

    fn flush(&mut self) -> io::Result<()> {
        Ok(())
    }
}

#[test]
fn each_status_has_its_number(rt: HostRuntime) {
    for (status, number) in [
        (Status::Done, 0),
        (Status::Unfinished, 1),
        (Status::Usage, 2),
        (Status::Script, 3),
        (Status::ReadFault, 4),
        (Status::WriteFault, 5),
        (Status::OutOfMemory, 6),
        (Status::Unsound, 7),
    ] {
        assert_eq!(rt; status.number(), number);
    }
}

#[test]
fn a_reader_is_read_to_its_end_or_its_fault(rt: HostRuntime) -> Result<(), Fail> {
    let mut whole = StdSource::new(b"three words here".as_slice());
    let bytes = read_all(rt.alloc(), &mut whole, 16)?;
    assert_eq!(rt; bytes.as_slice(), b"three words here".as_slice());

    let mut breaking = StdSource::new(Breaking { reads: 0 });
    assert!(rt;
        matches!(
            read_all(rt.alloc(), &mut breaking, 16),
            Err(ReadEnd::ReadFault)
        )
    );
    Ok(())
}

#[test]
fn a_writer_takes_all_or_fails(rt: HostRuntime) -> Result<(), Fail> {
    let mut written = Vec::new(rt.alloc());
    let mut sink = StdSink::new(&mut written);
    assert_eq!(rt; write_all(&mut sink, b"all of it"), Ok(()));
    assert_eq!(rt; written.as_slice(), b"all of it".as_slice());

    let mut closed = StdSink::new(Closed);
    assert_eq!(rt; write_all(&mut closed, b"x"), Err(WriteFault));
    assert_eq!(rt; write_all(&mut closed, b""), Ok(()));
    Ok(())
}

#[test]
fn a_limit_is_kept(rt: HostRuntime) -> Result<(), Fail> {
    let alloc = rt.alloc();
    for (limit, fits) in [(0usize, false), (4, false), (5, true), (6, true)] {
        let mut source = SafeSource::new(Vec::from_slice(alloc, b"hello")?);
        match read_all(alloc, &mut source, limit) {
            Ok(bytes) => {
                assert!(rt; fits);
                assert_eq!(rt; bytes.as_slice(), b"hello".as_slice());
            }
            Err(end) => {
                assert!(rt; !fits);
                assert_eq!(rt; end, ReadEnd::TooLong);
            }
        }
    }
    Ok(())
}

#[test]
fn a_sink_holds_what_it_has_room_for(rt: HostRuntime) -> Result<(), Fail> {
    let mut sink = SafeSink::with_room(rt.alloc(), 8)?;
    assert_eq!(rt; write_all(&mut sink, b"hello"), Ok(()));
    assert_eq!(rt; write_all(&mut sink, b" world"), Err(WriteFault));
    assert_eq!(rt; sink.bytes(), b"hello wo".as_slice());
    Ok(())
}

#[test]
fn reading_and_writing_fail_in_mid_stream(rt: HostRuntime) -> Result<(), Fail> {
    let alloc = rt.alloc();
    let text = b"seventeen letters";
    for (call, ends) in [(0u64, false), (2, false), (5, false), (6, true)] {
        let fails = Vec::from_slice(alloc, &[call])?;
        let mut source = MemSource::new(Vec::from_slice(alloc, text)?, 4, fails);
        match read_all(alloc, &mut source, 100) {
            Ok(bytes) => assert_eq!(rt; bytes.as_slice(), text.as_slice()),
            Err(end) => {
                assert!(rt; !ends);
                assert_eq!(rt; end, ReadEnd::ReadFault);
            }
        }
    }
    for (call, held) in [(0u64, 0usize), (2, 8), (4, 16), (5, 17)] {
        let fails = Vec::from_slice(alloc, &[call])?;
        let mut sink = MemSink::with_room(alloc, 17, 4, fails)?;
        let whole = write_all(&mut sink, text).is_ok();
        assert_eq!(rt; whole, held == 17);
        assert_eq!(rt; sink.bytes(), &text[..held]);
    }
    Ok(())
}
