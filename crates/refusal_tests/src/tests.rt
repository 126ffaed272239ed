use example_reports::TWO_NODES;
use std::alloc::{AllocError, Global};
use std::test::Fail;
use zeus_cli::zeus_top;
use zeus_io::{MemSource, SafeSink, SafeSource, Status};

fn words(alloc: Global, texts: &[&str]) -> Result<Vec<String>, AllocError> {
    let mut all = Vec::new(alloc);
    for text in texts {
        all.push(String::from_str(alloc, *text)?)?;
    }
    Ok(all)
}

#[test]
fn each_front_of_a_script_wants_a_line_or_its_end(rt: HostRuntime) -> Result<(), Fail> {
    let alloc = rt.alloc();
    let run = words(alloc, &["run"])?;
    let mut front = Vec::new(alloc);
    let mut line: u32 = 1;
    let mut kind = "missing";
    for byte in TWO_NODES.as_bytes() {
        let mut source = SafeSource::new(Vec::from_slice(alloc, front.as_slice())?);
        let mut sink = SafeSink::with_room(alloc, 100)?;
        let status = zeus_top(alloc, &run, &mut source, &mut sink);
        let expected = format!(in alloc; "script {line} {kind}\n")?;
        assert_eq!(rt; status, Status::Script);
        assert_eq!(rt; sink.bytes(), expected.as_bytes());
        front.push(*byte)?;
        if *byte == b'\n' {
            line = line.wrapping_add(1);
            kind = "missing";
        } else {
            kind = "line end";
        }
    }
    Ok(())
}

#[test]
fn other_words_get_the_line_usage(rt: HostRuntime) -> Result<(), Fail> {
    let alloc = rt.alloc();
    for texts in [
        ["walk"].as_slice(),
        &["run", "x"],
        &["lease", "run"],
        &["audit", ""],
        &["storm", "01"],
        &["storm", "9", "1", "1", "1", "0", "0", "0", "7"],
        &["storm", "1", "1", "1", "1", "0", "0", "0", "07"],
        &["storm", "1", "1", "1", "1", "0", "0", "0", "7", "7"],
        &[],
    ] {
        let mut source = SafeSource::new(Vec::from_slice(alloc, b"zeus 1\n")?);
        let mut sink = SafeSink::with_room(alloc, 100)?;
        let status = zeus_top(alloc, &words(alloc, texts)?, &mut source, &mut sink);
        assert_eq!(rt; status, Status::Usage);
        assert_eq!(rt; sink.bytes(), b"usage\n".as_slice());
    }
    Ok(())
}

#[test]
fn other_bytes_get_the_line_script(rt: HostRuntime) -> Result<(), Fail> {
    let alloc = rt.alloc();
    let run = words(alloc, &["run"])?;
    let head = "zeus 1\nnodes 1\nslots 1\ndirectory 0\n";
    for (text, line) in [
        ("", "script 1 missing\n"),
        ("zeus 1\nnodes 2", "script 2 line end\n"),
        ("zeus 1\nnodes 9\n", "script 2 range\n"),
        ("zeus 1\nnodes 02\n", "script 2 number\n"),
        ("zeus 3\n", "script 1 word\n"),
    ] {
        let bytes = Vec::from_slice(alloc, text.as_bytes())?;
        let mut source = MemSource::new(bytes, 7, Vec::new(alloc));
        let mut sink = SafeSink::with_room(alloc, 100)?;
        let status = zeus_top(alloc, &run, &mut source, &mut sink);
        assert_eq!(rt; status, Status::Script, "{text}");
        assert_eq!(rt; sink.bytes(), line.as_bytes());
    }
    for (rest, line) in [
        ("", "script 5 missing\n"),
        ("object a23456789012345678 5 0\n", "script 5 name\n"),
        ("object x 5 0 0\n", "script 5 twice\n"),
        ("object x 5 0\nrun\nend", "script 7 line end\n"),
        ("object x 5 0\nrun\nend\n ", "script 8 extra\n"),
        ("object x 5 0\ntx 0 0 get y\n", "script 6 unknown\n"),
        ("object x 5 0\nrun\ntick 1\nend\n", "script 7 range\n"),
    ] {
        let text = format!(in alloc; "{head}{rest}")?;
        let bytes = Vec::from_slice(alloc, text.as_bytes())?;
        let mut source = MemSource::new(bytes, 7, Vec::new(alloc));
        let mut sink = SafeSink::with_room(alloc, 100)?;
        let status = zeus_top(alloc, &run, &mut source, &mut sink);
        assert_eq!(rt; status, Status::Script, "{rest}");
        assert_eq!(rt; sink.bytes(), line.as_bytes());
    }
    Ok(())
}
