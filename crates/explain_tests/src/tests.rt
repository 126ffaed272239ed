use script_diagnostic::{Status, explain, explain_input};
use std::alloc::Global;
use std::test::Fail;
use zeus_io::{MemSink, MemSource};

const HEAD: &str = "zeus 2\nnodes 2\nslots 1\ndirectory 0\nobject x 5 0 1\n";

// The explanation of these lines behind the first ones of a script.
fn behind_head(alloc: Global, lines: &str) -> Result<Vec<u8>, Fail> {
    let mut text = String::from_str(alloc, HEAD)?;
    text.push_str(lines)?;
    Ok(explain(alloc, text.as_bytes())?)
}

#[test]
fn a_script_has_no_explanation(rt: HostRuntime) -> Result<(), Fail> {
    let text = behind_head(rt.alloc(), "tx 0 0 get x\nrun\nbegin 0\nend\n")?;
    assert_eq!(rt; text.as_slice(), b"".as_slice());
    Ok(())
}

#[test]
fn a_line_that_does_not_fit_its_place_is_told(rt: HostRuntime) -> Result<(), Fail> {
    for (lines, wanted) in [
        (
            "",
            "line 6, \"\": the input ends here; wanted: object tx run\n",
        ),
        ("run", "line 6, \"run\": no line feed ends this line\n"),
        (
            "run\nend\nmore\n",
            "line 8, \"more\": nothing may follow the line 'end'\n",
        ),
        (
            "run\nwalk\n",
            "line 7, \"walk\": word 1, \"walk\", does not fit; wanted: end begin try deliver tick stop view install\n",
        ),
        (
            "run\r\n",
            "line 6, \"run\\x0D\": word 1, \"run\\x0D\", does not fit; wanted: object tx run; this line ends with CR and LF: write LF alone\n",
        ),
    ] {
        let text = behind_head(rt.alloc(), lines)?;
        assert_eq!(rt; text.as_slice(), wanted.as_bytes());
    }
    Ok(())
}

#[test]
fn each_kind_is_told(rt: HostRuntime) -> Result<(), Fail> {
    for (lines, front) in [
        (
            "object y ' 0\n",
            "line 6, \"object y ' 0\": word 3, \"'\", has no text of 1 to 32 bytes",
        ),
        (
            "tx 00 0 get x\n",
            "line 6, \"tx 00 0 get x\": word 2, \"00\", is no number: digits",
        ),
        (
            "run\nbegin 0\n",
            "line 7, \"begin 0\": word 2, \"0\", is out of its range; wanted: begin TX\n",
        ),
        (
            "object 1y 5 0\n",
            "line 6, \"object 1y 5 0\": word 2, \"1y\", is no name: a letter",
        ),
        (
            "object y 5 1 1\n",
            "line 6, \"object y 5 1 1\": word 5, \"1\", comes a second time",
        ),
        (
            "tx 0 0 get y\n",
            "line 6, \"tx 0 0 get y\": word 5, \"y\", is the name of no object that is declared above; wanted: tx NODE SLOT",
        ),
        (
            "run\ntry  0\n",
            "line 7, \"try  0\": word 2, \"\", is no number: digits",
        ),
    ] {
        let text = behind_head(rt.alloc(), lines)?;
        assert!(rt; text.as_slice().starts_with(front.as_bytes()));
    }
    Ok(())
}

#[test]
fn a_word_that_does_not_fit_or_is_missing_is_told(rt: HostRuntime) -> Result<(), Fail> {
    for (lines, front) in [
        (
            "tx 0 0 gte x\n",
            "line 6, \"tx 0 0 gte x\": word 4, \"gte\", does not fit; wanted: tx NODE SLOT",
        ),
        (
            "tx 0 0 get x , get x\n",
            "line 6, \"tx 0 0 get x , get x\": word 6, \",\", does not fit; wanted: tx NODE SLOT",
        ),
        (
            "tx 0 0 get x ; sub x\n",
            "line 6, \"tx 0 0 get x ; sub x\": word 7, \"sub\", does not fit; wanted: tx NODE SLOT",
        ),
        (
            "tx 0 0 after get x\n",
            "line 6, \"tx 0 0 after get x\": word 5, \"get\", is no number: digits",
        ),
        (
            "tx 0 0 get x ;\n",
            "line 6, \"tx 0 0 get x ;\": a word is missing at its end; wanted: tx NODE SLOT",
        ),
        (
            "tx 0 0\n",
            "line 6, \"tx 0 0\": a word is missing at its end; wanted: tx NODE SLOT",
        ),
        (
            "tx\n",
            "line 6, \"tx\": a word is missing at its end; wanted: tx NODE SLOT",
        ),
        (
            "run 1\n",
            "line 6, \"run 1\": word 2, \"1\", does not fit; wanted: run alone\n",
        ),
        (
            "run\ntick 0 0\n",
            "line 7, \"tick 0 0\": word 3, \"0\", does not fit; wanted: tick NODE\n",
        ),
        (
            "run\ninstall 0\n",
            "line 7, \"install 0\": a word is missing at its end; wanted: install NODE EPOCH\n",
        ),
    ] {
        let text = behind_head(rt.alloc(), lines)?;
        assert!(rt; text.as_slice().starts_with(front.as_bytes()));
    }
    Ok(())
}

#[test]
fn a_first_line_is_explained(rt: HostRuntime) -> Result<(), Fail> {
    for (bytes, wanted) in [
        (
            b"zeus 3\n".as_slice(),
            b"line 1, \"zeus 3\": word 2, \"3\", does not fit; wanted: zeus 1 or zeus 2\n".as_slice(),
        ),
        (
            b"zeus\n".as_slice(),
            b"line 1, \"zeus\": a word is missing at its end; wanted: zeus 1 or zeus 2\n".as_slice(),
        ),
        (
            b"\xEF\xBB\xBFzeus 1\n".as_slice(),
            b"line 1, \"\\xEF\\xBB\\xBFzeus 1\": word 1, \"\\xEF\\xBB\\xBFzeus\", does not fit; wanted: zeus; the input begins with a byte order mark: leave it out\n".as_slice(),
        ),
    ] {
        let text = explain(rt.alloc(), bytes)?;
        assert_eq!(rt; text.as_slice(), wanted);
    }
    Ok(())
}

#[test]
fn a_faulty_word_is_told_by_what_the_lines_before_say(rt: HostRuntime) -> Result<(), Fail> {
    for (bytes, front) in [
        (
            "zeus 1 1\n",
            "line 1, \"zeus 1 1\": word 3, \"1\", does not fit;",
        ),
        (
            "zeus 1\nnodes 2\nslots 1\ndirectory\n",
            "line 4, \"directory\": a word is missing at its end;",
        ),
        (
            "zeus 1\nnodes 2\nslots 1\ndirectory 0 2\n",
            "line 4, \"directory 0 2\": word 3, \"2\", is out of its range;",
        ),
        (
            "zeus 1\nnodes 2\nslots 1\ndirectory 0 1 1\n",
            "line 4, \"directory 0 1 1\": word 4, \"1\", does not fit;",
        ),
        (
            "zeus 1\nnodes 1\nslots 1\ndirectory 0\nobject x 5 0\ntx 0 0 get x ; same x 5\n",
            "line 6, \"tx 0 0 get x ; same x 5\": word 7, \"same\", does not fit;",
        ),
        (
            "zeus 2\nnodes 1\nslots 1\ndirectory 0\nobject x 5 0\ntx 0 0 get x ; same x\n",
            "line 6, \"tx 0 0 get x ; same x\": a word is missing at its end;",
        ),
        (
            "zeus 2\nnodes 1\nslots 1\ndirectory 0\nobject x 5 0\ntx 0 0 get x\ntx 0 0 after 1 get x\n",
            "line 7, \"tx 0 0 after 1 get x\": word 5, \"1\", is out of its range;",
        ),
        (
            "zeus 2\nnodes 1\nslots 1\ndirectory 0\nobject x 5 0\ntx 0 0 get x\ntx 0 0 after 0 gets x\n",
            "line 7, \"tx 0 0 after 0 gets x\": word 6, \"gets\", does not fit;",
        ),
    ] {
        let text = explain(rt.alloc(), bytes.as_bytes())?;
        assert!(rt; text.as_slice().starts_with(front.as_bytes()));
    }
    Ok(())
}

#[test]
fn sizes_are_told(rt: HostRuntime) -> Result<(), Fail> {
    let alloc = rt.alloc();
    let mut line = String::from_str(alloc, "tx 0 0 get x")?;
    for _ in 0..16 {
        line.push_str(" ; get x")?;
    }
    line.push_str("\n")?;
    let text = behind_head(alloc, line.as_str())?;
    let front =
        b"line 6, \"tx 0 0 get x ; get x ; get x ; get x ; get x ; get x ; get x\" ..: word 52, \"get\", is more than there may be; wanted: tx NODE SLOT";
    assert!(rt; text.as_slice().starts_with(front));

    let zeros = vec![in alloc; 0; 4_194_305]?;
    let text = explain(alloc, &zeros)?;
    assert_eq!(rt;
        text.as_slice(),
        b"a script has at most 4,194,304 bytes\n".as_slice()
    );
    Ok(())
}

#[test]
fn the_program_writes_the_line(rt: HostRuntime) -> Result<(), Fail> {
    let alloc = rt.alloc();
    let mut source = MemSource::new(Vec::from_slice(alloc, b"zeus\n")?, 3, Vec::new(alloc));
    let mut sink = MemSink::with_room(alloc, 200, 7, Vec::new(alloc))?;
    let status = explain_input(alloc, &mut source, &mut sink);
    assert!(rt; status.number() == Status::Done.number());
    let wanted = b"line 1, \"zeus\": a word is missing at its end; wanted: zeus 1 or zeus 2\n";
    assert_eq!(rt; sink.bytes(), wanted.as_slice());
    Ok(())
}

#[test]
fn no_word_is_named_where_there_is_no_room_to_try_one(rt: HostRuntime) -> Result<(), Fail> {
    let alloc = rt.alloc();
    for (most, wanted) in [
        (
            4_194_298,
            b"line 1, \"walk\": word 1, \"walk\", does not fit; wanted: zeus\n".as_slice(),
        ),
        (
            4_194_299,
            b"line 1, \"walk\": a word does not fit, or one is missing; wanted: zeus\n".as_slice(),
        ),
    ] {
        let mut bytes = Vec::from_slice(alloc, b"walk\n")?;
        bytes.resize(most, 0)?;
        let text = explain(alloc, &bytes)?;
        assert_eq!(rt; text.as_slice(), wanted);
    }
    Ok(())
}
