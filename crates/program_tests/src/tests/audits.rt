//! Audits of a worked run and its report, as they stand and with a line injured.
use super::words;
use example_reports::{TWO_NODES, TWO_NODES_REPORT};
use std::test::Fail;
use zeus_cli::zeus_top;
use zeus_io::{SafeSink, SafeSource, Status};

#[test]
fn the_first_line_that_cannot_be_true_is_told(rt: HostRuntime) -> Result<(), Fail> {
    let alloc = rt.alloc();
    let audit = words(alloc, &["audit"])?;
    let front = TWO_NODES_REPORT
        .strip_suffix("copy x 1 valid 1 8\nend\n")
        .expect(&rt, "a last copy");
    for (script, report, rest, line, end) in [
        (TWO_NODES, TWO_NODES_REPORT, "", "audit ok\n", Status::Done),
        (TWO_NODES, "", "", "audit 1 form\n", Status::Unsound),
        (
            TWO_NODES,
            front,
            "copy x 1 valid 1 9\nend\n",
            "audit 21 copy\n",
            Status::Unsound,
        ),
        (
            TWO_NODES,
            TWO_NODES_REPORT,
            "end\n",
            "audit 23 form\n",
            Status::Unsound,
        ),
        ("", "", "", "script 1 missing\n", Status::Script),
        (
            "zeus 1\nnodes 9\nend\n",
            TWO_NODES_REPORT,
            "",
            "script 2 range\n",
            Status::Script,
        ),
    ] {
        let both = format!(in alloc; "{script}{report}{rest}")?;
        let mut source = SafeSource::new(Vec::from_slice(alloc, both.as_bytes())?);
        let mut sink = SafeSink::with_room(alloc, 100)?;
        let status = zeus_top(alloc, &audit, &mut source, &mut sink);
        assert_eq!(rt; status, end);
        assert_eq!(rt; sink.bytes(), line.as_bytes());
    }
    Ok(())
}
