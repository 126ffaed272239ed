mod examples;

use examples::{
    LATE_VALIDATION, LOST_OBJECT, ONE_NODE, OWNERSHIP_MOVES, READER_COMES_AND_GOES,
    REPEATED_PACKETS, SECOND_ENTRY_FIRST, SURVIVOR_REPLAYS, TEXTS_AS_VALUES, TWO_DRIVERS,
    TWO_NODES,
};
use script_lang::{Kind, ScriptFault};
use std::alloc::{AllocError, Global};
use std::process::Abort;
use std::test::Fail;
use zeus_audit::{ReadScript, audit_input, verdict_line};

/// Where the report begins in the input with two nodes.
const SCRIPT_LINES: usize = 16;

// The line that the verdict of an input is told by; none if its script has a fault.
fn told(alloc: Global, bytes: &[u8]) -> Result<Option<Vec<u8>>, Fail> {
    match audit_input(alloc, bytes) {
        Ok(verdict) => Ok(Some(verdict_line(alloc, &verdict)?)),
        Err(ReadScript::Fault(_)) => Ok(None),
        Err(ReadScript::NoMemory) => Err(AllocError.into()),
    }
}

// The input with two nodes, with these lines in place of the line of this number of its report.
fn injured(alloc: Global, number: usize, lines: &str) -> Result<Vec<u8>, AllocError> {
    let mut bytes = Vec::new(alloc);
    for (place, line) in TWO_NODES.split('\n').enumerate() {
        if place.wrapping_sub(SCRIPT_LINES) == number.wrapping_sub(1) {
            bytes.extend_from_slice(lines.as_bytes())?;
        } else if !line.is_empty() {
            bytes.extend_from_slice(line.as_bytes())?;
            bytes.push(b'\n')?;
        }
    }
    Ok(bytes)
}

// Each row has a line of the report, what stands in its place, and what the audit tells.
fn each_is_told(rt: &impl Abort, alloc: Global, rows: &[(usize, &str, &str)]) -> Result<(), Fail> {
    for (number, lines, verdict) in rows {
        let wanted = format!(in alloc; "audit {verdict}\n")?;
        let found = told(alloc, &injured(alloc, *number, *lines)?)?.expect(rt, "a script");
        assert_eq!(rt; found.as_slice(), wanted.as_bytes(), "{number} {lines}");
    }
    Ok(())
}

#[test]
fn the_reports_of_the_examples_are_sound(rt: HostRuntime) -> Result<(), Fail> {
    let alloc = rt.alloc();
    for input in [
        LATE_VALIDATION,
        ONE_NODE,
        OWNERSHIP_MOVES,
        READER_COMES_AND_GOES,
        REPEATED_PACKETS,
        SECOND_ENTRY_FIRST,
        SURVIVOR_REPLAYS,
        TEXTS_AS_VALUES,
        TWO_DRIVERS,
        TWO_NODES,
        LOST_OBJECT,
    ] {
        let found = told(alloc, input.as_bytes())?.expect(&rt, "a script");
        assert_eq!(rt; found.as_slice(), b"audit ok\n".as_slice(), "{input}");
    }
    Ok(())
}

#[test]
fn lines_of_steps_out_of_their_shape(rt: HostRuntime) -> Result<(), Fail> {
    let rows = [
        (1, "report 2\n", "1 form"),
        (1, "", "1 form"),
        (2, "0 begin 1 = begun\n", "2 form"),
        (2, "0 begin 0 = \n", "2 form"),
        (2, "0 begin 0 =begun\n", "2 form"),
        (3, "2 try 0 0 = committed 0\n", "3 form"),
        (
            3,
            "1 try 0 0 = committed 0\n1 try 0 0 = committed 0\n",
            "4 form",
        ),
        (3, "", "4 form"),
        (2, "> 0 1 0 1 recovered\n0 begin 0 = begun\n", "2 form"),
        (8, "* 0 ok 08\n", "8 form"),
        (8, "* 0 fine 8\n", "8 form"),
        (8, "* 0 ok 'a\n", "8 form"),
        (8, "*  0 ok 8\n", "8 form"),
        (8, "* 0 failed\n", "8 form"),
        (8, "* 0\n", "8 form"),
        (8, "> x\n* 0 ok 8\n", "9 form"),
        (9, "! 0 \n", "9 form"),
        (9, "! 00\n", "9 form"),
        (9, "> x\n! 0\n", "10 form"),
        (10, ">0 1\n", "10 form"),
        (16, "history 0 x\n", "16 form"),
        (16, "history 0  1\n", "16 form"),
        (16, "", "16 form"),
        (17, "tx 0 done\n", "17 form"),
    ];
    each_is_told(&rt, rt.alloc(), &rows)
}

#[test]
fn lines_of_the_end_out_of_their_shape(rt: HostRuntime) -> Result<(), Fail> {
    let rows = [
        (17, "tx 1 acked\n", "17 form"),
        (17, "tx 0 acked \n", "17 form"),
        (17, "", "17 form"),
        (18, "tx 1 acked\ntx 2 new\n", "19 form"),
        (19, "object y 0 0,1\n", "19 form"),
        (19, "object x 2 0,1\n", "19 form"),
        (19, "object x 0 1,0\n", "19 form"),
        (19, "object x 0 0,0\n", "19 form"),
        (19, "object x 0 0,2\n", "19 form"),
        (19, "object x 0\n", "19 form"),
        (19, "object x 0 0,1,\n", "19 form"),
        (19, "object x 0 0,1\nobject x 0 0,1\n", "20 form"),
        (20, "copy x 1 valid 1 8\n", "21 form"),
        (20, "copy x 0 valid 1 8\ncopy x 0 valid 1 8\n", "21 form"),
        (20, "copy y 0 valid 1 8\n", "20 form"),
        (20, "copy x 2 valid 1 8\n", "20 form"),
        (20, "copy x 0 stale 1 8\n", "20 form"),
        (20, "copy x 0 valid 1\n", "20 form"),
        (20, "copy x 0 valid 1 'a\n", "20 form"),
        (20, "copy x 0 valid 1 8 8\n", "20 form"),
        (20, "lost y\n", "20 form"),
        (20, "lost x\n", "21 form"),
        (20, "end\n", "20 form"),
        (22, "end\nend\n", "23 form"),
        (22, "", "22 form"),
        (22, "end", "22 form"),
        (22, "end\n ", "23 form"),
        (22, "end \n", "22 form"),
    ];
    each_is_told(&rt, rt.alloc(), &rows)
}

#[test]
fn points_twice_or_of_what_was_not_begun(rt: HostRuntime) -> Result<(), Fail> {
    let rows = [
        (8, "* 0 ok 8\n* 0 ok 8\n", "9 point"),
        (8, "* 1 ok 8\n", "8 point"),
        (8, "* 2 ok 8\n", "8 point"),
        (2, "0 begin 0 = stopped\n", "8 point"),
        (2, "0 begin 0 = begun \n", "8 point"),
        (8, "* 1 failed 16 1 2 3\n", "8 point"),
    ];
    each_is_told(&rt, rt.alloc(), &rows)
}

#[test]
fn replies_that_are_not_given(rt: HostRuntime) -> Result<(), Fail> {
    let rows = [
        (8, "* 0 ok 9\n", "8 reply"),
        (8, "* 0 ok\n", "8 reply"),
        (8, "* 0 ok 8 8\n", "8 reply"),
        (8, "* 0 failed 0\n", "8 reply"),
        (14, "* 1 ok 5\n", "14 reply"),
        (8, "* 0 failed 300 8\n", "8 reply"),
    ];
    each_is_told(&rt, rt.alloc(), &rows)
}

#[test]
fn acknowledgements_twice_or_before_the_point(rt: HostRuntime) -> Result<(), Fail> {
    let rows = [
        (9, "! 0\n! 0\n", "10 ack"),
        (8, "! 0\n", "8 ack"),
        (9, "! 1\n", "9 ack"),
        (9, "! 2\n", "9 ack"),
        (15, "! 0\n", "15 ack"),
    ];
    each_is_told(&rt, rt.alloc(), &rows)
}

#[test]
fn histories_that_are_not_the_points(rt: HostRuntime) -> Result<(), Fail> {
    let rows = [
        (16, "history 1 0\n", "16 history"),
        (16, "history 0\n", "16 history"),
        (16, "history\n", "16 history"),
        (16, "history 0 1 1\n", "16 history"),
    ];
    each_is_told(&rt, rt.alloc(), &rows)
}

#[test]
fn states_that_do_not_fit(rt: HostRuntime) -> Result<(), Fail> {
    let rows = [
        (9, "", "16 state"),
        (17, "tx 0 passed\n", "17 state"),
        (17, "tx 0 new\n", "17 state"),
        (18, "tx 1 pending\n", "18 state"),
        (18, "tx 1 current\n", "18 state"),
        (18, "tx 1 refused\n", "18 state"),
    ];
    each_is_told(&rt, rt.alloc(), &rows)
}

#[test]
fn owners_that_are_no_replica(rt: HostRuntime) -> Result<(), Fail> {
    let rows = [
        (19, "object x 1 0\n", "19 owner"),
        (19, "object x 0 -\n", "19 owner"),
    ];
    each_is_told(&rt, rt.alloc(), &rows)
}

#[test]
fn copies_that_are_older_or_other(rt: HostRuntime) -> Result<(), Fail> {
    let rows = [
        (21, "copy x 1 valid 1 9\n", "21 copy"),
        (20, "copy x 0 valid 0 5\n", "20 copy"),
        (20, "copy x 0 invalid 0 5\n", "20 copy"),
        (20, "copy x 0 valid 2 8\n", "20 copy"),
        (20, "copy x 0 write 1 9\n", "20 copy"),
        (19, "object x 0 0\n", "21 copy"),
        (19, "object x - -\n", "20 copy"),
    ];
    each_is_told(&rt, rt.alloc(), &rows)
}

#[test]
fn lines_that_are_not_looked_at_or_fit(rt: HostRuntime) -> Result<(), Fail> {
    let rows = [
        (20, "copy x 0 invalid 2 9\n", "ok"),
        (20, "copy x 0 write 7 1\n", "ok"),
        (20, "", "ok"),
        (19, "object x - 0,1\n", "ok"),
        (10, "> nothing is looked at here\n", "ok"),
        (10, "", "ok"),
        (4, "> 0\n> 1\n", "ok"),
        (3, "1 try 0 0 = whatever it was\n", "ok"),
    ];
    each_is_told(&rt, rt.alloc(), &rows)
}

#[test]
fn the_script_ends_at_its_first_line_end(rt: HostRuntime) -> Result<(), Fail> {
    let alloc = rt.alloc();
    for (text, line, kind) in [
        ("", 1, Kind::Missing),
        ("end\n", 1, Kind::Word),
        ("zeus 1\nend", 2, Kind::LineEnd),
        ("zeus 1\nend\nnodes 1\n", 2, Kind::Word),
        ("zeus 1\n end\n", 2, Kind::Word),
    ] {
        match audit_input(alloc, text.as_bytes()) {
            Err(ReadScript::Fault(fault)) => {
                assert_eq!(rt; fault, ScriptFault { line, kind }, "{text}");
            }
            _ => assert!(rt; false, "{text}"),
        }
    }
    Ok(())
}
