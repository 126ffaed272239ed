//! Typical calls: two whole scripts, faults of each kind, and the limits.
use std::alloc::Global;
use std::process::Abort;
use std::test::Fail;
use zeus_base::NodeId;
use zeus_lease::{
    Kind, LeaseScript, LeaseStep, Leases, ReadScript, ScriptFault, lease_text, read_leases,
};

// The script that this text is.
fn script(rt: &impl Abort, alloc: Global, text: &str) -> LeaseScript {
    read_leases(alloc, text.as_bytes()).expect(rt, "a script")
}

// What is printed for the script that this text is.
fn printed(rt: &impl Abort, alloc: Global, text: &str) -> Vec<u8> {
    match read_leases(alloc, text.as_bytes()) {
        Ok(script) => lease_text(alloc, &script).expect(rt, "memory"),
        Err(_) => rt.abort(),
    }
}

// A lease that holds until its end, and a view that waits for the service's own clock.
static LEASE: &str =
    "leases 1\nnodes 2\nlength 100\npercent 10\nask 0\nhear 0\ntake 0\npass 99 99 108\nact 0\n\
    view 1\npass 2 2 2\nview 1\nact 0\nask 0\nhear 0\npass 10 10 12\nend\n";

static LEASE_ANSWERS: &str =
    "lease 1\n0 ask 0 = asked 0\n1 hear 0 = granted 0\n2 take 0 = held 100\n\
    3 pass 99 99 108 = passed\n4 act 0 = acted\n5 view 1 = not stopped 0\n6 pass 2 2 2 = passed\n\
    7 view 1 = installed 2\n8 act 0 = ended\n9 ask 0 = ended\n10 hear 0 = dropped\n\
    11 pass 10 10 12 = skewed 2 0\nend\n";

// Nothing was asked for, so nobody acts and a view may leave anybody out.
static NO_LEASE: &str =
    "leases 1\nnodes 2\nlength 100\npercent 10\nact 0\nhear 0\ntake 0\nview 1\nend\n";

static NO_LEASE_ANSWERS: &str = "lease 1\n0 act 0 = no lease\n1 hear 0 = no ask 0\n\
    2 take 0 = no grant 0\n3 view 1 = installed 2\nend\n";

// What else a view answers, a lease that is taken late, and an end that a later lease moves.
static LATE: &str =
    "leases 1\nnodes 3\nlength 10\npercent 0\nask 1\nhear 0\npass 4 4 4 4\nask 1\nhear 1\ntake 1\n\
    take 0\nview\nview 0 2\npass 10 10 10 10\nview 0 2\nview 1\nask 1\nact 1\nask 1\nview 0 2\nend\n";

static LATE_ANSWERS: &str =
    "lease 1\n0 ask 1 = asked 0\n1 hear 0 = granted 0\n2 pass 4 4 4 4 = passed\n\
    3 ask 1 = asked 1\n4 hear 1 = granted 1\n5 take 1 = held 14\n6 take 0 = held 14\n7 view = empty\n\
    8 view 0 2 = not stopped 1\n9 pass 10 10 10 10 = passed\n10 view 0 2 = installed 2\n\
    11 view 1 = not member 1\n12 ask 1 = asked 2\n13 act 1 = ended\n14 ask 1 = ended\n\
    15 view 0 2 = installed 3\nend\n";

#[test]
fn each_step_is_answered(rt: HostRuntime) {
    let rows = [
        (LEASE, LEASE_ANSWERS),
        (NO_LEASE, NO_LEASE_ANSWERS),
        (LATE, LATE_ANSWERS),
    ];
    for (text, answers) in rows.iter() {
        let printed = printed(&rt, rt.alloc(), text);
        assert_eq!(rt; printed.as_slice(), answers.as_bytes());
    }
}

#[test]
fn numbers_and_steps_are_read(rt: HostRuntime) {
    let text =
        "leases 1\nnodes 8\nlength 4294967295\npercent 100\nhear 4294967295\nview 0 7\nend\n";
    let script = script(&rt, rt.alloc(), text);
    assert!(rt; script.nodes == 8 && script.length == 4_294_967_295 && script.percent == 100);
    let [LeaseStep::Hear(number), LeaseStep::View(members)] = script.steps.as_slice() else {
        rt.abort()
    };
    assert!(rt; *number == 4_294_967_295 && members.bits == 0b1000_0001);
}

// The fault of these bytes.
fn fault(rt: &impl Abort, alloc: Global, bytes: &[u8]) -> ScriptFault {
    match read_leases(alloc, bytes) {
        Err(ReadScript::Fault(fault)) => fault,
        _ => rt.abort(),
    }
}

#[test]
fn the_first_faulty_line_is_told(rt: HostRuntime) {
    let rows = [
        ("", 1, Kind::Missing),
        ("leases 1", 1, Kind::LineEnd),
        ("leases 2\n", 1, Kind::Word),
        ("zeus 1\n", 1, Kind::Word),
        ("leases 1\n", 2, Kind::Missing),
        ("leases 1\nnodes 9\n", 2, Kind::Range),
        ("leases 1\nnodes 02\n", 2, Kind::Number),
        ("leases 1\nnodes 2 \n", 2, Kind::Word),
        ("leases 1\nnodes 2\nlength 0\n", 3, Kind::Range),
        ("leases 1\nnodes 2\nlength 4294967296\n", 3, Kind::Range),
        ("leases 1\nnodes 2\nlength 1\npercent 101\n", 4, Kind::Range),
        ("leases 1\nnodes 2\nlength 1\npercent\n", 4, Kind::Word),
    ];
    for (text, line, kind) in rows.iter() {
        let fault = fault(&rt, rt.alloc(), text.as_bytes());
        assert!(rt; fault.line == *line && fault.kind == *kind);
    }
}

#[test]
fn the_first_faulty_step_is_told(rt: HostRuntime) -> Result<(), Fail> {
    let rows = [
        ("tick 0\n", Kind::Word),
        ("pass 1 2\n", Kind::Word),
        ("pass 1 2 3 4\n", Kind::Word),
        ("pass 1 2 4294967296\n", Kind::Range),
        ("ask 2\n", Kind::Range),
        ("ask\n", Kind::Word),
        ("hear x\n", Kind::Number),
        ("take 4294967296\n", Kind::Range),
        ("act 0 1\n", Kind::Word),
        ("view 1 0\n", Kind::Twice),
        ("view 0 0\n", Kind::Twice),
        ("view 0 2\n", Kind::Range),
        ("view \n", Kind::Number),
        ("end 1\n", Kind::Word),
        ("ask 1", Kind::LineEnd),
        ("", Kind::Missing),
    ];
    for (text, kind) in rows.iter() {
        let mut bytes = Vec::from_slice(rt.alloc(), b"leases 1\nnodes 2\nlength 1\npercent 0\n")?;
        bytes.extend_from_slice(text.as_bytes())?;
        let fault = fault(&rt, rt.alloc(), bytes.as_slice());
        assert!(rt; fault.line == 5 && fault.kind == *kind);
    }
    let fault = fault(
        &rt,
        rt.alloc(),
        b"leases 1\nnodes 2\nlength 1\npercent 0\nend\n\n",
    );
    assert!(rt; fault.line == 6 && fault.kind == Kind::Extra);
    Ok(())
}

#[test]
fn steps_and_bytes_have_a_limit(rt: HostRuntime) -> Result<(), Fail> {
    let mut bytes = Vec::from_slice(rt.alloc(), b"leases 1\nnodes 2\nlength 1\npercent 0\n")?;
    for _ in 0..50_000 {
        bytes.extend_from_slice(b"act 1\n")?;
    }
    let limit = fault(&rt, rt.alloc(), bytes.as_slice());
    assert!(rt; limit.line == 50_005 && limit.kind == Kind::Missing);
    bytes.extend_from_slice(b"act x\n")?;
    let more = fault(&rt, rt.alloc(), bytes.as_slice());
    assert!(rt; more.line == 50_005 && more.kind == Kind::Long);
    let many = Vec::from_elem(rt.alloc(), b'\n', 4_194_305)?;
    let size = fault(&rt, rt.alloc(), many.as_slice());
    assert!(rt; size.line == 0 && size.kind == Kind::Size);
    Ok(())
}

#[test]
fn a_node_without_a_lease_may_not_act(rt: HostRuntime) -> Result<(), Fail> {
    let leases = Leases::new(rt.alloc(), 1, 5, 0)?;
    assert!(rt; !leases.may_act(NodeId(0)));
    Ok(())
}
