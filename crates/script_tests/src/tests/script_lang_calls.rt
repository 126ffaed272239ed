mod worked;

use script_lang::{Kind, Name, ReadScript, Script, ScriptFault, print_script, read_script};
use std::alloc::Global;
use std::process::Abort;
use std::test::Fail;
use worked::WORKED;
use zeus_base::{NodeId, NodeSet, ObjId, ObjectDecl, SlotId, Step, Text, TxId, Value};
use zeus_txn::Op;

// A script with each operation and each step, with texts as values and with a degree.
static EVERYTHING: &str = "zeus 2\nnodes 8\nslots 2\ndirectory 0 3 7\ndegree 4\n\
    object x 'it's 3 0 7\nobject y_2 18446744073709551615 0\ntx 0 0 get x\n\
    tx 7 1 after 0 put y_2 'a ; add x 1 ; need x 0 ; same y_2 7 ; get y_2\nrun\nbegin 1\n\
    try 7 1\ndeliver 7 6 4294967295\ntick 2\nstop 0\nview 1 7\nview\n\
    install 7 4294967295\nend\n";

// The script that these bytes are.
fn script(rt: &impl Abort, alloc: Global, text: &str) -> Script {
    read_script(alloc, text.as_bytes(), false).expect(rt, "a script")
}

#[test]
fn the_first_lines_are_read(rt: HostRuntime) {
    let config = script(&rt, rt.alloc(), EVERYTHING).config;
    assert!(rt; config.version == 2 && config.nodes == 8 && config.slots == 2);
    assert!(rt; config.directory.bits == 0b1000_1001 && config.degree == Some(4));
}

// A value that is a text.
fn text(rt: &impl Abort, bytes: &[u8]) -> Value {
    Value::Text(Text::new(bytes).expect(rt, "a text"))
}

#[test]
fn objects_are_read(rt: HostRuntime) {
    let script = script(&rt, rt.alloc(), EVERYTHING);
    let x = ObjectDecl {
        value: text(&rt, b"it's"),
        owner: NodeId(3),
        replicas: NodeSet { bits: 0b1000_1001 },
    };
    assert!(rt; script.config.objects.get(0) == Some(&x));
    assert!(rt; script.config.objects.len() == 2 && script.names.len() == 2);
}

#[test]
fn transactions_are_read(rt: HostRuntime) {
    let script = script(&rt, rt.alloc(), EVERYTHING);
    let ops = [
        Op::Put(ObjId(1), text(&rt, b"a")),
        Op::Add(ObjId(0), 1),
        Op::Need(ObjId(0), 0),
        Op::Same(ObjId(1), Value::Num(7)),
        Op::Get(ObjId(1)),
    ];
    let second = script.txs.get(1).expect(&rt, "a transaction");
    assert!(rt; second.node == NodeId(7) && second.slot == SlotId(1));
    assert!(rt; second.after == Some(TxId(0)));
    assert!(rt; second.tx.ops() == ops.as_slice());
}

#[test]
fn steps_are_read(rt: HostRuntime) {
    let script = script(&rt, rt.alloc(), EVERYTHING);
    let steps = [
        Step::Begin(TxId(1)),
        Step::Try(NodeId(7), SlotId(1)),
        Step::Deliver(NodeId(7), NodeId(6), 4_294_967_295),
        Step::Tick(NodeId(2)),
        Step::Stop(NodeId(0)),
        Step::View(NodeSet { bits: 0b1000_0010 }),
        Step::View(NodeSet { bits: 0 }),
        Step::Install(NodeId(7), 4_294_967_295),
    ];
    assert!(rt; script.steps.as_slice() == steps.as_slice());
}

// Whether the script that this text is prints back as the text.
fn prints_back(rt: &impl Abort, alloc: Global, text: &str) -> bool {
    let printed = print_script(alloc, &script(rt, alloc, text)).expect(rt, "a text");
    printed.as_slice() == text.as_bytes()
}

#[test]
fn what_was_read_prints_back(rt: HostRuntime) {
    assert!(rt; prints_back(&rt, rt.alloc(), EVERYTHING));
    for text in &WORKED {
        assert!(rt; prints_back(&rt, rt.alloc(), text), "{text}");
    }
}

// The fault of these bytes, if they have one.
fn fault(alloc: Global, bytes: &[u8], live: bool) -> Option<ScriptFault> {
    match read_script(alloc, bytes, live) {
        Err(ReadScript::Fault(fault)) => Some(fault),
        _ => None,
    }
}

// Tells where a text behind these first lines has another fault than the one beside it.
fn check(
    rt: &impl Abort,
    alloc: Global,
    head: &str,
    live: bool,
    table: &[(&str, u32, Kind)],
) -> Result<(), Fail> {
    for (text, line, kind) in table {
        let whole = format!(in alloc; "{head}{text}")?;
        let found = fault(alloc, whole.as_bytes(), live);
        let (line, kind) = (*line, *kind);
        assert_eq!(rt; found, Some(ScriptFault { line, kind }), "{text:?}");
    }
    Ok(())
}

// Faulty texts from the first line on, each with the faulty line and what is wrong there.
static HEAD_FAULTS: [(&str, u32, Kind); 29] = [
    ("", 1, Kind::Missing),
    ("\n", 1, Kind::Word),
    ("zeus 1", 1, Kind::LineEnd),
    ("zeus 01\n", 1, Kind::Word),
    ("zeus 2\n", 2, Kind::Missing),
    ("zeus 3\n", 1, Kind::Word),
    ("zeus\n", 1, Kind::Word),
    ("zeus 1 \n", 1, Kind::Word),
    ("zeus 1\nnodes 2", 2, Kind::LineEnd),
    ("zeus 1\n", 2, Kind::Missing),
    ("zeus 1\nnodes 9\n", 2, Kind::Range),
    ("zeus 1\nnodes 0\n", 2, Kind::Range),
    ("zeus 1\nnodes 02\n", 2, Kind::Number),
    ("zeus 1\nnodes +2\n", 2, Kind::Number),
    ("zeus 1\nnodes  2\n", 2, Kind::Number),
    ("zeus 1\nnodes 18446744073709551616\n", 2, Kind::Number),
    ("zeus 1\nnodes 18446744073709551615\n", 2, Kind::Range),
    ("zeus 1\nnodes\n", 2, Kind::Word),
    ("zeus 1\nnodes 2 2\n", 2, Kind::Word),
    ("zeus 1\nslots 2\n", 2, Kind::Word),
    ("zeus 1\nnodes 2\nslots 9\n", 3, Kind::Range),
    ("zeus 1\nnodes 2\nslots 1\ndirectory\n", 4, Kind::Word),
    ("zeus 1\nnodes 2\nslots 1\ndirectory 2\n", 4, Kind::Range),
    ("zeus 1\nnodes 2\nslots 1\ndirectory 1 0\n", 4, Kind::Twice),
    ("zeus 1\nnodes 2\nslots 1\ndirectory 0 0\n", 4, Kind::Twice),
    ("zeus 1\nnodes 2\nslots 1\ndirectory 0 1 x\n", 4, Kind::Word),
    ("zeus 1\nnodes 2\nslots 1\ndirectory 0 \n", 4, Kind::Number),
    (
        "zeus 1\nnodes 2\nslots 1\ndirectory 0\nrun\n",
        5,
        Kind::Word,
    ),
    (
        "zeus 1\nnodes 2\nslots 1\ndirectory 0\ntx 0 0 get x\n",
        5,
        Kind::Word,
    ),
];

#[test]
fn faults_of_the_head(rt: HostRuntime) -> Result<(), Fail> {
    check(&rt, rt.alloc(), "", false, &HEAD_FAULTS)
}

// The first lines, with one object.
const HEAD: &str = "zeus 1\nnodes 2\nslots 1\ndirectory 0\nobject x 5 0 1\n";

// The same of texts behind these lines.
static BODY_FAULTS: [(&str, u32, Kind); 45] = [
    ("object x 5 0\n", 6, Kind::Twice),
    ("object abcdefghijklmnopq 5 0\n", 6, Kind::Name),
    ("object 4x 5 0\n", 6, Kind::Name),
    ("object  5 0\n", 6, Kind::Name),
    ("object y 'a 0\n", 6, Kind::Number),
    ("object y 5 2\n", 6, Kind::Range),
    ("object y 5 0 0\n", 6, Kind::Twice),
    ("object y 5 0 2\n", 6, Kind::Range),
    ("object y 5 0 1 1\n", 6, Kind::Twice),
    ("object y 5 0 x\n", 6, Kind::Number),
    ("object y 5\n", 6, Kind::Word),
    ("degree 1\n", 6, Kind::Word),
    ("end\n", 6, Kind::Word),
    ("tx 0 1 get x\n", 6, Kind::Range),
    ("tx 0 0\n", 6, Kind::Word),
    ("tx 0 0 get y\n", 6, Kind::Unknown),
    ("tx 0 0 get 4\n", 6, Kind::Name),
    ("tx 0 0 get\n", 6, Kind::Word),
    ("tx 0 0 same x 5\n", 6, Kind::Word),
    ("tx 0 0 add x 05\n", 6, Kind::Number),
    ("tx 0 0 put x 'a\n", 6, Kind::Number),
    ("tx 0 0 get x get x\n", 6, Kind::Word),
    ("tx 0 0 get x ;\n", 6, Kind::Word),
    ("tx 0 0 get x ; \n", 6, Kind::Word),
    ("tx 0 0 after 0 get x\n", 6, Kind::Range),
    ("tx 0 0 after get x\n", 6, Kind::Number),
    ("tx 0 0 get x\ntx 0 0 after 1 get x\n", 7, Kind::Range),
    ("tx 0 0 get x\nobject y 5 0\n", 7, Kind::Word),
    ("", 6, Kind::Missing),
    ("run", 6, Kind::LineEnd),
    ("run\n", 7, Kind::Missing),
    ("run\ntx 0 0 get x\n", 7, Kind::Word),
    ("run\nbegin 0\n", 7, Kind::Range),
    ("run\ntry 0 1\n", 7, Kind::Range),
    ("run\ndeliver 0 1 4294967296\n", 7, Kind::Range),
    ("run\ninstall 0 0\n", 7, Kind::Range),
    ("run\ninstall 0 4294967296\n", 7, Kind::Range),
    ("run\nview 1 0\n", 7, Kind::Twice),
    ("run\ntick 0 0\n", 7, Kind::Word),
    ("run\nwalk\n", 7, Kind::Word),
    ("run\nend", 7, Kind::LineEnd),
    ("run\nend 0\n", 7, Kind::Word),
    ("run\nend\n\n", 8, Kind::Extra),
    ("run\nend\nend\n", 8, Kind::Extra),
    ("run\nend\nx", 8, Kind::Extra),
];

#[test]
fn faults_of_the_body(rt: HostRuntime) -> Result<(), Fail> {
    check(&rt, rt.alloc(), HEAD, false, &BODY_FAULTS)
}

// The same behind the line of the directory, where a degree may stand.
static DEGREE_FAULTS: [(&str, u32, Kind); 12] = [
    ("degree 8\n", 6, Kind::Missing),
    ("degree 0\n", 5, Kind::Range),
    ("degree 9\n", 5, Kind::Range),
    ("degree 02\n", 5, Kind::Number),
    ("degree \n", 5, Kind::Number),
    ("degree\n", 5, Kind::Word),
    ("degree 2 2\n", 5, Kind::Word),
    ("degree 2", 5, Kind::LineEnd),
    ("degree 2\ndegree 2\n", 6, Kind::Word),
    ("degree 2\nrun\n", 6, Kind::Word),
    ("degree 2\nobject x 5 0\ndegree 2\n", 7, Kind::Word),
    ("degree 2\nobject x 'a 0\n", 6, Kind::Number),
];

#[test]
fn faults_of_a_degree(rt: HostRuntime) -> Result<(), Fail> {
    let head = "zeus 1\nnodes 2\nslots 1\ndirectory 0\n";
    check(&rt, rt.alloc(), head, false, &DEGREE_FAULTS)
}

// The same in version 2, behind an object whose value is a text.
static TEXT_FAULTS: [(&str, u32, Kind); 26] = [
    ("", 6, Kind::Missing),
    (
        "object y 'abcdefghijklmnopqrstuvwxyz012345 0\n",
        7,
        Kind::Missing,
    ),
    (
        "object y 'abcdefghijklmnopqrstuvwxyz0123456 0\n",
        6,
        Kind::Text,
    ),
    ("object y ' 0\n", 6, Kind::Text),
    ("object y 'a\tb 0\n", 6, Kind::Text),
    ("object y 'a\x7f 0\n", 6, Kind::Text),
    ("object y 'a b 0\n", 6, Kind::Number),
    ("object y a' 0\n", 6, Kind::Number),
    ("object y 05 0\n", 6, Kind::Number),
    ("object y  0\n", 6, Kind::Number),
    ("object 'y 5 0\n", 6, Kind::Name),
    ("object y 'a 'b\n", 6, Kind::Number),
    ("tx 0 0 put x '\n", 6, Kind::Text),
    ("tx 0 0 put x ''\n", 7, Kind::Missing),
    ("tx 0 0 same x 5\n", 7, Kind::Missing),
    ("tx 0 0 same x '\n", 6, Kind::Text),
    ("tx 0 0 same x x\n", 6, Kind::Number),
    ("tx 0 0 same x\n", 6, Kind::Word),
    ("tx 0 0 same x 'a 'b\n", 6, Kind::Word),
    ("tx 0 0 same y '\n", 6, Kind::Unknown),
    ("tx 0 0 same 4 '\n", 6, Kind::Name),
    ("tx 0 0 add x 'a\n", 6, Kind::Number),
    ("tx 0 0 need x 'a\n", 6, Kind::Number),
    ("tx 0 'a get x\n", 6, Kind::Number),
    ("degree 2\n", 6, Kind::Word),
    ("run\nbegin 'a\n", 7, Kind::Number),
];

#[test]
fn faults_of_version_2(rt: HostRuntime) -> Result<(), Fail> {
    let head = "zeus 2\nnodes 2\nslots 1\ndirectory 0\nobject x 'idle 0 1\n";
    check(&rt, rt.alloc(), head, false, &TEXT_FAULTS)
}

// A transaction of 16 operations, without the end of its line.
const SIXTEEN: &str = "zeus 1\nnodes 2\nslots 1\ndirectory 0\nobject x 5 0 1\ntx 0 0 get x ; \
    get x ; get x ; get x ; get x ; get x ; get x ; get x ; get x ; get x ; get x ; get x ; \
    get x ; get x ; get x ; get x";

static OPERATION_TOO_MANY: [(&str, u32, Kind); 5] = [
    ("\n", 7, Kind::Missing),
    (" ;\n", 6, Kind::Word),
    (" ; walk\n", 6, Kind::Word),
    (" ; get\n", 6, Kind::Long),
    (" ; get y\n", 6, Kind::Long),
];

#[test]
fn an_operation_too_many(rt: HostRuntime) -> Result<(), Fail> {
    check(&rt, rt.alloc(), SIXTEEN, false, &OPERATION_TOO_MANY)
}

// A transaction on eight objects, of nine, before the name of one more.
const EIGHT: &str = "zeus 1\nnodes 1\nslots 1\ndirectory 0\nobject a 0 0\nobject b 0 0\n\
    object c 0 0\nobject d 0 0\nobject e 0 0\nobject f 0 0\nobject g 0 0\nobject h 0 0\n\
    object i 0 0\ntx 0 0 get a ; get b ; get c ; get d ; get e ; get f ; get g ; get h ; get ";

static NINTH_OBJECT: [(&str, u32, Kind); 4] = [
    ("i\n", 14, Kind::Long),
    ("4\n", 14, Kind::Name),
    ("more\n", 14, Kind::Unknown),
    ("h\n", 15, Kind::Missing),
];

#[test]
fn a_ninth_object(rt: HostRuntime) -> Result<(), Fail> {
    check(&rt, rt.alloc(), EIGHT, false, &NINTH_OBJECT)
}

// So many objects behind the first lines.
fn objects(alloc: Global, count: u32) -> Result<String, Fail> {
    let mut text = String::from_str(alloc, HEAD)?;
    for number in 0..count {
        text.push_str(&format!(in alloc; "object o{number} 0 0\n")?)?;
    }
    Ok(text)
}

static OBJECT_TOO_MANY: [(&str, u32, Kind); 4] = [
    ("object more 0 0\n", 261, Kind::Long),
    ("object 4 more\n", 261, Kind::Long),
    ("walk\n", 261, Kind::Word),
    ("run\n", 262, Kind::Missing),
];

#[test]
fn an_object_too_many(rt: HostRuntime) -> Result<(), Fail> {
    let full = objects(rt.alloc(), 255)?;
    check(&rt, rt.alloc(), full.as_str(), false, &OBJECT_TOO_MANY)
}

// The first lines, and then this line so many times.
fn repeated(alloc: Global, head: &str, line: &str, count: u32) -> Result<String, Fail> {
    let mut text = String::from_str(alloc, head)?;
    for _ in 0..count {
        text.push_str(line)?;
    }
    Ok(text)
}

static TX_TOO_MANY: [(&str, u32, Kind); 3] = [
    ("tx\n", 10_006, Kind::Long),
    ("walk\n", 10_006, Kind::Word),
    ("run\n", 10_007, Kind::Missing),
];

#[test]
fn a_transaction_too_many(rt: HostRuntime) -> Result<(), Fail> {
    let txs = repeated(rt.alloc(), HEAD, "tx 0 0 get x\n", 10_000)?;
    check(&rt, rt.alloc(), txs.as_str(), false, &TX_TOO_MANY)
}

static STEP_TOO_MANY: [(&str, u32, Kind); 3] = [
    ("tick 9\n", 50_007, Kind::Long),
    ("walk\n", 50_007, Kind::Word),
    ("end\n\n", 50_008, Kind::Extra),
];

#[test]
fn a_step_too_many(rt: HostRuntime) -> Result<(), Fail> {
    let head = "zeus 1\nnodes 2\nslots 1\ndirectory 0\nobject x 5 0 1\nrun\n";
    let steps = repeated(rt.alloc(), head, "tick 0\n", 50_000)?;
    check(&rt, rt.alloc(), steps.as_str(), false, &STEP_TOO_MANY)
}

static BYTE_TOO_MANY: [(&str, u32, Kind); 2] = [("", 1, Kind::Word), ("\n", 0, Kind::Size)];

#[test]
fn a_byte_too_many(rt: HostRuntime) -> Result<(), Fail> {
    let lines = repeated(rt.alloc(), "", "\n", 4_194_304)?;
    check(&rt, rt.alloc(), lines.as_str(), false, &BYTE_TOO_MANY)
}

static NOT_LIVE: [(&str, u32, Kind); 6] = [
    ("tx\n", 1_006, Kind::Live),
    ("walk\n", 1_006, Kind::Word),
    ("tx", 1_006, Kind::LineEnd),
    ("run\ntick\n", 1_007, Kind::Live),
    ("run\nwalk\n", 1_007, Kind::Word),
    ("run\nend\n\n", 1_008, Kind::Extra),
];

#[test]
fn a_live_run_takes_no_step_and_1000_transactions(rt: HostRuntime) -> Result<(), Fail> {
    let txs = repeated(rt.alloc(), HEAD, "tx 0 0 get x\n", 1_000)?;
    check(&rt, rt.alloc(), txs.as_str(), true, &NOT_LIVE)
}

#[test]
fn a_script_of_a_live_run_is_read(rt: HostRuntime) {
    let text = "zeus 1\nnodes 2\nslots 1\ndirectory 0\nobject x 5 0 1\ntx 0 0 get x\nrun\nend\n";
    assert!(rt; read_script(rt.alloc(), text.as_bytes(), true).is_ok());
}
