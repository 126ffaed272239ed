//! Scripts of leases and the whole answers that they have, from an independent program.
use super::words;
use std::test::Fail;
use zeus_cli::zeus_top;
use zeus_io::{SafeSink, SafeSource, Status};

/// The script `examples/lease-held.leases`.
const HELD: &str = "\
leases 1\n\
nodes 2\n\
length 100\n\
percent 10\n\
ask 0\n\
hear 0\n\
take 0\n\
pass 99 99 108\n\
act 0\n\
view 1\n\
pass 2 2 2\n\
view 1\n\
act 0\n\
ask 0\n\
hear 0\n\
end\n\
";

const HELD_ANSWERS: &str = "\
lease 1\n\
0 ask 0 = asked 0\n\
1 hear 0 = granted 0\n\
2 take 0 = held 100\n\
3 pass 99 99 108 = passed\n\
4 act 0 = acted\n\
5 view 1 = not stopped 0\n\
6 pass 2 2 2 = passed\n\
7 view 1 = installed 2\n\
8 act 0 = ended\n\
9 ask 0 = ended\n\
10 hear 0 = dropped\n\
end\n\
";

/// The script `examples/lease-skewed.leases`.
const SKEWED: &str = "\
leases 1\n\
nodes 2\n\
length 100\n\
percent 10\n\
ask 0\n\
hear 0\n\
take 0\n\
pass 10 10 12\n\
act 0\n\
view 1\n\
end\n\
";

const SKEWED_ANSWERS: &str = "\
lease 1\n\
0 ask 0 = asked 0\n\
1 hear 0 = granted 0\n\
2 take 0 = held 100\n\
3 pass 10 10 12 = skewed 2 0\n\
4 act 0 = acted\n\
5 view 1 = not stopped 0\n\
end\n\
";

const NO_LEASE: &str = "\
leases 1\n\
nodes 2\n\
length 100\n\
percent 10\n\
act 0\n\
hear 0\n\
take 0\n\
view 1\n\
end\n\
";

const NO_LEASE_ANSWERS: &str = "\
lease 1\n\
0 act 0 = no lease\n\
1 hear 0 = no ask 0\n\
2 take 0 = no grant 0\n\
3 view 1 = installed 2\n\
end\n\
";

#[test]
fn scripts_of_leases_are_answered_byte_for_byte(rt: HostRuntime) -> Result<(), Fail> {
    let alloc = rt.alloc();
    let lease = words(alloc, &["lease"])?;
    for (script, answers, end) in [
        (HELD, HELD_ANSWERS, Status::Done),
        (SKEWED, SKEWED_ANSWERS, Status::Done),
        (NO_LEASE, NO_LEASE_ANSWERS, Status::Done),
        ("zeus 1\n", "script 1 word\n", Status::Script),
        ("leases 1\nnodes 9\n", "script 2 range\n", Status::Script),
        ("leases 1\nnodes 2", "script 2 line end\n", Status::Script),
    ] {
        let mut source = SafeSource::new(Vec::from_slice(alloc, script.as_bytes())?);
        let mut sink = SafeSink::with_room(alloc, 300)?;
        let status = zeus_top(alloc, &lease, &mut source, &mut sink);
        assert_eq!(rt; status, end);
        assert_eq!(rt; sink.bytes(), answers.as_bytes());
    }
    Ok(())
}
