//! Storms whose summaries an independent program printed.
use super::words;
use std::test::Fail;
use zeus_cli::zeus_top;
use zeus_io::{SafeSink, SafeSource, Status};

const NO_STEP: &str = "storm 1 1 1 1 0 0 0 7
steps 0
acked 0 failed 0 refused 0 stopped 0 unfinished 1
epoch 1 lost 0
sum 100
end
";

const NO_TRANSACTION: &str = "storm 1 1 1 0 0 0 0 7
steps 0
acked 0 failed 0 refused 0 stopped 0 unfinished 0
epoch 1 lost 0
sum 100
end
";

const TWO_NODES: &str = "storm 2 1 2 4 300 10 1 3
steps 25
acked 1 failed 0 refused 0 stopped 3 unfinished 0
epoch 1 lost 0
sum 200
end
";

#[test]
fn storms_are_summed_up_byte_for_byte(rt: HostRuntime) -> Result<(), Fail> {
    let alloc = rt.alloc();
    for (numbers, summary, end) in [
        (
            ["1", "1", "1", "1", "0", "0", "0", "7"],
            NO_STEP,
            Status::Unfinished,
        ),
        (
            ["1", "1", "1", "0", "0", "0", "0", "7"],
            NO_TRANSACTION,
            Status::Done,
        ),
        (
            ["2", "1", "2", "4", "300", "10", "1", "3"],
            TWO_NODES,
            Status::Done,
        ),
    ] {
        let mut texts = words(alloc, &["storm"])?;
        texts.append(&mut words(alloc, &numbers)?)?;
        let mut source = SafeSource::new(Vec::new(alloc));
        let mut sink = SafeSink::with_room(alloc, 300)?;
        let status = zeus_top(alloc, &texts, &mut source, &mut sink);
        assert_eq!(rt; status, end);
        assert_eq!(rt; sink.bytes(), summary.as_bytes());
    }
    Ok(())
}
