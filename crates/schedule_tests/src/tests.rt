//! Words as an independent program has them.
use random_schedule::Words;
use std::test::Fail;

#[test]
fn takes_the_words_of_the_generator(rt: HostRuntime) -> Result<(), Fail> {
    let mut words = Words::new(1);
    assert_eq!(rt; words.word(), 3_380_776_849);
    assert_eq!(rt; words.word(), 361_947_764);
    assert_eq!(rt; words.pick(1_000), 655);
    let mut last = Words::new(u64::MAX);
    assert_eq!(rt; last.word(), 3_795_398_737);
    Ok(())
}
