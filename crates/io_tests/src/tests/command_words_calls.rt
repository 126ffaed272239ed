//! Tests of typical calls.
use command_words::number_in;

#[test]
fn takes_plain_numbers_of_the_range_alone(rt: HostRuntime) {
    assert_eq!(rt; number_in("0", 0, 0), Some(0));
    assert_eq!(rt; number_in("128", 1, 128), Some(128));
    assert_eq!(rt;
        number_in("18446744073709551615", 0, u64::MAX),
        Some(u64::MAX)
    );
    for word in [
        "0",
        "129",
        "01",
        "+1",
        "-1",
        "",
        " 1",
        "1x",
        "18446744073709551616",
    ] {
        assert_eq!(rt; number_in(word, 1, 128), None, "{word:?}");
    }
}
