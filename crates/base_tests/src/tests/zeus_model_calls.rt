//! Tests of typical calls.
use zeus_model::Name;

#[test]
fn names_begin_with_a_letter_and_have_at_most_16_bytes(rt: HostRuntime) {
    assert!(rt; Name::new(b"x").is_some());
    assert!(rt; Name::new(b"phone_40").is_some());
    assert!(rt; Name::new(b"abcdefghijklmnop").is_some());
    assert!(rt; Name::new(b"abcdefghijklmnopq").is_none());
    assert!(rt; Name::new(b"4x").is_none());
    assert!(rt; Name::new(b"a-b").is_none());
    assert!(rt; Name::new(b"").is_none());
}
