//! Tests of typical calls.
ghost use Rattle.std.specs.Prelude.{◌≡◌, ◌<◌, ◌≤◌, [], IfOk, IfSome, length};

use link_rings::{Full, RingIn, RingOut, Rule, ring};
use std::alloc::{AllocError, Global};
use std::sync::Wait;
use std::test::Fail;
use std::thread;

// Any item.
#[derive(Drop)]
struct Anything;

impl Rule<u32, u32> for Anything {
    ghost keeps = { λ head before x. Unit {0} };
}

// Each item is at most the head.
#[derive(Drop)]
struct UpTo;

impl Rule<u32, u32> for UpTo {
    ghost keeps = { λ head before x. x ≤ head };
}

// The n-th item is the number n.
#[derive(Drop)]
struct Counting;

impl Rule<(), u64> for Counting {
    ghost keeps = { λ head before x. x ≡ length before };
}

type Ends = (RingOut<u32, u32, Anything>, RingIn<u32, u32, Anything>);

fn numbers(alloc: Global, room: usize) -> Result<Ends, AllocError>
    requires { 0 < room }
    ensures { IfOk result (λ ends. ends.0.ring ≡ ends.1.ring) }
{
    ring(alloc, room, 100)
}

#[test]
fn items_come_in_the_order_in_which_they_were_put(rt: HostRuntime) -> Result<(), Fail> {
    let (mut out, mut taker) = numbers(rt.alloc(), 3)?;
    assert!(rt; out.put(5).is_ok());
    assert!(rt; out.put(7).is_ok());
    assert_eq!(rt; taker.take(), Some(5));
    assert!(rt; out.put(6).is_ok());
    assert_eq!(rt; taker.take(), Some(7));
    assert_eq!(rt; taker.take(), Some(6));
    Ok(())
}

#[test]
fn an_empty_ring_gives_none(rt: HostRuntime) -> Result<(), Fail> {
    let (mut out, mut taker) = numbers(rt.alloc(), 1)?;
    assert_eq!(rt; taker.take(), None);
    assert!(rt; !taker.look());
    assert!(rt; out.put(1).is_ok());
    assert_eq!(rt; taker.take(), Some(1));
    assert_eq!(rt; taker.take(), None);
    Ok(())
}

#[test]
fn a_full_ring_hands_the_item_back(rt: HostRuntime) -> Result<(), Fail> {
    let (mut out, mut taker) = numbers(rt.alloc(), 2)?;
    assert!(rt; out.put(1).is_ok());
    assert!(rt; out.put(2).is_ok());
    assert_eq!(rt; out.put(3), Err(Full(3)));
    assert_eq!(rt; taker.take(), Some(1));
    assert!(rt; out.put(4).is_ok());
    assert_eq!(rt; out.put(5), Err(Full(5)));
    assert_eq!(rt; taker.take(), Some(2));
    assert_eq!(rt; taker.take(), Some(4));
    Ok(())
}

#[test]
fn a_look_leaves_the_item(rt: HostRuntime) -> Result<(), Fail> {
    let (mut out, mut taker) = numbers(rt.alloc(), 2)?;
    assert!(rt; !taker.look());
    assert!(rt; out.put(9).is_ok());
    for _ in 0..2 {
        assert!(rt; taker.look());
        assert_eq!(rt; *taker.front(), 9);
    }
    assert_eq!(rt; taker.take(), Some(9));
    assert!(rt; !taker.look());
    Ok(())
}

#[test]
fn ends_that_met_to_take_take_all_that_was_put(rt: HostRuntime) -> Result<(), Fail> {
    let (mut out, mut taker) = numbers(rt.alloc(), 2)?;
    assert!(rt; out.put(4).is_ok());
    assert!(rt; out.put(5).is_ok());
    taker.meet(&mut out);
    assert_eq!(rt; taker.take(), Some(4));
    assert_eq!(rt; taker.take(), Some(5));
    Ok(())
}

#[test]
fn ends_that_met_to_put_put_as_many_as_there_are_places(rt: HostRuntime) -> Result<(), Fail> {
    let (mut out, mut taker) = numbers(rt.alloc(), 2)?;
    assert!(rt; out.put(7).is_ok());
    assert_eq!(rt; taker.take(), Some(7));
    out.meet_to_put(&mut taker);
    assert!(rt; out.put(8).is_ok());
    assert!(rt; out.put(9).is_ok());
    assert_eq!(rt; out.put(10), Err(Full(10)));
    Ok(())
}

#[test]
fn both_ends_know_the_head(rt: HostRuntime) -> Result<(), Fail> {
    let (mut out, mut taker) = numbers(rt.alloc(), 1)?;
    assert!(rt; out.put(3).is_ok());
    assert_eq!(rt; taker.take(), Some(3));
    assert_eq!(rt; (*out.head(), *taker.head()), (100, 100));
    Ok(())
}

// The rule is all that is known of the item, and it is enough: the sum fits.
fn above(taker: &mut RingIn<u32, u32, UpTo>) -> Option<u32>
    requires { taker.old.head ≤ 100 }
    ensures { IfSome result (λ n. n ≤ 101) }
{
    let item = taker.take()?;
    Some(item + 1)
}

#[test]
fn the_rule_goes_with_each_item(rt: HostRuntime) -> Result<(), Fail> {
    let (mut out, mut taker) = ring::<u32, u32, UpTo>(rt.alloc(), 1, 100)?;
    assert!(rt; out.put(100).is_ok());
    assert_eq!(rt; above(&mut taker), Some(101));
    Ok(())
}

#[test]
fn a_ring_that_memory_cannot_hold_is_refused(rt: HostRuntime) -> Result<(), Fail> {
    assert!(rt; numbers(rt.alloc(), usize::MAX / 2).is_err());
    Ok(())
}

fn count_in(rt: &impl Wait, out: RingOut<(), u64, Counting>, count: u64)
    requires { out.put ≡ [] }
{
    let mut out = out;
    let mut next = 0u64;
    for _ in rt.forever() {
        if next >= count {
            return;
        }
        match out.put(next) {
            Ok(()) => next += 1,
            Err(_) => thread::yield_now(),
        }
    }
}

fn count_out(rt: &impl Wait, taker: RingIn<(), u64, Counting>, count: u64) -> u64
    requires { taker.taken ≡ [] }
    ensures { result ≡ count }
{
    let mut taker = taker;
    let mut seen = 0u64;
    for _ in rt.forever() {
        if seen >= count {
            break;
        }
        match taker.take() {
            Some(number) => seen = number + 1,
            None => thread::yield_now(),
        }
    }
    seen
}

#[test]
fn items_cross_from_one_thread_to_another(rt: HostRuntime) -> Result<(), Fail> {
    let (out, taker) = ring::<(), u64, Counting>(rt.alloc(), 16, ())?;
    let count = 10_000;
    let (_, seen) = thread::join(
        &rt,
        move ||
            requires { out.put ≡ [] }
        { count_in(&rt, out, count) },
        move || -> u64
            requires { taker.taken ≡ [] }
        { count_out(&rt, taker, count) },
    );
    assert_eq!(rt; seen, count);
    Ok(())
}
