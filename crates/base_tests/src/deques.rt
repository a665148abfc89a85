//! Deques, in one thread and in two.

use std::sync::Wait;
use std::sync::atomic::{AtomicU64, Ordering};
use std::test::Fail;
use std::thread;
use ticket_deque::{Hand, Reach, each_item_once, each_place_taken_once, make};

const ALL: u64 = 1000;

#[test]
fn items_leave_at_the_front(rt: HostRuntime) -> Result<(), Fail> {
    let (mut hand, mut reach) = make(rt.alloc())?;
    assert_eq!(rt; (hand.next(), reach.steal(&rt)), (None, None));
    for item in 1..4u64 {
        assert_eq!(rt; hand.put(item), Ok(()));
    }
    assert_eq!(rt; (reach.steal(&rt), hand.next()), (Some(1), Some(2)));
    let mut other = reach.split(rt.alloc())?;
    assert_eq!(rt; (other.steal(&rt), reach.steal(&rt)), (Some(3), None));
    reach.join(other);
    assert_eq!(rt; hand.put(4), Ok(()));
    assert_eq!(rt; (reach.steal(&rt), hand.next()), (Some(4), None));
    each_item_once::<u64>();
    each_place_taken_once::<u64>();
    Ok(())
}

#[test]
fn more_than_64_items_fit(rt: HostRuntime) -> Result<(), Fail> {
    let (mut hand, mut reach) = make(rt.alloc())?;
    for item in 0..200u64 {
        assert_eq!(rt; hand.put(item), Ok(()), "at {item}");
    }
    for item in 0..100u64 {
        assert_eq!(rt; reach.steal(&rt), Some(2 * item), "at {item}");
        assert_eq!(rt; hand.next(), Some(2 * item + 1), "at {item}");
    }
    assert_eq!(rt; (reach.steal(&rt), hand.next()), (None, None));
    Ok(())
}

// Adds all items, takes one now and then, and at last takes until none is left. It keeps an item that was refused.
fn work<R: Wait>(rt: &R, mut hand: Hand<u64>, left: &AtomicU64, mut got: Vec<u64>) -> Vec<u64> {
    for item in 0..ALL {
        if let Err(back) = hand.put(item) {
            note(Some(back), left, &mut got);
        }
        if item % 3 == 0 {
            note(hand.next(), left, &mut got);
        }
    }
    for _ in rt.forever() {
        if left.load(Ordering::SeqCst) == 0 {
            break;
        }
        note(hand.next(), left, &mut got);
    }
    got
}

// Takes until no item is left.
fn rob<R: Wait>(rt: &R, mut reach: Reach<u64>, left: &AtomicU64, mut got: Vec<u64>) -> Vec<u64> {
    for _ in rt.forever() {
        if left.load(Ordering::SeqCst) == 0 {
            break;
        }
        note(reach.steal(rt), left, &mut got);
    }
    got
}

fn note(item: Option<u64>, left: &AtomicU64, got: &mut Vec<u64>) {
    match item {
        Some(item) => {
            let _ = got.push(item);
            left.fetch_sub(1, Ordering::SeqCst);
        }
        None => thread::yield_now(),
    }
}

#[test]
fn two_threads_take_each_item_once_and_in_order(rt: HostRuntime) -> Result<(), Fail> {
    let (hand, reach) = make(rt.alloc())?;
    let left = AtomicU64::new(ALL);
    let mine = Vec::with_capacity(rt.alloc(), ALL as usize)?;
    let theirs = Vec::with_capacity(rt.alloc(), ALL as usize)?;
    let (mine, theirs) = thread::join(
        &rt,
        || work(&rt, hand, &left, mine),
        || rob(&rt, reach, &left, theirs),
    );
    assert!(rt; mine.is_sorted() && theirs.is_sorted());
    let mut all = mine;
    for item in theirs {
        all.push(item)?;
    }
    all.sort()?;
    assert_eq!(rt; all.len() as u64, ALL);
    for (place, item) in all.iter().enumerate() {
        assert_eq!(rt; *item, place as u64);
    }
    Ok(())
}
