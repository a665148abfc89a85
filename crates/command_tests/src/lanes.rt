//! Locks and offers of a desk.

use crew_lanes::Desk;
use std::sync::Wait;
use std::test::Fail;
use test_plans::plan_of;

const TWO: &str =
    "cosim 1\nunit Counter\nstate n : Int64 = 0\noutput y : Int64 = n\nstep\nn := n + 1\nend\nend\ninstance a : Counter\nend\ninstance b : Counter\nend\nstop 3\n";

/// Returns whether the first lane, the second one, and the first one when its lock is left can be locked, while the first one is locked.
fn locks<R: Wait>(rt: &R, desk: &Desk) -> Option<[bool; 3]> {
    let (first, second) = (desk.lane(0)?, desk.lane(1)?);
    let held = first.lock(rt);
    let (again, beside) = (first.try_lock().is_some(), second.try_lock().is_some());
    drop(held);
    Some([again, beside, first.try_lock().is_some()])
}

/// Returns which of the lanes 0 and 1 are offered at first, when the second one is offered, and when it is withdrawn; and then whether
/// the third one is, which isn't there.
fn offers(desk: &Desk) -> ([bool; 2], [bool; 2], [bool; 2], bool) {
    let first = [desk.is_offered(0), desk.is_offered(1)];
    desk.offer(1);
    let offered = [desk.is_offered(0), desk.is_offered(1)];
    desk.withdraw(1);
    let withdrawn = [desk.is_offered(0), desk.is_offered(1)];
    desk.offer(2);
    (first, offered, withdrawn, desk.is_offered(2))
}

#[test]
fn each_lane_has_its_lock_and_its_offer(rt: HostRuntime) -> Result<(), Fail> {
    let plan = plan_of(rt.alloc(), TWO)?;
    let desk = Desk::open(rt.alloc(), &plan);
    drop(plan);
    let desk = desk?;
    let (locks, offers) = (locks(&rt, &desk), offers(&desk));
    drop(desk);
    assert_eq!(rt; locks, Some([false, true, true]));
    assert_eq!(rt;
        offers,
        ([false, false], [false, true], [false, false], false)
    );
    Ok(())
}
