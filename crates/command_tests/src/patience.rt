//! Whether a lane is published, and for how many rows.

use crew_lanes::Patience;
use std::test::Fail;

/// What comes of a lane in a phase, where the run has an answer for its row or makes the step itself.
#[derive(Clone, Copy)]
enum Outcome {
    /// An answer was there, and the guess for the next row is right.
    Found,
    /// No answer was there, and the guess for the next row is right.
    Late,
    /// An answer was there, and the guess for the next row is wrong.
    Wrong,
}

use Outcome::{Found, Late, Wrong};

/// Goes on to the next phase. Returns for how many rows the lane is published in it, or 0 where it isn't published.
fn next_window(patience: &mut Patience, outcome: Outcome) -> u32 {
    let (found, is_right) = match outcome {
        Found => (true, true),
        Late => (false, true),
        Wrong => (true, false),
    };
    patience.tell(found);
    if patience.begin_phase() {
        patience.window(is_right)
    } else {
        0
    }
}

/// Returns whether the lane has a window after each outcome in turn.
fn has_windows(patience: &mut Patience, phases: &[(Outcome, u32)]) -> bool {
    for (outcome, window) in phases {
        if next_window(patience, *outcome) != *window {
            return false;
        }
    }
    true
}

/// Returns whether the lane has the same window after so many equal outcomes.
fn keeps_window(patience: &mut Patience, outcome: Outcome, phases: u32, window: u32) -> bool {
    for _ in 0..phases {
        if next_window(patience, outcome) != window {
            return false;
        }
    }
    true
}

/// Returns the patience with a lane in its first phase, whose guess is wrong, since there was none.
fn begun(cost: u32, most: u32) -> Patience {
    let mut patience = Patience::new(cost, most);
    let _ = patience.begin_phase();
    let _ = patience.window(false);
    patience
}

#[test]
fn the_window_doubles_after_three_right_guesses(rt: HostRuntime) -> Result<(), Fail> {
    let phases = [
        (Found, 1),
        (Late, 1),
        (Found, 2),
        (Late, 2),
        (Late, 2),
        (Late, 4),
        (Found, 4),
        (Found, 4),
        (Found, 5),
        (Found, 5),
        (Wrong, 1),
        (Found, 1),
        (Found, 1),
        (Wrong, 1),
        (Found, 1),
        (Late, 1),
        (Late, 2),
        (Wrong, 1),
    ];
    assert!(rt; has_windows(&mut begun(20_000, 5), &phases));
    Ok(())
}

#[test]
fn a_lane_of_heavy_steps_never_rests(rt: HostRuntime) -> Result<(), Fail> {
    let mut patience = begun(20_000, 1);
    assert!(rt; keeps_window(&mut patience, Late, 1_000, 1));
    assert!(rt; keeps_window(&mut patience, Wrong, 1_000, 1));
    Ok(())
}

/// The first of the phases in which nothing is found is the one before the first call.
#[test]
fn rests_double_until_something_is_found(rt: HostRuntime) -> Result<(), Fail> {
    let mut patience = begun(19_999, 1);
    for rest in [8, 16, 32, 64, 64] {
        assert!(rt; keeps_window(&mut patience, Late, 7, 1));
        assert_eq!(rt; next_window(&mut patience, Late), 0);
        for _ in 1..rest {
            assert!(rt; !patience.begin_phase());
        }
        assert!(rt; patience.begin_phase());
    }
    assert!(rt; keeps_window(&mut patience, Late, 7, 1));
    assert!(rt; keeps_window(&mut patience, Found, 1, 1));
    assert!(rt; keeps_window(&mut patience, Late, 7, 1));
    assert_eq!(rt; next_window(&mut patience, Late), 0);
    for _ in 1..8 {
        assert!(rt; !patience.begin_phase());
    }
    assert!(rt; patience.begin_phase());
    Ok(())
}

#[test]
fn some_lanes_are_never_published(rt: HostRuntime) -> Result<(), Fail> {
    for (cost, most, pays) in [(1_999, 4, false), (2_000, 4, true), (20_000, 0, false)] {
        let mut patience = Patience::new(cost, most);
        assert_eq!(rt; patience.pays(), pays);
        assert_eq!(rt; patience.begin_phase(), pays);
        assert_eq!(rt; patience.is_published(), pays);
    }
    Ok(())
}
