//! Where a run goes from the steps of a phase.
ghost use Rattle.std.specs.Prelude.{◌≡◌, ◌≤◌, ◌+◌, ◌^◌, length};
ghost use Rattle.model_rules.specs.Limits.{instance_limit, zero_limit};
ghost use Rattle.step_rule.specs.Courses.{course_of_redo, course_of_trial, course_on};
ghost use Rattle.step_rule.specs.Steps.{AreAsked};

use crate::rules::{NextPoint, after};
use crate::steps::{Steps, read_redo, read_trial};
use super_time::Point;
use unit_tree::Ending;

/// Where a run goes from a phase whose steps are all made.
#[derive(Clone, Copy, Debug, PartialEq, Eq)]
pub enum Course {
    /// All components make the step again, by this length in ticks of the system.
    Redo(u64),
    /// The run goes to this point.
    On(Point),
    /// The run ends.
    End(Ending),
}

/// Returns the next point after a step of `h`, or the end where this is one zero step too many.
fn course_on(point: Point, h: u64, zero: u64) -> Course
    requires end { point.t + h ≤ 10 ^ 15 }
    requires zeros { point.n ≤ zero }
    requires budget { zero ≤ zero_limit }
    ensures { result ≡ course_on zero point h }
{
    match after(point, h, zero) {
        NextPoint::Next(point) => Course::On(point),
        NextPoint::ZeroBudget => Course::End(Ending::ZeroBudget),
    }
}

/// Returns where a run goes from the trial of a step of `h` from `point`: to its end by the first fault, to a redo where some
/// component accepted less, or to the next point. `zero` is the zero budget.
pub fn course_of_trial<S: Steps>(steps: &S, point: Point, h: u64, zero: u64) -> Course
    requires asked { AreAsked point.t h (S.steps steps.now) }
    requires count { length (S.steps steps.now) ≤ instance_limit }
    requires end { point.t + h ≤ 10 ^ 15 }
    requires zeros { point.n ≤ zero }
    requires budget { zero ≤ zero_limit }
    ensures { result ≡ course_of_trial zero point h (S.steps steps.now) }
{
    match read_trial(steps, point.t, h) {
        Err(ending) => Course::End(ending),
        Ok(least) if least < h => Course::Redo(least),
        Ok(_) => course_on(point, h, zero),
    }
}

/// Returns where a run goes from a redo by `h` from `point`: to its end by the first component that has a fault or accepts less, or
/// to the next point. `zero` is the zero budget.
pub fn course_of_redo<S: Steps>(steps: &S, point: Point, h: u64, zero: u64) -> Course
    requires count { length (S.steps steps.now) ≤ instance_limit }
    requires end { point.t + h ≤ 10 ^ 15 }
    requires zeros { point.n ≤ zero }
    requires budget { zero ≤ zero_limit }
    ensures { result ≡ course_of_redo zero point h (S.steps steps.now) }
{
    match read_redo(steps) {
        Some(ending) => Course::End(ending),
        None => course_on(point, h, zero),
    }
}
