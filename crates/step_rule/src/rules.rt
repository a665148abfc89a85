ghost use Rattle.std.specs.Prelude.{◌≡◌, ◌≤◌, ◌<◌, ◌+◌, ◌-◌, ◌^◌, ℕ, length, min};
ghost use Rattle.step_rule.specs.AfterStep.{after_step};
ghost use Rattle.step_rule.specs.Limits.{is_held_by, limited};
ghost use Rattle.super_time.specs.LocalTime.{local_step};
ghost use Rattle.unit_tree.specs.Negotiation.{agreed_step, is_held, proposal_of, reply_of};
ghost use Rattle.unit_tree.specs.Successor.{point_after};
ghost use Rattle.model_rules.specs.Limits.{zero_limit};

use fixed_words::Fault;
use super_time::{Point, limit, local_step};
use unit_tree::{Ending, Place};

/// Where a run goes after a step.
#[derive(Clone, Copy, Debug, PartialEq, Eq)]
pub enum NextPoint {
    Next(Point),
    /// The step has length zero, and no further zero step is allowed.
    ZeroBudget,
}

/// Returns the longest step at `t` that a system allows: it doesn't pass the stop, and is at most `longest`.
pub fn longest_step(stop: u64, longest: u64, t: u64) -> u64
    requires before_stop { t ≤ stop }
    ensures { result ≡ min (stop - t) longest }
{
    (stop - t).min(longest)
}

/// Returns the proposed step at `t`: the longest one that the system allows and that passes no limit.
pub fn propose(stop: u64, longest: u64, t: u64, limits: &[u128]) -> u64
    requires before_stop { t ≤ stop }
    requires stop { stop ≤ 10 ^ 15 }
    ensures { result ≡ proposal_of stop longest t limits.now }
{
    let mut least = longest_step(stop, longest, t);
    for limit in limits {
        least = capped(least, *limit);
    }
    least
}

/// Returns the lesser of two lengths.
pub fn capped(length: u64, limit: u128) -> u64
    ensures { result ≡ min length limit }
{
    if limit < u128::from(length) {
        limit as u64
    } else {
        length
    }
}

/// Returns the proposed step after the `max` of one more component, which has this number and returned `told` at `t`. `least` is the
/// proposed step without this component.
///
/// # Errors
///
/// A `max` with a fault ends the run.
pub fn limited(
    least: u64,
    instance: u32,
    factor: u64,
    t: u64,
    told: Result<Option<u64>, Fault>,
) -> Result<u64, Ending>
    requires factor { 1 ≤ factor }
    requires coarsest { factor ≤ 10 ^ 9 }
    requires time { t ≤ 10 ^ 15 }
    ensures { result ≡ limited least instance factor t told }
{
    match told {
        Ok(Some(local)) => Ok(capped(least, limit(factor, t, local))),
        Ok(None) => Ok(least),
        Err(fault) => Err(Ending::UnitFault {
            instance,
            place: Place::Max,
            fault,
        }),
    }
}

/// Returns whether a component whose local step is `step` is held in a step of `h`: the step has a length, and no local tick ends in it.
pub fn is_held_by(h: u64, step: u64) -> bool
    ensures { result ≡ is_held_by h step }
{
    h > 0 && step == 0
}

/// Returns whether a component is held in a step of `h` from `t`.
pub fn is_held(factor: u64, t: u64, h: u64) -> bool
    requires factor { 1 ≤ factor }
    requires end { t + h ≤ 10 ^ 15 }
    ensures { result ≡ is_held factor t h }
{
    is_held_by(h, local_step(factor, t, h))
}

/// Returns the reply of a component to a step of `h` from `t`, in ticks of the system. `accepted` is how many local ticks
/// it accepted, and one local tick is `factor` ticks. A component that accepted all of its local step replies the whole step.
/// Otherwise the reply ends where the accepted local ticks have passed.
/// A held component, whose local step is 0, replies the whole step.
pub fn reply(factor: u64, t: u64, h: u64, accepted: u64) -> u64
    requires factor { 1 ≤ factor }
    requires coarsest { factor ≤ 10 ^ 9 }
    requires end { t + h ≤ 10 ^ 15 }
    requires accepted { accepted ≤ local_step factor t h }
    ensures reply { result ≡ reply_of factor t h accepted }
    ensures at_most { result ≤ h }
{
    if accepted == local_step(factor, t, h) {
        return h;
    }
    limit(factor, t, accepted) as u64
}

/// Returns the agreed step: the least reply.
pub fn agree(replies: &[u64]) -> u64
    requires some { 0 < length replies.now }
    ensures { (h : ℕ) → result ≡ agreed_step h replies.now }
{
    let mut least = replies[0];
    for reply in &replies[1..] {
        least = least.min(*reply);
    }
    least
}

/// Returns the point after a step of `h`.
pub fn next_point(point: Point, h: u64) -> Point
    requires end { point.t + h ≤ 10 ^ 15 }
    requires zeros { point.n ≤ zero_limit }
    ensures { result ≡ point_after point h }
{
    if h == 0 {
        Point {
            t: point.t,
            n: point.n + 1,
        }
    } else {
        Point {
            t: point.t + h,
            n: 0,
        }
    }
}

/// Returns the point after a step of `h`, or that it is one zero step too many. `zero` is the zero budget.
pub fn after(point: Point, h: u64, zero: u64) -> NextPoint
    requires end { point.t + h ≤ 10 ^ 15 }
    requires zeros { point.n ≤ zero }
    requires budget { zero ≤ zero_limit }
    ensures { result ≡ after_step zero point h }
{
    if h == 0 && point.n == zero {
        NextPoint::ZeroBudget
    } else {
        NextPoint::Next(next_point(point, h))
    }
}
