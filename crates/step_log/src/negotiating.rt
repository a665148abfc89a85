//! What the components of a run agree on in a trial, all of whose steps are made.
ghost use Rattle.std.specs.Prelude.{◌≡◌, ◌≤◌, ◌+◌, ◌^◌, IfSome};
ghost use Rattle.event_runs.specs.Readings.{offers_of, pace_of};
ghost use Rattle.step_log.specs.Negotiated.{IsBegun, least_reply, limiter_of, shortener_of};
ghost use Rattle.step_log.specs.Steps.{held_in, step_at};
ghost use Rattle.trace_core.specs.Runs.{AreCellsFull, Stands};
ghost use Rattle.trace_core.specs.declared.phase.Phase.TheVariants.{Trial};

use step_counts::{AgreedStep, Limiter, Shortening};
use step_rule::{is_held, reply};
use trace_core::{Plan, Run, Slot};

/// Returns what limits the proposed step, of length `h`, of a run that is at the beginning of its trial.
pub(crate) fn limiter(plan: &Plan, run: &mut Run, h: u64) -> Limiter
    requires own { run.old.plan ≡ plan.now }
    requires stands { Stands run.old }
    requires begun { IsBegun run.old }
    ensures limiter { result ≡ limiter_of run.old h }
    ensures kept { run.new ≡ run.old }
{
    for instance in 0..plan.instances() {
        if run.limit(instance) == Some(u128::from(h)) {
            return Limiter::Instance(instance);
        }
    }
    if plan.stop() - run.point().t == h {
        Limiter::Stop
    } else {
        Limiter::Longest
    }
}

/// Returns the agreed step: the least reply to the trial of a step of `h`, or `None` where a step met a fault.
fn agreed(run: &Run, h: u64) -> Option<u64>
    requires stands { Stands run.now }
    requires trial { run.now.phase ≡ Trial h }
    requires full { AreCellsFull run.now.cells }
    ensures least { result ≡ least_reply run.now h }
    ensures most { IfSome result (λ agreed. agreed ≤ h) }
{
    run.agreed(h).ok()
}

/// Returns the first instance whose reply is the agreed step, where this is less than `h`.
fn shortening(plan: &Plan, run: &Run, h: u64, agreed: u64) -> Option<Shortening>
    requires own { run.now.plan ≡ plan.now }
    requires stands { Stands run.now }
    requires trial { run.now.phase ≡ Trial h }
    requires full { AreCellsFull run.now.cells }
    ensures { result ≡ shortener_of run.now h agreed }
{
    if agreed >= h {
        return None;
    }
    let t = run.point().t;
    for instance in 0..plan.instances() {
        if let Slot::Took(accepted) = run.slot(instance) {
            if reply(plan.factor(instance), t, h, accepted) == agreed {
                return Some(Shortening { instance, accepted });
            }
        }
    }
    None
}

/// Returns how many instances are held in a step of `h` from `t`.
fn held(plan: &Plan, t: u64, h: u64) -> u32
    requires end { t + h ≤ 10 ^ 15 }
    ensures { result ≡ held_in (pace_of plan.now.run) t h }
{
    let mut count = 0;
    for instance in 0..plan.instances() {
        if is_held(plan.factor(instance), t, h) {
            count += 1;
        }
    }
    count
}

/// Returns the step that the components agreed on in the trial of a step of `h`, all of whose steps are made, or `None` where a
/// step met a fault.
pub(crate) fn agreement(plan: &Plan, run: &Run, h: u64, limiter: Limiter) -> Option<AgreedStep>
    requires own { run.now.plan ≡ plan.now }
    requires stands { Stands run.now }
    requires trial { run.now.phase ≡ Trial h }
    requires full { AreCellsFull run.now.cells }
    requires limiter { limiter ≡ limiter_of run.now h }
    ensures { result ≡ step_at (pace_of run.now.plan.run) run.now.stand.at (offers_of run.now.plan.run run.now.stand.at run.now.stand.ports) }
{
    let agreed = agreed(run, h)?;
    let point = run.point();
    Some(AgreedStep {
        point,
        proposed: h,
        limiter,
        agreed,
        shortening: shortening(plan, run, h, agreed),
        held: held(plan, point.t, agreed),
    })
}
