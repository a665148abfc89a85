//! The steps of all components in a phase, as they are known, and what follows from them.
ghost use Rattle.std.specs.Prelude.{◌≡◌, ◌≤◌, ◌+◌, ◌^◌, length, min};
ghost use Rattle.std.specs.List.{list_all};
ghost use Rattle.model_rules.specs.Limits.{instance_limit};
ghost use Rattle.step_rule.specs.Steps.{AreAsked, IsAsked, is_made, ends_redo, redo_result, reply_by, ends_trial, trial_result};

use crate::rules::capped;
use fixed_words::Fault;
use super_time::limit;
use unit_tree::{Ending, Place};

/// What came of the step of a component in a phase.
#[derive(Clone, Copy, Debug, PartialEq, Eq)]
pub enum Slot {
    /// The component is held: it makes no step in this phase.
    Held,
    /// The step was not made yet, or its result isn't known.
    Empty,
    /// The step was made, and accepted so many local ticks.
    Took(u64),
    /// The step met a fault, and the state stayed.
    Failed(Fault),
}

/// The step of a component in a phase.
#[derive(Clone, Copy, Debug, PartialEq, Eq)]
pub struct Step {
    /// How many ticks of the system one local tick is.
    pub factor: u64,
    /// The length of the step that the component is asked to make, in local ticks.
    pub asked: u64,
    pub slot: Slot,
}

/// The steps of all components of a system in a phase, by the numbers of the components from 0.
pub trait Steps {
    ghost use Rattle.std.specs.Prelude.{◌≡◌, ◌<◌, ◌≤◌, ◌^◌, List, length, slice_get, Some};
    ghost use Rattle.step_rule.specs.declared.steps.Step.{Step};

    /// The steps, in the order of the components.
    ghost steps: { Self → List Step };

    /// Returns how many components there are.
    fn count(&self) -> usize
        ensures { result ≡ length (steps self.now) };

    /// Returns the step of a component.
    fn step(&self, instance: usize) -> Step
        requires there { instance < length (steps self.now) }
        ensures step { slice_get (steps self.now) instance ≡ Some result }
        ensures factor { 1 ≤ result.factor }
        ensures coarsest { result.factor ≤ 10 ^ 9 };
}

/// Returns whether the result of a step is known, or the component is held.
fn is_made(step: Step) -> bool
    ensures { result ≡ is_made step }
{
    !matches!(step.slot, Slot::Empty)
}

/// Returns whether the results of all steps are known. A held component makes no step, so nothing of it is missing.
pub fn are_made<S: Steps>(steps: &S) -> bool
    ensures { result ≡ list_all is_made (S.steps steps.now) }
{
    for instance in 0..steps.count() {
        if !is_made(steps.step(instance)) {
            return false;
        }
    }
    true
}

/// Returns how the step of a component ends the run in a trial, if it does: by its fault.
fn trial_end(instance: u32, step: Step) -> Option<Ending>
    ensures { result ≡ ends_trial (instance, step) }
{
    match step.slot {
        Slot::Failed(fault) => Some(Ending::UnitFault {
            instance,
            place: Place::Step,
            fault,
        }),
        _ => None,
    }
}

/// Returns the reply of a component to a step of `h` from `t`, or `least` where that is less.
fn lesser_reply(least: u64, step: Step, t: u64, h: u64) -> u64
    requires factor { 1 ≤ step.factor }
    requires coarsest { step.factor ≤ 10 ^ 9 }
    requires asked { IsAsked t h step }
    requires at_most { least ≤ h }
    requires end { t + h ≤ 10 ^ 15 }
    ensures { result ≡ min least (reply_by t h step) }
{
    match step.slot {
        Slot::Took(accepted) if accepted != step.asked => {
            capped(least, limit(step.factor, t, accepted))
        }
        _ => least,
    }
}

/// Reads the trial of a step of `h` from `t`. Returns the least of `h` and of all replies, or how the first fault ends the run.
pub fn read_trial<S: Steps>(steps: &S, t: u64, h: u64) -> Result<u64, Ending>
    requires asked { AreAsked t h (S.steps steps.now) }
    requires count { length (S.steps steps.now) ≤ instance_limit }
    requires end { t + h ≤ 10 ^ 15 }
    ensures { result ≡ trial_result t h (S.steps steps.now) }
{
    let mut least = h;
    for instance in 0..steps.count() {
        let step = steps.step(instance);
        if let Some(ending) = trial_end(instance as u32, step) {
            return Err(ending);
        }
        least = lesser_reply(least, step, t, h);
    }
    Ok(least)
}

/// Returns how the step of a component ends the run in a redo, if it does: by its fault, or because it accepted less than the
/// whole step.
fn redo_end(instance: u32, step: Step) -> Option<Ending>
    ensures { result ≡ ends_redo (instance, step) }
{
    match step.slot {
        Slot::Took(accepted) if accepted < step.asked => Some(Ending::StepRefused {
            instance,
            asked: step.asked,
            accepted,
        }),
        _ => trial_end(instance, step),
    }
}

/// Reads a redo. Returns how the first component that has a fault or accepts less than the whole step ends the run, or `None`
/// where there is none.
pub(crate) fn read_redo<S: Steps>(steps: &S) -> Option<Ending>
    requires count { length (S.steps steps.now) ≤ instance_limit }
    ensures { result ≡ redo_result (S.steps steps.now) }
{
    for instance in 0..steps.count() {
        let end = redo_end(instance as u32, steps.step(instance));
        if end.is_some() {
            return end;
        }
    }
    None
}
