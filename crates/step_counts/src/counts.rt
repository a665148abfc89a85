//! Counts of steps.
ghost use Rattle.std.specs.Prelude.{◌≡◌, ◌<◌, ◌∷◌, ◌++◌, [], List, ℕ, map, IfOk};
ghost use Rattle.std.specs.List.{AllByRecursion};
ghost use Rattle.step_counts.specs.Counts.{IsCountOf, is_limited_by, is_longest, is_redone, is_shortened_by, is_stop};
ghost use Rattle.step_counts.specs.Counting.{HasRoom, IsBelowRows, with_step};
ghost use Rattle.step_counts.specs.declared.step.AgreedStep.{AgreedStep};
ghost use Rattle.model_rules.specs.Limits.{rows_limit};

use crate::step::{AgreedStep, Limiter};
use fixed_words::NoMemory;
use std::alloc::Global;

/// What is counted of an instance.
#[derive(Clone, Copy, Debug, PartialEq, Eq)]
pub struct InstanceCounts {
    /// Its number, from 0.
    pub instance: usize,
    /// How many steps it limited.
    pub limited: u64,
    /// How many steps it shortened.
    pub shortened: u64,
    /// The least of the limits that limited a step, in ticks of the system.
    pub least_limit: Option<u64>,
}

/// Returns whether a step is made again.
fn is_redone(step: AgreedStep) -> bool
    ensures { result ≡ is_redone step }
{
    step.agreed < step.proposed
}

/// Returns whether the stop of the system limits a step.
fn is_stop(limiter: Limiter) -> bool
    ensures { result ≡ is_stop limiter }
{
    matches!(limiter, Limiter::Stop)
}

/// Returns whether the longest step of the system limits a step.
fn is_longest(limiter: Limiter) -> bool
    ensures { result ≡ is_longest limiter }
{
    matches!(limiter, Limiter::Longest)
}

/// Returns whether the limit of an instance limits a step.
fn is_limited_by(instance: usize, step: AgreedStep) -> bool
    ensures { result ≡ is_limited_by instance step }
{
    match step.limiter {
        Limiter::Instance(other) => other as usize == instance,
        Limiter::Stop | Limiter::Longest => false,
    }
}

/// Returns whether an instance shortens a step.
fn is_shortened_by(instance: usize, step: AgreedStep) -> bool
    ensures { result ≡ is_shortened_by instance step }
{
    match step.shortening {
        Some(shortening) => shortening.instance as usize == instance,
        None => false,
    }
}

impl InstanceCounts {
    /// Returns the counts with one more step.
    fn with_step(self, step: AgreedStep) -> InstanceCounts
        requires limited { self.limited < rows_limit }
        requires shortened { self.shortened < rows_limit }
        ensures { result ≡ with_step self step }
    {
        let mut counts = self;
        if is_limited_by(self.instance, step) {
            counts.limited += 1;
            counts.least_limit = match self.least_limit {
                Some(least) => Some(least.min(step.proposed)),
                None => Some(step.proposed),
            };
        }
        if is_shortened_by(self.instance, step) {
            counts.shortened += 1;
        }
        counts
    }
}

/// Counts a step for each instance.
fn count_for_each(instances: &mut [InstanceCounts], step: AgreedStep)
    requires room { AllByRecursion IsBelowRows instances.old }
    ensures { instances.new ≡ map (λ counts. with_step counts step) instances.old }
{
    for place in 0..instances.len() {
        instances[place] = instances[place].with_step(step);
    }
}

/// Counts of the steps that the components of a run agreed on.
#[derive(Drop)]
pub struct StepCounts {
    /// How many steps were counted.
    pub steps: u64,
    /// How many of them were made again, since they are shorter than the proposed step.
    pub redone: u64,
    /// How many of them the stop of the system limited.
    pub to_stop: u64,
    /// How many of them the longest step of the system limited.
    pub longest: u64,
    /// What is counted of each instance, by its number.
    pub instances: Vec<InstanceCounts>,
}

impl StepCounts {
    /// Returns the counts of no steps, for so many instances.
    pub fn new(alloc: Global, instances: usize) -> Result<StepCounts, NoMemory>
        ensures { IfOk result (IsCountOf instances []) }
    {
        let mut list = Vec::new(alloc);
        for instance in 0..instances {
            list.push(InstanceCounts {
                instance,
                limited: 0,
                shortened: 0,
                least_limit: None,
            })?;
        }
        Ok(StepCounts {
            steps: 0,
            redone: 0,
            to_stop: 0,
            longest: 0,
            instances: list,
        })
    }

    /// Counts a step.
    pub fn count(&mut self, step: AgreedStep)
        requires room { HasRoom self.old }
        ensures { (instances : ℕ) (steps : List AgreedStep) → IsCountOf instances steps self.old → IsCountOf instances (steps ++ step ∷ []) self.new }
    {
        self.steps += 1;
        self.redone += u64::from(is_redone(step));
        self.to_stop += u64::from(is_stop(step.limiter));
        self.longest += u64::from(is_longest(step.limiter));
        count_for_each(self.instances.as_mut_slice(), step);
    }
}
