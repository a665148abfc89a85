//! The steps of a phase, and the result of settling it.
ghost use Rattle.std.specs.Prelude.{◌≡◌, true, false};
ghost use Rattle.trace_core.specs.Runs.{AreCellsFull, is_ended};

use model_rules::MOST_INSTANCES;
use std::test::Fail;
use trace_core::{Phase, Run, Settle};

/// Makes the step of an instance, where it is required.
pub fn step(run: &mut Run, instance: u32) {
    if run.wants(instance).is_some() {
        run.compute(instance);
    }
}

/// Makes all required steps, beginning with the first instance or with the last one.
fn step_all(run: &mut Run, last_first: bool) {
    for turn in 0..MOST_INSTANCES as u32 {
        let instance = if last_first {
            MOST_INSTANCES as u32 - 1 - turn
        } else {
            turn
        };
        step(run, instance);
    }
}

/// Returns whether a run goes on, and requires no step.
fn can_settle(run: &Run) -> bool
    ensures going { result ≡ true → is_ended run.now.phase ≡ false }
    ensures full { result ≡ true → AreCellsFull run.now.cells }
{
    if let Phase::Ended(_) = run.phase() {
        return false;
    }
    for instance in 0..MOST_INSTANCES as u32 {
        if run.wants(instance).is_some() {
            return false;
        }
    }
    true
}

/// Makes all required steps, and settles the phase.
pub fn settle(run: &mut Run, last_first: bool) -> Result<Settle, Fail> {
    step_all(run, last_first);
    if !can_settle(run) {
        Err("the run ended, or wants a step")?;
    }
    Ok(run.settle())
}
