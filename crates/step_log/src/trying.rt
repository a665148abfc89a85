//! The step of a run from one row to the next, in two parts: the trial and what the components agree on there, and what follows.
ghost use Rattle.std.specs.Prelude.{◌≡◌, false, length};
ghost use Rattle.step_log.specs.Reports.{plain_step};
ghost use Rattle.trace_core.specs.Runs.{AreCellsFull, RunState, Stands, is_ended};
ghost use Rattle.trace_core.specs.declared.phase.Phase.TheVariants.{Ended, Trial};
ghost use Rattle.trace_rows.specs.Passing.{AreStepsThere, IsFresh, WentOn};

use crate::negotiating::{agreement, limiter};
use crate::report::RunEnd;
use serial_run::step_all;
use step_counts::AgreedStep;
use trace_core::{Phase, Plan, Run, Settle};
use unit_tree::Ending;

/// Makes the steps of the trial of a step of `h`. Returns the step that the components agree on, or `None` where a step met a
/// fault.
pub(crate) fn try_step(plan: &Plan, run: &mut Run, h: u64) -> Option<AgreedStep>
    requires own { run.old.plan ≡ plan.now }
    requires fresh { IsFresh run.old }
    requires stands { Stands run.old }
    requires trial { run.old.phase ≡ Trial h }
    ensures step { result ≡ plain_step plan.now.run run.old.stand }
    ensures there { AreStepsThere run.old run.new }
    ensures alone { run.new.found ≡ run.old.found }
{
    let limiter = limiter(plan, run, h);
    step_all(run, plan.instances());
    // Called for its clauses, which state that the run follows from its plan.
    let _ = run.phase();
    agreement(plan, run, h, limiter)
}

/// Settles a trial, all of whose steps are made, and makes and settles the redo where one is due. Returns whether there is a next
/// row.
pub(crate) fn finish_step(run: &mut Run, instances: u32) -> bool
    requires each { instances ≡ length run.old.plan.run.members }
    requires going { is_ended run.old.phase ≡ false }
    requires full { AreCellsFull run.old.cells }
    ensures went { (r : RunState) → Stands r → IsFresh r → is_ended r.phase ≡ false → AreStepsThere r run.old → WentOn r run.new result }
    ensures stands { Stands run.new }
    ensures alone { run.new.found ≡ run.old.found }
{
    match run.settle() {
        Settle::Row => true,
        Settle::Ended => false,
        Settle::Redo => {
            step_all(run, instances);
            matches!(run.settle(), Settle::Row)
        }
    }
}

/// Returns how and where a run ended.
pub(crate) fn end_of(run: &Run, outcome: Ending) -> RunEnd
    requires { run.now.phase ≡ Ended outcome }
    ensures { result ≡ record { outcome = outcome; last = run.now.stand.at.point; own = run.now.own } }
{
    RunEnd {
        outcome,
        last: run.point(),
        own: run.own(),
    }
}
