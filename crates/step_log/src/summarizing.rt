//! A run that writes the summary of its steps.
ghost use Rattle.std.specs.Prelude.{◌≡◌, ◌++◌, [], List, ℕ, length, IfOk, OnErr, OnOk};
ghost use Rattle.std.specs.Io.KnownBytes.{Appends};
ghost use Rattle.std.specs.List.{cons_option};
ghost use Rattle.cosim_io.specs.Pieces.{AppendsPrefix};
ghost use Rattle.step_counts.specs.Counting.{HasRoom};
ghost use Rattle.step_counts.specs.Counts.{IsCountOf};
ghost use Rattle.step_counts.specs.Summaries.{summary_of};
ghost use Rattle.step_counts.specs.declared.step.AgreedStep.{AgreedStep};
ghost use Rattle.step_log.specs.Reports.{AppendsReportPrefix, ReportsSteps, plain_step};
ghost use Rattle.step_log.specs.declared.report.StepReport.TheVariants as report;
ghost use Rattle.trace_core.specs.Runs.{Stands};
ghost use Rattle.trace_rows.specs.Faults.{TellsFault};
ghost use Rattle.trace_rows.specs.Passing.{IsFresh, WentOn};

use crate::report::RunEnd;
use crate::trying::{end_of, finish_step, try_step};
use cosim_io::Sink;
use std::alloc::Global;
use std::sync::Arc;
use step_counts::{StepCounts, write_summary};
use trace_core::{Phase, Plan, Run};
use trace_rows::CrewFault;
use unit_tree::Ending;

/// Makes the step from a row, and makes it again where a redo is due. Counts it, where the components agree on one. Returns whether
/// there is a next row.
fn count_step(plan: &Plan, run: &mut Run, counts: &mut StepCounts) -> bool
    requires own { run.old.plan ≡ plan.now }
    requires fresh { IsFresh run.old }
    requires stands { Stands run.old }
    requires room { HasRoom counts.old }
    ensures went { WentOn run.old run.new result }
    ensures alone { run.new.found ≡ run.old.found }
    ensures stands { Stands run.new }
    ensures counted { (instances : ℕ) (steps : List AgreedStep) → IsCountOf instances steps counts.old
        → IsCountOf instances (steps ++ cons_option (plain_step plan.now.run run.old.stand) []) counts.new }
{
    let Phase::Trial { h } = run.phase() else {
        return false;
    };
    if let Some(step) = try_step(plan, run, h) {
        counts.count(step);
    }
    finish_step(run, plan.instances())
}

/// Writes the summary of a run of a plan as one piece, by the counts of its steps and how it ended.
fn put_summary<O: Sink>(
    alloc: Global,
    plan: &Plan,
    counts: &StepCounts,
    outcome: Ending,
    out: &mut O,
) -> Result<(), CrewFault>
    ensures whole { (steps : List AgreedStep) → IsCountOf (length plan.now.system.instances) steps counts.now
        → OnOk result (Appends (O.held out.old) (O.held out.new) (summary_of plan.now.system steps outcome)) }
    ensures front { (steps : List AgreedStep) → IsCountOf (length plan.now.system.instances) steps counts.now
        → OnErr result (AppendsPrefix (O.held out.old) (O.held out.new) (summary_of plan.now.system steps outcome)) }
    ensures cause { TellsFault (O.faults out.old) (O.faults out.new) result }
{
    let mut text = Vec::new(alloc);
    let system = plan.checked().source();
    write_summary(&mut text, system, plan.resolution(), counts, outcome)?;
    out.put(&text)?;
    Ok(())
}

/// Runs a plan in the calling thread, and writes the summary of its steps as one piece. Reports how the trace ended.
///
/// Fails with [`CrewFault::WriteFault`] exactly where the write failed. After a failure the written bytes are a prefix of the
/// summary.
pub(crate) fn summarize_steps<O: Sink>(
    alloc: Global,
    plan: Arc<Plan>,
    out: &mut O,
) -> Result<RunEnd, CrewFault>
    ensures whole { IfOk result (ReportsSteps report.Summary plan.value.system (O.held out.old) (O.held out.new)) }
    ensures front { OnErr result (AppendsReportPrefix report.Summary plan.value.system (O.held out.old) (O.held out.new)) }
    ensures cause { TellsFault (O.faults out.old) (O.faults out.new) result }
{
    let mut run = Run::open(alloc, Arc::clone(&plan)?)?;
    let mut counts = StepCounts::new(alloc, plan.checked().source().instances.len())?;
    'rows: while count_step(&plan, &mut run, &mut counts) {}
    let Phase::Ended(outcome) = run.phase() else {
        unreachable!()
    };
    put_summary(alloc, &plan, &counts, outcome, out)?;
    Ok(end_of(&run, outcome))
}
