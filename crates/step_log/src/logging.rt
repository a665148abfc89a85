//! A run that writes its step log.
ghost use Rattle.std.specs.Prelude.{◌≡◌, IfOk, OnErr, OnOk};
ghost use Rattle.std.specs.Io.KnownBytes.{Appends};
ghost use Rattle.cosim_io.specs.Pieces.{AppendsPrefix};
ghost use Rattle.step_log.specs.Lines.{line_if, log_header};
ghost use Rattle.step_log.specs.Reports.{AppendsReportPrefix, ReportsSteps, plain_step};
ghost use Rattle.step_log.specs.declared.report.StepReport.TheVariants as report;
ghost use Rattle.trace_core.specs.Runs.{Stands};
ghost use Rattle.trace_rows.specs.Faults.{TellsFault};
ghost use Rattle.trace_rows.specs.Passing.{IsFresh, WentOn};

use crate::report::RunEnd;
use crate::text::{header, write_line};
use crate::trying::{end_of, finish_step, try_step};
use cosim_io::Sink;
use std::alloc::Global;
use std::sync::Arc;
use step_counts::AgreedStep;
use trace_core::{Phase, Plan, Run};
use trace_rows::CrewFault;

/// Writes the header of a log as one piece.
fn put_header<O: Sink>(out: &mut O) -> Result<(), CrewFault>
    ensures whole { OnOk result (Appends (O.held out.old) (O.held out.new) log_header) }
    ensures front { OnErr result (AppendsPrefix (O.held out.old) (O.held out.new) log_header) }
    ensures cause { TellsFault (O.faults out.old) (O.faults out.new) result }
{
    out.put(header())?;
    Ok(())
}

/// Writes the line of a step as one piece, where there is one. `line` is a buffer for its text.
fn put_line<O: Sink>(
    plan: &Plan,
    step: Option<AgreedStep>,
    line: &mut Vec<u8>,
    out: &mut O,
) -> Result<(), CrewFault>
    ensures whole { OnOk result (Appends (O.held out.old) (O.held out.new) (line_if plan.now.system step)) }
    ensures front { OnErr result (AppendsPrefix (O.held out.old) (O.held out.new) (line_if plan.now.system step)) }
    ensures cause { TellsFault (O.faults out.old) (O.faults out.new) result }
{
    let Some(step) = step else {
        return Ok(());
    };
    write_line(line, plan.checked().source(), plan.resolution(), step)?;
    out.put(line)?;
    Ok(())
}

/// Makes the step from a row, and makes it again where a redo is due. Writes its line as one piece, where the components agree on
/// one. Returns whether there is a next row.
fn log_step<O: Sink>(
    plan: &Plan,
    run: &mut Run,
    line: &mut Vec<u8>,
    out: &mut O,
) -> Result<bool, CrewFault>
    requires own { run.old.plan ≡ plan.now }
    requires fresh { IsFresh run.old }
    requires stands { Stands run.old }
    ensures went { IfOk result (WentOn run.old run.new) }
    ensures alone { OnOk result (run.new.found ≡ run.old.found) }
    ensures stands { OnOk result (Stands run.new) }
    ensures whole { OnOk result (Appends (O.held out.old) (O.held out.new) (line_if plan.now.system (plain_step plan.now.run run.old.stand))) }
    ensures front { OnErr result (AppendsPrefix (O.held out.old) (O.held out.new) (line_if plan.now.system (plain_step plan.now.run run.old.stand))) }
    ensures cause { TellsFault (O.faults out.old) (O.faults out.new) result }
{
    let Phase::Trial { h } = run.phase() else {
        return Ok(false);
    };
    let step = try_step(plan, run, h);
    put_line(plan, step, line, out)?;
    Ok(finish_step(run, plan.instances()))
}

/// Runs a plan in the calling thread, and writes the log of its steps: the header, and a line for each step that the components
/// agree on, each as one piece. Reports how the trace ended.
///
/// Fails with [`CrewFault::WriteFault`] exactly where a write failed. After a failure the written bytes are a prefix of the log.
pub(crate) fn log_steps<O: Sink>(
    alloc: Global,
    plan: Arc<Plan>,
    out: &mut O,
) -> Result<RunEnd, CrewFault>
    ensures whole { IfOk result (ReportsSteps report.Log plan.value.system (O.held out.old) (O.held out.new)) }
    ensures front { OnErr result (AppendsReportPrefix report.Log plan.value.system (O.held out.old) (O.held out.new)) }
    ensures cause { TellsFault (O.faults out.old) (O.faults out.new) result }
{
    // All memory of the run except for its lines is taken before anything is written.
    let mut run = Run::open(alloc, Arc::clone(&plan)?)?;
    put_header(out)?;
    let mut line = Vec::new(alloc);
    'rows: while log_step(&plan, &mut run, &mut line, out)? {}
    let Phase::Ended(outcome) = run.phase() else {
        unreachable!()
    };
    Ok(end_of(&run, outcome))
}
