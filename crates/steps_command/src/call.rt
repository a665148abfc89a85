//! The call: what the words ask for, the plan of the text's system, the report of the steps of its run, and how this ended.
ghost use Rattle.std.specs.Prelude.{◌≡◌, Some};
ghost use Rattle.cosim_call.specs.Calls.{Promises, stream, streams};
ghost use Rattle.cosim_call.specs.Coming.{Comes, Serves};
ghost use Rattle.command_line.specs.Words.{bytes_of};
ghost use Rattle.model_rules.specs.Limits.{text_limit};
ghost use Rattle.steps_command.specs.Reporting.{Reports, TellsReported};
ghost use Rattle.steps_command.specs.StepAnswers.{IsReportAnswer, IsStepsAnswer, StepsUsage, report_asked, steps_input};

use cosim_call::{Served, Status, Stopped, finish, read_input, tell};
use cosim_io::{Sink, Source};
use cosim_notes::{ending_notes, plan_of, status_of};
use model_rules::LONGEST_TEXT;
use std::alloc::Global;
use std::sync::Arc;
use step_log::{RunEnd, StepReport, report_steps};
use trace_core::Plan;
use trace_rows::CrewFault;

/// Returns what the words of a command line ask for: the log, or with `--summary` the summary. Other words ask for nothing.
fn report_asked(words: &[String]) -> Option<StepReport>
    ensures { result ≡ report_asked (bytes_of words.now) }
{
    match words {
        [] => Some(StepReport::Log),
        [word] if word.as_str() == "--summary" => Some(StepReport::Summary),
        _ => None,
    }
}

/// Reports the steps of a plan's run.
fn report_plan<O: Sink>(
    alloc: Global,
    plan: &Arc<Plan>,
    report: StepReport,
    out: &mut O,
) -> Result<RunEnd, Stopped>
    ensures { Reports report plan.now.value.system (stream (O.held out.old) (O.faults out.old)) (stream (O.held out.new) (O.faults out.new)) result }
{
    match report_steps(alloc, Arc::clone(plan)?, report, out) {
        Ok(end) => Ok(end),
        Err(CrewFault::WriteFault) => Err(Stopped::WriteFault),
        Err(CrewFault::NoMemory) => Err(Stopped::NoMemory),
    }
}

/// Reports a run that came to its end.
fn reported(alloc: Global, plan: &Plan, end: RunEnd) -> Result<Served, Stopped>
    ensures { TellsReported plan.now.system end result }
{
    let notes = ending_notes(alloc, plan, end.outcome, end.last)?;
    Ok(Served {
        status: status_of(end.outcome),
        notes,
    })
}

/// Reports the steps of a text's run, or refuses the text.
fn serve<O: Sink>(
    alloc: Global,
    report: StepReport,
    text: &[u8],
    out: &mut O,
) -> Result<Served, Stopped>
    ensures { Serves (IsReportAnswer report text.now) (stream (O.held out.old) (O.faults out.old)) (stream (O.held out.new) (O.faults out.new)) result }
{
    let plan = plan_of(alloc, text)?;
    let end = report_plan(alloc, &plan, report, out)?;
    reported(alloc, &plan, end)
}

/// Reports the steps of the run of what is left in the source, or refuses it.
fn come<S: Source, O: Sink>(
    alloc: Global,
    report: StepReport,
    source: &mut S,
    out: &mut O,
) -> Result<Served, Stopped>
    ensures { Comes (Some text_limit) (IsReportAnswer report)
        (stream (S.left source.old) (S.faults source.old)) (stream (S.left source.new) (S.faults source.new))
        (stream (O.held out.old) (O.faults out.old)) (stream (O.held out.new) (O.faults out.new))
        result }
{
    let text = read_input(alloc, source, Some(LONGEST_TEXT))?;
    serve(alloc, report, &text, out)
}

/// The program: reports the steps of the model that it reads from the source. `words` are those after the program's name: none for
/// the log, or `--summary` for the summary. For other words it reports the usage. The report goes to the output, and the lines of
/// how the run ended to the notes. Returns the status of the call.
pub fn cosim_steps<S: Source, O: Sink, N: Sink>(
    alloc: Global,
    words: &[String],
    source: &mut S,
    out: &mut O,
    notes: &mut N,
) -> Status
    ensures headline { Promises (steps_input (bytes_of words.now)) (IsStepsAnswer (bytes_of words.now))
        (streams (S.left source.old) (S.faults source.old) (O.held out.old) (O.faults out.old) (N.held notes.old) (N.faults notes.old))
        (streams (S.left source.new) (S.faults source.new) (O.held out.new) (O.faults out.new) (N.held notes.new) (N.faults notes.new))
        result }
    ensures usage { StepsUsage (bytes_of words.now) result }
{
    let Some(report) = report_asked(words) else {
        return tell(notes, b"cosim: usage\n", Status::Usage);
    };
    let came = come(alloc, report, source, out);
    finish(alloc, notes, came)
}
