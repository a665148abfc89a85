//! The two reports of the steps of a run.
ghost use Rattle.std.specs.Prelude.{IfOk, OnErr};
ghost use Rattle.step_log.specs.Reports.{AppendsReportPrefix, ReportsSteps};
ghost use Rattle.trace_rows.specs.Faults.{TellsFault};

use crate::logging::log_steps;
use crate::summarizing::summarize_steps;
use cosim_io::Sink;
use std::alloc::Global;
use std::sync::Arc;
use trace_core::Plan;
use trace_rows::CrewFault;
use unit_tree::{Ending, Point};

/// What is reported of the steps of a run.
#[derive(Clone, Copy, Debug, PartialEq, Eq)]
pub enum StepReport {
    /// A line for each step that the components agreed on.
    Log,
    /// Counts of these steps, with the instances to look at first.
    Summary,
}

/// How and where a run ended.
#[derive(Clone, Copy, Debug, PartialEq, Eq)]
pub struct RunEnd {
    /// How the trace ended.
    pub outcome: Ending,
    /// The last point of the trace, its time in ticks.
    pub last: Point,
    /// How many steps of instances were made.
    pub own: u64,
}

/// Runs a plan in the calling thread, and writes the report of its steps. The header and each line of the log are one piece each,
/// and the summary is one piece. Reports how the trace ended.
///
/// Fails with [`CrewFault::WriteFault`] exactly where a write failed. After a failure the written bytes are a prefix of the report.
pub fn report_steps<O: Sink>(
    alloc: Global,
    plan: Arc<Plan>,
    report: StepReport,
    out: &mut O,
) -> Result<RunEnd, CrewFault>
    ensures whole { IfOk result (ReportsSteps report plan.value.system (O.held out.old) (O.held out.new)) }
    ensures front { OnErr result (AppendsReportPrefix report plan.value.system (O.held out.old) (O.held out.new)) }
    ensures cause { TellsFault (O.faults out.old) (O.faults out.new) result }
{
    match report {
        StepReport::Log => log_steps(alloc, plan, out),
        StepReport::Summary => summarize_steps(alloc, plan, out),
    }
}
