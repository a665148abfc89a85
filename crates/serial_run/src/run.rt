ghost use Rattle.std.specs.Prelude.{◌≤◌, ◌*◌, length, IfOk, OnErr};
ghost use Rattle.serial_run.specs.Alone.{IsAlone};
ghost use Rattle.trace_core.specs.Runs.{IsOpened, Stands};
ghost use Rattle.trace_rows.specs.Faults.{TellsFault};
ghost use Rattle.trace_rows.specs.Reports.{AppendsTracePrefix, AppendsRestPrefix, ReportsRest, ReportsTrace};
ghost use Rattle.unit_tree.specs.Trace.{HasCells};

use crate::alone::Alone;
use cosim_io::Sink;
use std::alloc::Global;
use std::sync::Arc;
use trace_core::{Plan, Run};
use trace_rows::{CrewFault, Report, put_rest as put_driven, put_trace};

/// Continues a run of the plan from where it was opened to its end. Writes each row as one piece, and reports how it ended.
///
/// Fails with [`CrewFault::WriteFault`] exactly where a write failed. After a failure the written bytes are a prefix of the text of
/// the rows from there.
pub fn put_rest<O: Sink>(
    alloc: Global,
    plan: &Plan,
    run: Run,
    out: &mut O,
) -> Result<Report, CrewFault>
    requires opened { IsOpened plan.now run.opened run }
    requires stands { Stands run }
    ensures whole { IfOk result (ReportsRest plan.now run.opened (O.held out.old) (O.held out.new)) }
    ensures alone { IfOk result IsAlone }
    ensures front { OnErr result (AppendsRestPrefix plan.now run.opened (O.held out.old) (O.held out.new)) }
    ensures cause { TellsFault (O.faults out.old) (O.faults out.new) result }
{
    let mut alone = Alone::new(run, plan.instances());
    let told = put_driven(alloc, plan, &mut alone, out);
    alone.facts();
    told
}

/// Runs a plan in the calling thread. Writes the header and each row of the trace as one piece, and reports how the trace
/// ended.
///
/// Fails with [`CrewFault::WriteFault`] exactly where a write failed. After a failure the written bytes are a prefix of the text of
/// the trace.
pub fn run_alone<O: Sink>(alloc: Global, plan: Arc<Plan>, out: &mut O) -> Result<Report, CrewFault>
    ensures whole { IfOk result (ReportsTrace plan.value.system (O.held out.old) (O.held out.new)) }
    ensures alone { IfOk result IsAlone }
    ensures own { IfOk result (λ report. HasCells plan.value.system report.own) }
    ensures front { OnErr result (AppendsTracePrefix plan.value.system (O.held out.old) (O.held out.new)) }
    ensures cause { TellsFault (O.faults out.old) (O.faults out.new) result }
    ensures bounded { IfOk result (λ report. report.own ≤ 2 * length plan.value.run.members * report.rows) }
{
    // All memory of the run except for its lines is taken before anything is written.
    let run = Run::open(alloc, Arc::clone(&plan)?)?;
    let mut alone = Alone::new(run, plan.instances());
    let told = put_trace(alloc, &plan, &mut alone, out);
    alone.facts();
    told
}
