//! Runs that are driven from row to row, and whose rows are written on the way.
ghost use Rattle.std.specs.Prelude.{◌≡◌, ◌+◌, ◌*◌, ◌≤◌, length, false, IfOk, OnErr, OnOk};
ghost use Rattle.trace_core.specs.Runs.{AreCellsFull, IsOpened, RunState, Stands, is_ended};
ghost use Rattle.trace_core.specs.Settling.{Settled};
ghost use Rattle.trace_rows.specs.Faults.{TellsFault};
ghost use Rattle.trace_rows.specs.Passing.{AreStepsThere, IsFresh, WentOn};
ghost use Rattle.trace_rows.specs.Reports.{AppendsTracePrefix, AppendsRestPrefix, ReportsRest, ReportsTrace, TellsRun};
ghost use Rattle.unit_tree.specs.Successor.{first_position};

use crate::fault::CrewFault;
use crate::report::Report;
use crate::rows::{RowRoom, put_header};
use crate::tally::Tally;
use cosim_io::Sink;
use fixed_words::NoMemory;
use std::alloc::Global;
use trace_core::{Phase, Plan, Run, Settle};

/// The driver of a run: it leads the run from one row to the next. It makes the steps itself or takes them from others.
pub trait Drive {
    /// The state of the run.
    ghost state: { Self → RunState };

    /// Returns the run.
    fn run(&self) -> &Run
        ensures { result.now ≡ state self.now };

    /// Makes all steps that the phase requires, or takes them from others.
    ///
    /// # Errors
    ///
    /// [`NoMemory`]. The run is then given up.
    fn make_steps(&mut self) -> Result<(), NoMemory>
        requires going { is_ended (state self.old).phase ≡ false }
        requires stands { Stands (state self.old) }
        ensures there { OnOk result (AreStepsThere (state self.old) (state self.new)) };

    /// Settles the phase, when all its steps are made.
    fn settle(&mut self) -> Settle
        requires going { is_ended (state self.old).phase ≡ false }
        requires full { AreCellsFull (state self.old).cells }
        ensures settled { Settled (state self.old) (state self.new) result }
        ensures stands { Stands (state self.new) };
}

/// Goes on from a row: makes the step, and makes it again where a redo is due. Returns whether there is a next row.
fn advance<D: Drive>(drive: &mut D) -> Result<bool, NoMemory>
    requires fresh { IsFresh (D.state drive.old) }
    requires stands { Stands (D.state drive.old) }
    ensures went { IfOk result (WentOn (D.state drive.old) (D.state drive.new)) }
    ensures stands { OnOk result (Stands (D.state drive.new)) }
{
    if let Phase::Ended(_) = drive.run().phase() {
        return Ok(false);
    }
    drive.make_steps()?;
    match drive.settle() {
        Settle::Row => Ok(true),
        Settle::Ended => Ok(false),
        Settle::Redo => {
            drive.make_steps()?;
            Ok(matches!(drive.settle(), Settle::Row))
        }
    }
}

/// Drives a run of the plan from where it was opened to its end. Writes each row as one piece, and reports how the run ended.
/// The report counts no tickets.
///
/// Fails with [`CrewFault::WriteFault`] exactly where a write failed. After a failure the written bytes are a prefix of the text of
/// the rows from there.
pub fn put_rest<D: Drive, O: Sink>(
    alloc: Global,
    plan: &Plan,
    drive: &mut D,
    out: &mut O,
) -> Result<Report, CrewFault>
    requires opened { IsOpened plan.now (D.state drive.old).opened (D.state drive.old) }
    requires stands { Stands (D.state drive.old) }
    ensures whole { IfOk result (ReportsRest plan.now (D.state drive.old).opened (O.held out.old) (O.held out.new)) }
    ensures told { IfOk result (TellsRun (D.state drive.new)) }
    ensures front { OnErr result (AppendsRestPrefix plan.now (D.state drive.old).opened (O.held out.old) (O.held out.new)) }
    ensures cause { TellsFault (O.faults out.old) (O.faults out.new) result }
{
    let mut tally = Tally::new();
    let mut room = RowRoom::new(alloc);
    room.put_row(plan, drive.run(), &mut tally, out)?;
    'rows: while advance(drive)? {
        room.put_row(plan, drive.run(), &mut tally, out)?;
    }
    let run = drive.run();
    let Phase::Ended(outcome) = run.phase() else {
        unreachable!()
    };
    Ok(Report::of_run(run, outcome, tally))
}

/// Drives a run of the plan from its start to its end. Writes the header and each row of the trace as one piece, and reports
/// how the trace ended. The report counts no tickets.
///
/// Fails with [`CrewFault::WriteFault`] exactly where a write failed. After a failure the written bytes are a prefix of the text of
/// the trace.
pub fn put_trace<D: Drive, O: Sink>(
    alloc: Global,
    plan: &Plan,
    drive: &mut D,
    out: &mut O,
) -> Result<Report, CrewFault>
    requires opened { IsOpened plan.now (first_position plan.now.run) (D.state drive.old) }
    requires stands { Stands (D.state drive.old) }
    ensures whole { IfOk result (ReportsTrace plan.now.system (O.held out.old) (O.held out.new)) }
    ensures told { IfOk result (TellsRun (D.state drive.new)) }
    ensures front { OnErr result (AppendsTracePrefix plan.now.system (O.held out.old) (O.held out.new)) }
    ensures cause { TellsFault (O.faults out.old) (O.faults out.new) result }
    ensures bounded { IfOk result (λ report. report.found + report.own ≤ 2 * length plan.now.run.members * report.rows) }
{
    put_header(alloc, plan, out)?;
    put_rest(alloc, plan, drive, out)
}
