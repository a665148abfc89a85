//! The header and the rows: their text, written as one piece each, and the sums of rows.
ghost use Rattle.std.specs.Prelude.{◌≡◌, ◌<◌, ◌≤◌, ◌^◌, length, OnOk, OnErr};
ghost use Rattle.std.specs.List.{AllByRecursion};
ghost use Rattle.std.specs.Io.KnownBytes.{Appends};
ghost use Rattle.cosim_io.specs.Pieces.{AppendsPrefix};
ghost use Rattle.trace_rows.specs.Lines.{PutsRow, header_of};
ghost use Rattle.trace_rows.specs.Faults.{TellsFault};
ghost use Rattle.trace_rows.specs.Sums.{IsBoundedBy, word_shown, row_sum};
ghost use Rattle.trace_core.specs.Runs.{Stands};
ghost use Rattle.trace_csv.specs.TraceText.{HasWord, row_line};
ghost use Rattle.model_rules.specs.Limits.{rows_limit, sample_limit};

use crate::fault::CrewFault;
use crate::tally::Tally;
use cosim_io::Sink;
use std::alloc::Global;
use trace_core::{Plan, Row, Run};
use trace_csv::{RowWriter, header_text};
use unit_tree::Column;

/// Returns what the field of a column adds to a sum.
fn word_shown(column: Column, ports: &[i64]) -> i64
    requires { HasWord ports.now column }
    ensures { result ≡ word_shown ports.now column }
{
    let place = column.place as usize;
    if column.event && ports[place - 1] == 0 {
        return 0;
    }
    ports[place]
}

/// Returns the sum of the words that a row shows.
fn row_sum(columns: &[Column], ports: &[i64]) -> i128
    requires words { AllByRecursion (HasWord ports.now) columns.now }
    requires few { length columns.now ≤ sample_limit }
    ensures sum { result ≡ row_sum columns.now ports.now }
    ensures bound { IsBoundedBy (2 ^ 95) result }
{
    let mut sum = 0;
    for column in columns {
        sum += i128::from(word_shown(*column, ports));
    }
    sum
}

/// Writes a row as one piece. `writer` makes all rows of the run, and `line` is a buffer for the text of one.
fn put_line<O: Sink>(
    writer: &mut RowWriter,
    resolution: u8,
    columns: &[Column],
    row: Row<'_>,
    line: &mut Vec<u8>,
    out: &mut O,
) -> Result<(), CrewFault>
    requires resolution { resolution ≤ 9 }
    requires words { AllByRecursion (HasWord row.ports.now) columns.now }
    ensures whole { OnOk result (Appends (O.held out.old) (O.held out.new) (row_line resolution columns.now row.entry.point row.entry.ports.now)) }
    ensures front { OnErr result (AppendsPrefix (O.held out.old) (O.held out.new) (row_line resolution columns.now row.entry.point row.entry.ports.now)) }
    ensures cause { TellsFault (O.faults out.old) (O.faults out.new) result }
{
    writer.row_text(resolution, row.point, columns, row.ports, line)?;
    out.put(line)?;
    Ok(())
}

/// Writes the header of a plan's trace as one piece.
///
/// Fails with [`CrewFault::WriteFault`] exactly where the write failed. After a failure the written bytes are a prefix of the
/// header.
pub fn put_header<O: Sink>(alloc: Global, plan: &Plan, out: &mut O) -> Result<(), CrewFault>
    ensures whole { OnOk result (Appends (O.held out.old) (O.held out.new) (header_of plan.now.system)) }
    ensures front { OnErr result (AppendsPrefix (O.held out.old) (O.held out.new) (header_of plan.now.system)) }
    ensures cause { TellsFault (O.faults out.old) (O.faults out.new) result }
{
    let mut line = Vec::new(alloc);
    header_text(alloc, plan.checked(), plan.columns(), &mut line)?;
    out.put(&line)?;
    Ok(())
}

/// What the rows of a run are made with: one writer for all of them, and a buffer for the text of one.
#[derive(Drop)]
pub struct RowRoom {
    writer: RowWriter,
    line: Vec<u8>,
}

impl RowRoom {
    /// Returns a value that takes no memory yet: `alloc` is where its memory comes from later.
    pub fn new(alloc: Global) -> RowRoom {
        RowRoom {
            writer: RowWriter::new(alloc),
            line: Vec::new(alloc),
        }
    }

    /// Writes the row at which a run of the plan is as one piece, if there is a row, and counts it.
    ///
    /// Fails with [`CrewFault::WriteFault`] exactly where the write failed. After a failure the written bytes are a prefix of the
    /// row's line.
    pub fn put_row<O: Sink>(
        &mut self,
        plan: &Plan,
        run: &Run,
        tally: &mut Tally,
        out: &mut O,
    ) -> Result<(), CrewFault>
        requires own { run.now.plan ≡ plan.now }
        requires stands { Stands run.now }
        requires rows { tally.old.rows < rows_limit }
        ensures { PutsRow plan.now run.now.stand (O.held out.old) (O.held out.new) (O.faults out.old) (O.faults out.new) tally.old tally.new result }
    {
        let Some(row) = run.row() else {
            return Ok(());
        };
        let columns = plan.columns();
        put_line(
            &mut self.writer,
            plan.resolution(),
            columns,
            row,
            &mut self.line,
            out,
        )?;
        tally.count(row_sum(columns, row.ports));
        Ok(())
    }
}
