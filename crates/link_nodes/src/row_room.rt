//! Writing the rows to which node 0 comes.
ghost use Rattle.std.specs.Prelude.{◌≡◌, ◌∷◌, [], OnOk, OnErr};
ghost use Rattle.std.specs.Io.KnownBytes.{Appends};
ghost use Rattle.cosim_io.specs.Pieces.{AppendsPrefix};
ghost use Rattle.link_laws.specs.Keeping.{IsRowOfTrace};
ghost use Rattle.link_nodes.specs.ShownRows.{IsJudged, comes, row_told, rows_come_to};
ghost use Rattle.trace_rows.specs.Faults.{TellsFault};
ghost use Rattle.trace_rows.specs.Lines.{lines_of};

use cosim_io::Sink;
use link_core::{Node, NodeRow, Taken};
use std::alloc::Global;
use trace_csv::RowWriter;
use trace_plan::Plan;
use trace_rows::CrewFault;

/// States what is known of every plan.
pub(crate) fn judged(plan: &Plan)
    ensures { IsJudged plan.now }
{
    let _ = plan.order();
    let _ = plan.columns();
    let _ = plan.checked().system();
}

/// Returns whether a node came to a row in a call. `going` says whether it had not ended before.
fn comes(going: bool, taken: Taken) -> bool
    ensures { result ≡ comes going taken }
{
    match taken {
        Taken::Row => true,
        Taken::Ended => going,
        Taken::Kept | Taken::Dropped => false,
    }
}

/// What rows are written with: one writer for all of them, and a buffer for the text of one.
#[derive(Drop)]
pub(crate) struct RowPrinter {
    writer: RowWriter,
    line: Vec<u8>,
}

impl RowPrinter {
    /// Returns a value that takes no memory yet: `alloc` is where its memory comes from later.
    pub(crate) fn new(alloc: Global) -> RowPrinter {
        RowPrinter {
            writer: RowWriter::new(alloc),
            line: Vec::new(alloc),
        }
    }

    /// Writes a row of a plan's trace as one piece.
    fn put_row<O: Sink>(
        &mut self,
        plan: &Plan,
        row: NodeRow<'_>,
        out: &mut O,
    ) -> Result<(), CrewFault>
        requires row { IsRowOfTrace plan.now.run (row_told row) }
        ensures whole { OnOk result (Appends (O.held out.old) (O.held out.new) (lines_of plan.now.system (row_told row.entry ∷ []))) }
        ensures front { OnErr result (AppendsPrefix (O.held out.old) (O.held out.new) (lines_of plan.now.system (row_told row.entry ∷ []))) }
        ensures cause { TellsFault (O.faults out.old) (O.faults out.new) result }
    {
        judged(plan);
        self.writer.row_text(
            plan.resolution(),
            row.point,
            plan.columns(),
            row.words,
            &mut self.line,
        )?;
        out.put(&self.line)?;
        Ok(())
    }

    /// Writes the row to which a node came in a call, where it came to one. `going` says whether it had not ended before.
    pub(crate) fn show<O: Sink>(
        &mut self,
        plan: &Plan,
        node: &Node,
        going: bool,
        taken: Taken,
        out: &mut O,
    ) -> Result<(), CrewFault>
        requires own { node.now.plan ≡ plan.now }
        ensures whole { OnOk result (Appends (O.held out.old) (O.held out.new)
            (lines_of plan.now.system (rows_come_to going (node.now.progress, taken)))) }
        ensures front { OnErr result (AppendsPrefix (O.held out.old) (O.held out.new)
            (lines_of plan.now.system (rows_come_to going (node.now.progress, taken)))) }
        ensures cause { TellsFault (O.faults out.old) (O.faults out.new) result }
    {
        let comes = comes(going, taken);
        if !comes {
            return Ok(());
        }
        // Called for its clauses, which state that it is a row of the trace.
        let _ = node.number();
        match node.row() {
            Some(row) => self.put_row(plan, row, out),
            None => Ok(()),
        }
    }
}
