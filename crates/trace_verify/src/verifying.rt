//! The verdict on a table that should be the trace of a plan.
ghost use Rattle.std.specs.Prelude.{IfOk};
ghost use Rattle.trace_verify.specs.Verifying.{IsVerdictOn};

use crate::compare::Comparison;
use crate::verdict::Verdict;
use fixed_words::NoMemory;
use serial_run::run_alone;
use std::alloc::Global;
use std::sync::Arc;
use trace_core::Plan;

/// Returns whether the records of a table, as `csv` reads them, are those of the trace of a plan, or the first that differs.
///
/// The plan is run in the calling thread, row by row, up to the first difference. One row and one record are kept.
///
/// Fails only for lack of memory.
// It is not inlined, so that the stack of a caller that first reads a text has no space for a reader of records.
#[inline(never)]
pub fn verify(alloc: Global, plan: Arc<Plan>, table: &[u8]) -> Result<Verdict, NoMemory>
    ensures { IfOk result (IsVerdictOn plan.value.system table.now) }
{
    // Called for their clauses, which state the invariants of a judged system and its order.
    let _ = plan.checked().system();
    let _ = plan.checked();
    let _ = plan.order();
    let mut comparison = Comparison::new(alloc, table);
    let whole = run_alone(alloc, plan, &mut comparison).is_ok();
    comparison.verdict(whole)
}
