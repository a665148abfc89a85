//! The command `save`.
ghost use Rattle.cosim_call.specs.Coming.{Makes};
ghost use Rattle.cosim_answers.specs.Answer.{Answers};
ghost use Rattle.cosim_answers.specs.Serving.{MakesSaved};
ghost use Rattle.command_line.specs.declared.commands.Command.TheVariants.{Save};

use command_line::Saving;
use cosim_call::Stopped;
use cosim_notes::plan_of;
use model_rules::Rule;
use save_point::{SaveFault, save_text};
use std::alloc::Global;
use std::sync::Arc;
use trace_core::Plan;

/// Returns the saved text of the position with a number in a plan's trace, or a refusal where there is none.
fn saved_text(alloc: Global, plan: &Arc<Plan>, row: u64) -> Result<Vec<u8>, Stopped>
    ensures { MakesSaved plan.now.value row result }
{
    let mut out = Vec::new(alloc);
    match save_text(alloc, plan, row, &mut out) {
        Ok(()) => Ok(out),
        Err(SaveFault::NoRow) => Err(Stopped::Refused {
            line: 1,
            rule: Rule::RowIsThere.number(),
        }),
        Err(SaveFault::NoMemory) => Err(Stopped::NoMemory),
    }
}

/// Returns what is written for a text: the saved text of the position that is asked for.
pub(crate) fn make(alloc: Global, asked: Saving, text: &[u8]) -> Result<Vec<u8>, Stopped>
    ensures { Makes (Answers (Save asked) text.now) result }
{
    let plan = plan_of(alloc, text)?;
    saved_text(alloc, &plan, asked.row.get())
}
