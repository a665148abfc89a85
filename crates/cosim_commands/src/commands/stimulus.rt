//! The command `stimulus`.
ghost use Rattle.cosim_answers.specs.Answer.{Answers};
ghost use Rattle.cosim_answers.specs.Serving.{FindsTable};
ghost use Rattle.cosim_call.specs.Coming.{Makes};
ghost use Rattle.command_line.specs.Commands.{stimulus_limit};
ghost use Rattle.command_line.specs.declared.commands.Command.TheVariants.{Stimulus};
ghost use Rattle.std.specs.Prelude.{◌≤◌, length};

use crate::commands::print::canonical;
use cosim_call::Stopped;
use model_rules::Rule;
use std::alloc::Global;
use stimulus_tables::{TableFault, stimulus};
use unit_tree::System;

/// Returns the system that plays a table, or a refusal where it doesn't have the form. The refusal has the number of
/// the record instead of a line. This number is at most 22.
fn system_of(alloc: Global, table: &[u8]) -> Result<System, Stopped>
    ensures { FindsTable table.now result }
{
    match stimulus(alloc, table) {
        Ok(system) => Ok(system),
        Err(TableFault::Form { number }) => Err(Stopped::Refused {
            line: number as u32,
            rule: Rule::TableHasForm.number(),
        }),
        Err(TableFault::NoMemory) => Err(Stopped::NoMemory),
    }
}

/// Returns what is written for a table: the canonical text of the system that plays it.
#[inline(never)]
pub(crate) fn make(alloc: Global, table: &[u8]) -> Result<Vec<u8>, Stopped>
    requires within { length table.now ≤ stimulus_limit }
    ensures { Makes (Answers Stimulus table.now) result }
{
    let system = system_of(alloc, table)?;
    Ok(canonical(alloc, &system)?)
}
