//! The command `gen`. Its word is a keyword, so the module has another name.
ghost use Rattle.std.specs.Prelude.{ℕ, List};
ghost use Rattle.cosim_call.specs.Coming.{Makes};
ghost use Rattle.cosim_answers.specs.Answer.{Answers};
ghost use Rattle.command_line.specs.declared.commands.Command.TheVariants.{Gen};

use crate::commands::print::canonical;
use command_line::Generation;
use cosim_call::Stopped;
use std::alloc::Global;

/// Returns what is written, for any input: the canonical text of the generated system.
pub(crate) fn make(alloc: Global, asked: &Generation) -> Result<Vec<u8>, Stopped>
    ensures { (text : List ℕ) → Makes (Answers (Gen asked.now) text) result }
{
    let system = asked.system(alloc)?;
    Ok(canonical(alloc, &system)?)
}
