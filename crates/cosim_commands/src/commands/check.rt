//! The command `check`.
ghost use Rattle.cosim_call.specs.Coming.{Makes};
ghost use Rattle.cosim_answers.specs.Answer.{Answers};
ghost use Rattle.command_line.specs.declared.commands.Command.TheVariants.{Check};

use cosim_call::Stopped;
use cosim_notes::accept;
use std::alloc::Global;

/// Returns what is written for a text: that it is accepted.
pub(crate) fn make(alloc: Global, text: &[u8]) -> Result<Vec<u8>, Stopped>
    ensures { Makes (Answers Check text.now) result }
{
    drop(accept(alloc, text)?);
    Ok(Vec::from_slice(alloc, b"accepted\n")?)
}
