//! The command `flatten`, in three steps: the nest of the text, the canonical text of its flat system, and whether this keeps all rules
//! of the language.
ghost use Rattle.command_line.specs.declared.commands.Command.TheVariants.{Flatten};
ghost use Rattle.cosim_answers.specs.Answer.{Answers};
ghost use Rattle.cosim_answers.specs.Serving.{FindsFlat, FindsNest};
ghost use Rattle.cosim_call.specs.Coming.{Makes};
ghost use Rattle.std.specs.Prelude.{◌≡◌, length};

use crate::commands::print::canonical;
use cosim_call::Stopped;
use cosim_notes::accept;
use nest_text::{Nest, NestFault, read_nest};
use std::alloc::Global;
use sub_flat::into_flat;

/// Returns the nest of a text, or the text's refusal.
fn nest_in(alloc: Global, text: &[u8]) -> Result<Nest, Stopped>
    ensures { FindsNest text.now result }
{
    match read_nest(alloc, text) {
        Ok(nest) => Ok(nest),
        Err(NestFault::Line { line, rule }) => Err(Stopped::Refused { line, rule }),
        Err(NestFault::NoMemory) => Err(Stopped::NoMemory),
    }
}

/// Returns the canonical text of the flat system of a nest, or the refusal of the nest.
fn flat_text(alloc: Global, nest: Nest) -> Result<Vec<u8>, Stopped>
    requires { length nest.lines ≡ length nest.groups }
    ensures { FindsFlat nest result }
{
    match into_flat(alloc, nest) {
        Ok(flat) => Ok(canonical(alloc, &flat)?),
        Err(NestFault::Line { line, rule }) => Err(Stopped::Refused { line, rule }),
        Err(NestFault::NoMemory) => Err(Stopped::NoMemory),
    }
}

/// Returns what is written for a nested text: the canonical text of its flat system.
#[inline(never)]
pub(crate) fn make(alloc: Global, text: &[u8]) -> Result<Vec<u8>, Stopped>
    ensures { Makes (Answers Flatten text.now) result }
{
    let nest = nest_in(alloc, text)?;
    let flat = flat_text(alloc, nest)?;
    accept(alloc, &flat)?;
    Ok(flat)
}
