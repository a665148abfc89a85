//! The command `print`.
ghost use Rattle.std.specs.Prelude.{◌≡◌, IfOk};
ghost use Rattle.cosim_call.specs.Coming.{Makes};
ghost use Rattle.cosim_answers.specs.Accepted.{printed_text};
ghost use Rattle.cosim_answers.specs.Answer.{Answers};
ghost use Rattle.command_line.specs.declared.commands.Command.TheVariants.{Print};

use cosim_call::Stopped;
use cosim_notes::accept;
use fixed_words::NoMemory;
use std::alloc::Global;
use unit_print::print_system;
use unit_tree::System;

/// Returns the canonical text of a system.
#[tactic(auto, unfolding(cosim_answers::specs::Accepted::printed_text))]
pub(crate) fn canonical(alloc: Global, system: &System) -> Result<Vec<u8>, NoMemory>
    ensures { IfOk result (λ text. text.items ≡ printed_text system.now) }
{
    let mut text = Vec::new(alloc);
    print_system(alloc, system, &mut text)?;
    Ok(text)
}

/// Returns what is written for a text: the canonical text of its system.
pub(crate) fn make(alloc: Global, text: &[u8]) -> Result<Vec<u8>, Stopped>
    ensures { Makes (Answers Print text.now) result }
{
    let read = accept(alloc, text)?;
    Ok(canonical(alloc, read.checked.source())?)
}
