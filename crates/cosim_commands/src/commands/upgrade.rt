//! The command `upgrade`.
ghost use Rattle.cosim_call.specs.Coming.{Makes};
ghost use Rattle.cosim_answers.specs.Answer.{Answers};
ghost use Rattle.cosim_answers.specs.Serving.{Upgrades};
ghost use Rattle.command_line.specs.declared.commands.Command.TheVariants.{Upgrade};
ghost use Rattle.unit_tree.specs.Printable.{IsPrintable};
ghost use Rattle.unit_tree.specs.WellFormed.{IsWellFormed};

use crate::commands::print::canonical;
use cosim_call::Stopped;
use cosim_notes::accept;
use model_rules::Rule;
use std::alloc::Global;
use unit_tree::System;
use unit_upgrade::{UpgradeFault, upgrade};

/// Returns a system in version 2, or a refusal where its text would be too long.
fn upgraded(alloc: Global, system: &System) -> Result<System, Stopped>
    requires printable { IsPrintable system.now }
    requires well_formed { IsWellFormed system.now }
    ensures { Upgrades system.now result }
{
    match upgrade(alloc, system) {
        Ok(made) => Ok(made),
        Err(UpgradeFault::TooLong) => Err(Stopped::Refused {
            line: 1,
            rule: Rule::UpgradeFits.number(),
        }),
        Err(UpgradeFault::NoMemory) => Err(Stopped::NoMemory),
    }
}

/// Returns what is written for a text: the canonical text of its system in version 2.
pub(crate) fn make(alloc: Global, text: &[u8]) -> Result<Vec<u8>, Stopped>
    ensures { Makes (Answers Upgrade text.now) result }
{
    let read = accept(alloc, text)?;
    let made = upgraded(alloc, read.checked.source())?;
    Ok(canonical(alloc, &made)?)
}
