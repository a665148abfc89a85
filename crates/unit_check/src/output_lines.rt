//! The canonical line of an output.
ghost use Rattle.std.specs.Prelude.{◌≡◌, IfOk};
ghost use Rattle.std.specs.Option.{option_and_then, option_copied};
ghost use Rattle.unit_tree.specs.Names.{instance_named, unit_of_instance};
ghost use Rattle.unit_tree.specs.Orders.{line_of_output};

use crate::question::Question;
use crate::tables::SystemTables;
use crate::walk::{Stop, past_all};
use fixed_words::NoMemory;
use std::alloc::{AllocError, Global};
use unit_tree::{System, Unit};

/// The unit of an instance, by the instance's name.
fn unit_of<'a>(tables: &'a SystemTables<'_>, instance: &[u8]) -> Option<&'a Unit>
    ensures { option_copied result ≡ option_and_then (unit_of_instance tables.now) (instance_named tables.now instance.now) }
{
    let found = tables.names().instance_named(instance)?;
    let unit = tables.names().unit_of(found)?;
    Some(unit.unit())
}

/// The canonical line, counted from 1, that declares the output of a name in the unit of an instance, in the system of
/// the tables. None where no line does.
fn declaring_line(
    tables: &SystemTables<'_>,
    instance: &[u8],
    output: &[u8],
) -> Result<Option<u32>, NoMemory>
    ensures { IfOk result (λ line. line ≡ line_of_output tables.now (record { instance = instance.now; port = output.now })) }
{
    let Some(unit) = unit_of(tables, instance) else {
        return Ok(None);
    };
    match past_all(Question::Declares { unit, output }, tables) {
        Ok(_) => Ok(None),
        Err(Stop::At(line)) => Ok(Some(line)),
        Err(Stop::Full) => Err(AllocError),
    }
}

/// The canonical line, counted from 1, that declares an output in the unit of an instance. Both are given by their
/// names. None where no line does.
///
/// Where a system has more lines than 32 bits count, the error is `NoMemory`.
pub fn line_of_output(
    alloc: Global,
    system: &System,
    instance: &[u8],
    output: &[u8],
) -> Result<Option<u32>, NoMemory>
    ensures { IfOk result (λ line. line ≡ line_of_output system.now (record { instance = instance.now; port = output.now })) }
{
    let tables = SystemTables::new(alloc, system)?;
    declaring_line(&tables, instance, output)
}
