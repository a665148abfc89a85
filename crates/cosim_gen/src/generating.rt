//! Generated systems.
ghost use Rattle.std.specs.Prelude.{◌≡◌, [], ◌∷◌, IfOk};
ghost use Rattle.cosim_gen.specs.Generated.{CanGenerate, source_unit, mixer_unit, generated};

use crate::components::{Components, components_of};
use crate::units::{mixer_unit, number, source_unit};
use fixed_words::{List, NoMemory};
use std::alloc::Global;
use unit_tree::{System, Unit};

/// The units of every generated system.
fn units(alloc: Global) -> Result<List<Unit>, NoMemory>
    ensures { IfOk result (λ units. units ≡ source_unit ∷ mixer_unit ∷ []) }
{
    let mut units = List::new(alloc);
    units.push(source_unit(alloc)?)?;
    units.push(mixer_unit(alloc)?)?;
    Ok(units)
}

/// Returns a system of this many components, which is run for this many rows in steps of one second. The draws of
/// the seed choose the parameters of the components and their connections.
///
/// The only error is that there is no memory.
pub fn generate(alloc: Global, seed: u64, instances: u32, rows: u32) -> Result<System, NoMemory>
    requires { CanGenerate instances rows }
    ensures { IfOk result (λ system. system ≡ generated seed instances rows) }
{
    let units = units(alloc)?;
    let Components { instances, wires } = components_of(alloc, seed, u64::from(instances))?;
    Ok(System {
        version: 1,
        units,
        instances,
        wires,
        stop: Some(number(i64::from(rows) - 1)),
        longest: Some(number(1)),
        zero: None,
        rows: Some(rows),
        samples: List::new(alloc),
    })
}
