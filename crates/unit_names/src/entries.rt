//! A unit's declarations, in the lists from which its tables are made.
ghost use Rattle.std.specs.Prelude.{◌≡◌, ◌++◌, OnOk, IfOk, map};
ghost use Rattle.unit_names.specs.Entries.{named, event, params_named, locals_named, events_in_named, lines_named, types_named, shared_named, all_inputs_named, all_outputs_named};
ghost use Rattle.unit_names.specs.Found.{as_named, FindsDeclared};

use crate::tables::{Entry, Table, table_of};
use fixed_words::{NoMemory, Ty};
use std::alloc::Global;
use unit_tree::{EventIn, EventOut, Input, Local, Name, Output, Param, State, Unit};

/// A declaration of a unit, with a name and a type.
trait Declaration {
    ghost use Rattle.std.specs.Prelude.{◌≡◌};
    ghost use Rattle.unit_names.specs.Entries.{Named};
    ghost use Rattle.unit_names.specs.Found.{as_named};

    /// The name, the type and whether it is an event port, for contracts.
    ghost named_by: { Self → Named };

    /// Its name and its type, and whether it is an event port.
    fn entry(&self) -> Entry<'_>
        ensures { as_named result ≡ named_by self.now };
}

/// The entry of a line without `event`.
fn plain(name: &Name, ty: Ty) -> Entry<'_>
    ensures { as_named result ≡ named name.now ty }
{
    Entry {
        name: name.as_slice(),
        ty,
        is_event: false,
    }
}

/// An event port.
fn event(name: &Name, ty: Ty) -> Entry<'_>
    ensures { as_named result ≡ event name.now ty }
{
    Entry {
        name: name.as_slice(),
        ty,
        is_event: true,
    }
}

impl Declaration for Param {
    ghost use Rattle.unit_names.specs.Entries.{named};

    ghost named_by = { λ param. named param.name param.ty };

    fn entry(&self) -> Entry<'_> {
        plain(&self.name, self.ty)
    }
}

impl Declaration for State {
    ghost use Rattle.unit_names.specs.Entries.{named};

    ghost named_by = { λ state. named state.name state.ty };

    fn entry(&self) -> Entry<'_> {
        plain(&self.name, self.ty)
    }
}

impl Declaration for Local {
    ghost use Rattle.unit_names.specs.Entries.{named};

    ghost named_by = { λ local. named local.name local.ty };

    fn entry(&self) -> Entry<'_> {
        plain(&self.name, self.ty)
    }
}

impl Declaration for Input {
    ghost use Rattle.unit_names.specs.Entries.{named};

    ghost named_by = { λ input. named input.name input.ty };

    fn entry(&self) -> Entry<'_> {
        plain(&self.name, self.ty)
    }
}

impl Declaration for EventIn {
    ghost use Rattle.unit_names.specs.Entries.{event};

    ghost named_by = { λ input. event input.name input.ty };

    fn entry(&self) -> Entry<'_> {
        event(&self.name, self.ty)
    }
}

impl Declaration for Output {
    ghost use Rattle.unit_names.specs.Entries.{named};

    ghost named_by = { λ output. named output.name output.ty };

    fn entry(&self) -> Entry<'_> {
        plain(&self.name, self.ty)
    }
}

impl Declaration for EventOut {
    ghost use Rattle.unit_names.specs.Entries.{event};

    ghost named_by = { λ output. event output.name output.ty };

    fn entry(&self) -> Entry<'_> {
        event(&self.name, self.ty)
    }
}

/// Adds declarations, in their order.
fn put_all<'a, D: Declaration>(
    entries: &mut Vec<Entry<'a>>,
    declarations: &'a [D],
) -> Result<(), NoMemory>
    ensures { OnOk result (map as_named entries.new.items ≡ map as_named entries.old.items ++ map D.named_by declarations.now) }
{
    for declaration in declarations {
        entries.push(declaration.entry())?;
    }
    Ok(())
}

/// The table of all that a unit declares, in the canonical order of its lines.
pub(crate) fn lines_table<'a>(alloc: Global, unit: &'a Unit) -> Result<Table<'a>, NoMemory>
    ensures { IfOk result (FindsDeclared (lines_named unit.now)) }
{
    let mut entries = Vec::new(alloc);
    put_all(&mut entries, unit.params.as_slice())?;
    put_all(&mut entries, unit.states.as_slice())?;
    put_all(&mut entries, unit.locals.as_slice())?;
    put_all(&mut entries, unit.inputs.as_slice())?;
    put_all(&mut entries, unit.events_in.as_slice())?;
    put_all(&mut entries, unit.outputs.as_slice())?;
    put_all(&mut entries, unit.events_out.as_slice())?;
    table_of(alloc, entries.as_slice())
}

/// The table of all that a unit declares, in the order in which a name's type is searched.
pub(crate) fn types_table<'a>(alloc: Global, unit: &'a Unit) -> Result<Table<'a>, NoMemory>
    ensures { IfOk result (FindsDeclared (types_named unit.now)) }
{
    let mut entries = Vec::new(alloc);
    put_all(&mut entries, unit.params.as_slice())?;
    put_all(&mut entries, unit.states.as_slice())?;
    put_all(&mut entries, unit.inputs.as_slice())?;
    put_all(&mut entries, unit.locals.as_slice())?;
    put_all(&mut entries, unit.events_in.as_slice())?;
    put_all(&mut entries, unit.outputs.as_slice())?;
    put_all(&mut entries, unit.events_out.as_slice())?;
    table_of(alloc, entries.as_slice())
}

/// The table of the names that every expression of a unit may use.
pub(crate) fn shared_table<'a>(alloc: Global, unit: &'a Unit) -> Result<Table<'a>, NoMemory>
    ensures { IfOk result (FindsDeclared (shared_named unit.now)) }
{
    let mut entries = Vec::new(alloc);
    put_all(&mut entries, unit.params.as_slice())?;
    put_all(&mut entries, unit.states.as_slice())?;
    put_all(&mut entries, unit.inputs.as_slice())?;
    put_all(&mut entries, unit.events_in.as_slice())?;
    table_of(alloc, entries.as_slice())
}

/// The table of a unit's inputs, event inputs after the plain ones.
pub(crate) fn inputs_table<'a>(alloc: Global, unit: &'a Unit) -> Result<Table<'a>, NoMemory>
    ensures { IfOk result (FindsDeclared (all_inputs_named unit.now)) }
{
    let mut entries = Vec::new(alloc);
    put_all(&mut entries, unit.inputs.as_slice())?;
    put_all(&mut entries, unit.events_in.as_slice())?;
    table_of(alloc, entries.as_slice())
}

/// The table of a unit's outputs, event outputs after the plain ones.
pub(crate) fn outputs_table<'a>(alloc: Global, unit: &'a Unit) -> Result<Table<'a>, NoMemory>
    ensures { IfOk result (FindsDeclared (all_outputs_named unit.now)) }
{
    let mut entries = Vec::new(alloc);
    put_all(&mut entries, unit.outputs.as_slice())?;
    put_all(&mut entries, unit.events_out.as_slice())?;
    table_of(alloc, entries.as_slice())
}

/// The table of a unit's parameters.
pub(crate) fn params_table<'a>(alloc: Global, unit: &'a Unit) -> Result<Table<'a>, NoMemory>
    ensures { IfOk result (FindsDeclared (params_named unit.now.params)) }
{
    let mut entries = Vec::new(alloc);
    put_all(&mut entries, unit.params.as_slice())?;
    table_of(alloc, entries.as_slice())
}

/// The table of a unit's locals.
pub(crate) fn locals_table<'a>(alloc: Global, unit: &'a Unit) -> Result<Table<'a>, NoMemory>
    ensures { IfOk result (FindsDeclared (locals_named unit.now.locals)) }
{
    let mut entries = Vec::new(alloc);
    put_all(&mut entries, unit.locals.as_slice())?;
    table_of(alloc, entries.as_slice())
}

/// The table of a unit's event inputs.
pub(crate) fn events_table<'a>(alloc: Global, unit: &'a Unit) -> Result<Table<'a>, NoMemory>
    ensures { IfOk result (FindsDeclared (events_in_named unit.now.events_in)) }
{
    let mut entries = Vec::new(alloc);
    put_all(&mut entries, unit.events_in.as_slice())?;
    table_of(alloc, entries.as_slice())
}
