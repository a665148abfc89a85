//! A unit with tables of its names.
ghost use Rattle.std.specs.Prelude.{◌≡◌, ◌++◌, IfOk, map};
ghost use Rattle.std.specs.Option.{option_map};
ghost use Rattle.unit_tree.specs.Names.{is_among, are_among, param_names, input_names, output_names, input_ports, output_ports, event_input_names, shared_names, type_in, param_named};
ghost use Rattle.unit_names.specs.Entries.{lines_named, types_named, shared_named, locals_named, events_in_named, params_named, all_inputs_named, all_outputs_named};
ghost use Rattle.unit_names.specs.Found.{first_place, declared_names, port_among, FindsDeclared};

use crate::entries::{
    events_table, inputs_table, lines_table, locals_table, outputs_table, params_table,
    shared_table, types_table,
};
use crate::tables::{Declared, Table, find};
use fixed_words::{NoMemory, Ty};
use std::alloc::Global;
use std::marker::Model;
use unit_tree::{Name, Unit};

/// What a unit declares.
#[derive(Drop)]
struct Declarations<'a> {
    lines: Table<'a>,
    types: Table<'a>,
    params: Table<'a>,
}

fn declarations_of<'a>(alloc: Global, unit: &'a Unit) -> Result<Declarations<'a>, NoMemory>
    ensures { IfOk result (λ all.
        FindsDeclared (lines_named unit.now) all.lines
        × FindsDeclared (types_named unit.now) all.types
        × FindsDeclared (params_named unit.now.params) all.params) }
{
    let lines = lines_table(alloc, unit)?;
    let types = types_table(alloc, unit)?;
    let params = params_table(alloc, unit)?;
    Ok(Declarations {
        lines,
        types,
        params,
    })
}

/// The names that expressions of a unit may use.
#[derive(Drop)]
struct Usable<'a> {
    shared: Table<'a>,
    locals: Table<'a>,
    events: Table<'a>,
}

fn usable_of<'a>(alloc: Global, unit: &'a Unit) -> Result<Usable<'a>, NoMemory>
    ensures { IfOk result (λ all.
        FindsDeclared (shared_named unit.now) all.shared
        × FindsDeclared (locals_named unit.now.locals) all.locals
        × FindsDeclared (events_in_named unit.now.events_in) all.events) }
{
    let shared = shared_table(alloc, unit)?;
    let locals = locals_table(alloc, unit)?;
    let events = events_table(alloc, unit)?;
    Ok(Usable {
        shared,
        locals,
        events,
    })
}

/// The tables of a unit, except those of its ports.
#[derive(Drop)]
struct NameTables<'a> {
    declared: Declarations<'a>,
    usable: Usable<'a>,
}

fn name_tables_of<'a>(alloc: Global, unit: &'a Unit) -> Result<NameTables<'a>, NoMemory>
    ensures { IfOk result (λ all.
        FindsDeclared (lines_named unit.now) all.declared.lines
        × FindsDeclared (types_named unit.now) all.declared.types
        × FindsDeclared (params_named unit.now.params) all.declared.params
        × FindsDeclared (shared_named unit.now) all.usable.shared
        × FindsDeclared (locals_named unit.now.locals) all.usable.locals
        × FindsDeclared (events_in_named unit.now.events_in) all.usable.events) }
{
    let declared = declarations_of(alloc, unit)?;
    let usable = usable_of(alloc, unit)?;
    Ok(NameTables { declared, usable })
}

/// The ports of a unit.
#[derive(Drop)]
struct Ports<'a> {
    inputs: Table<'a>,
    outputs: Table<'a>,
}

fn ports_of<'a>(alloc: Global, unit: &'a Unit) -> Result<Ports<'a>, NoMemory>
    ensures { IfOk result (λ all.
        FindsDeclared (all_inputs_named unit.now) all.inputs
        × FindsDeclared (all_outputs_named unit.now) all.outputs) }
{
    let inputs = inputs_table(alloc, unit)?;
    let outputs = outputs_table(alloc, unit)?;
    Ok(Ports { inputs, outputs })
}

fn place_of(found: Option<Declared>) -> Option<usize>
    ensures { result ≡ option_map (λ declared. declared.place) found }
{
    Some(found?.place)
}

/// A unit, with tables of all that it declares. Contracts see it as the unit.
///
/// Equal names are allowed everywhere: the result is that of the first declaration of the name among those that are
/// searched.
#[derive(Drop)]
pub struct UnitNames<'a> {
    unit: &'a Unit,
    names: NameTables<'a>,
    ports: Ports<'a>,
}

impl<'a> Model for UnitNames<'a> {
    ghost use Rattle.std.specs.Coded.{codes};
    ghost use Rattle.unit_tree.specs.contracts.expr.Expr as expr;
    ghost use Rattle.unit_tree.specs.contracts.line.Line as line;
    ghost use Rattle.unit_tree.specs.declared.unit.Unit.{Unit};
    ghost use Rattle.unit_names.specs.Entries.{lines_named, types_named, shared_named, locals_named, events_in_named, params_named, all_inputs_named, all_outputs_named};
    ghost use Rattle.unit_names.specs.Found.{FindsDeclared};

    ghost Value = { Unit };

    ghost coded = { Prim.hlevel (codes, expr.the_row.coded, line.the_row.coded) };

    ghost view = { λ tables. tables.unit.now };

    ghost invariant = { λ tables.
        FindsDeclared (lines_named tables.unit.now) tables.names.declared.lines
        × FindsDeclared (types_named tables.unit.now) tables.names.declared.types
        × FindsDeclared (params_named tables.unit.now.params) tables.names.declared.params
        × FindsDeclared (shared_named tables.unit.now) tables.names.usable.shared
        × FindsDeclared (locals_named tables.unit.now.locals) tables.names.usable.locals
        × FindsDeclared (events_in_named tables.unit.now.events_in) tables.names.usable.events
        × FindsDeclared (all_inputs_named tables.unit.now) tables.ports.inputs
        × FindsDeclared (all_outputs_named tables.unit.now) tables.ports.outputs };
}

impl<'a> UnitNames<'a> {
    /// Makes the tables of a unit. The only error is that there is no memory.
    pub fn new(alloc: Global, unit: &'a Unit) -> Result<UnitNames<'a>, NoMemory>
        ensures { IfOk result (λ names. names ≡ unit.now) }
    {
        // The larger part comes last, since the proof grows with what is dropped on an early return.
        let ports = ports_of(alloc, unit)?;
        let names = name_tables_of(alloc, unit)?;
        Ok(UnitNames { unit, names, ports })
    }

    /// The unit itself.
    pub fn unit(&self) -> &'a Unit
        ensures { result.now ≡ self.now }
    {
        self.unit
    }

    /// The first place of a name among all that the unit declares, in the canonical order of its lines: parameters,
    /// states, locals, inputs, event inputs, outputs, event outputs.
    #[tactic(auto, using(crate::proofs::UnitTables::place_found))]
    pub fn first_place(&self, name: &[u8]) -> Option<usize>
        ensures { result ≡ first_place (declared_names self.now) name.now }
    {
        place_of(find(&self.names.declared.lines, name))
    }

    /// The type that a name is declared with.
    #[tactic(auto, using(crate::proofs::UnitTables::type_found))]
    pub fn type_in(&self, name: &[u8]) -> Option<Ty>
        ensures { result ≡ type_in self.now name.now }
    {
        Some(find(&self.names.declared.types, name)?.ty)
    }

    /// The type of a parameter.
    #[tactic(auto, using(crate::proofs::UnitTables::param_found))]
    pub fn param_type(&self, name: &[u8]) -> Option<Ty>
        ensures { result ≡ option_map (λ param. param.ty) (param_named name.now self.now) }
    {
        Some(find(&self.names.declared.params, name)?.ty)
    }

    /// Whether a name is a parameter.
    #[tactic(auto, using(crate::proofs::UnitTables::param_stands))]
    pub fn is_param(&self, name: &[u8]) -> bool
        ensures { result ≡ is_among (param_names self.now) name.now }
    {
        find(&self.names.declared.params, name).is_some()
    }

    /// Whether a name is an input, plain or of events.
    #[tactic(auto, using(crate::proofs::UnitTables::input_stands))]
    pub fn is_input(&self, name: &[u8]) -> bool
        ensures { result ≡ is_among (input_names self.now) name.now }
    {
        find(&self.ports.inputs, name).is_some()
    }

    /// Whether a name is an output, plain or of events.
    #[tactic(auto, using(crate::proofs::UnitTables::output_stands))]
    pub fn is_output(&self, name: &[u8]) -> bool
        ensures { result ≡ is_among (output_names self.now) name.now }
    {
        find(&self.ports.outputs, name).is_some()
    }

    /// Whether a name may not be assigned: it is a parameter, an input or an output.
    #[tactic(auto, using(crate::proofs::UnitTables::among_three))]
    pub fn is_read_only(&self, name: &[u8]) -> bool
        ensures { result ≡ is_among (param_names self.now ++ input_names self.now ++ output_names self.now) name.now }
    {
        self.is_param(name) || self.is_input(name) || self.is_output(name)
    }

    /// Whether all names are inputs.
    pub fn has_inputs(&self, names: &[Name]) -> bool
        ensures { result ≡ are_among (input_names self.now) names.now }
    {
        for name in names {
            if !self.is_input(name.as_slice()) {
                return false;
            }
        }
        true
    }

    /// The first input of a name, with its place among the inputs; event inputs come after the plain ones.
    #[tactic(auto, using(crate::proofs::UnitTables::input_found))]
    pub fn input(&self, name: &[u8]) -> Option<Declared>
        ensures { result ≡ port_among (input_ports self.now) name.now }
    {
        find(&self.ports.inputs, name)
    }

    /// The first output of a name, with its place among the outputs; event outputs come after the plain ones.
    #[tactic(auto, using(crate::proofs::UnitTables::output_found))]
    pub fn output(&self, name: &[u8]) -> Option<Declared>
        ensures { result ≡ port_among (output_ports self.now) name.now }
    {
        find(&self.ports.outputs, name)
    }

    /// Whether every expression may use a name.
    #[tactic(auto, using(crate::proofs::UnitTables::shared_stands))]
    pub(crate) fn is_shared(&self, name: &[u8]) -> bool
        ensures { result ≡ is_among (shared_names self.now) name.now }
    {
        find(&self.names.usable.shared, name).is_some()
    }

    /// Whether a name is a local.
    #[tactic(auto, using(crate::proofs::UnitTables::local_stands))]
    pub(crate) fn is_local(&self, name: &[u8]) -> bool
        ensures { result ≡ is_among (map (λ local. local.name) self.now.locals) name.now }
    {
        find(&self.names.usable.locals, name).is_some()
    }

    /// Whether a name is an event input.
    #[tactic(auto, using(crate::proofs::UnitTables::event_stands))]
    pub(crate) fn is_event(&self, name: &[u8]) -> bool
        ensures { result ≡ is_among (event_input_names self.now) name.now }
    {
        find(&self.names.usable.events, name).is_some()
    }
}
