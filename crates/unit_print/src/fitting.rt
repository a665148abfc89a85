//! Tests of the parts of a printable system, line by line, apart from the lengths of the lines.
//!
//! The test of a line with the same form in both versions is stated by its clause for version 1.
ghost use Rattle.std.specs.Prelude.{◌≡◌, ◌&&◌, nat_le};
ghost use Rattle.std.specs.List.{list_all};
ghost use Rattle.unit_tree.specs.Canonical.{optional, unit_parts, canonical_forms};
ghost use Rattle.unit_tree.specs.Parts as parts;
ghost use Rattle.unit_tree.specs.Parts.{part_forms, line_forms};
ghost use Rattle.unit_tree.specs.declared.line_form.LineForm.TheVariants as form;
ghost use Rattle.unit_print.specs.Fitting.{line_fits, instance_fits, unit_parts_fit, parts_fit};

use crate::fitting_expressions::expression_fits;
use crate::fitting_lines::{
    event_input_fits, event_output_fits, input_fits, local_fits, output_fits, param_fits,
    sample_fits, seconds_fit, setting_fits, state_fits, wire_fits,
};
use crate::names::is_name;
use fixed_words::{List, Literal};
use model_rules::{MOST_DECIMALS, MOST_ROWS, MOST_TURNS, MOST_ZERO_STEPS};
use unit_tree::{
    EventIn, EventOut, Expr, Input, Instance, Line, Local, Output, Param, PortName, Setting, State,
    System, Unit, Wire,
};

// ---- Steps

/// Whether a line of a step is allowed there, with the lines of its block.
#[cycle(step)]
fn step_line_fits(version: u8, line: &Line) -> bool
    ensures { result ≡ list_all (line_fits version) (line_forms line.now) }
{
    match line {
        Line::Assign { target, value } => {
            is_name(target.as_slice()) && expression_fits(version, value)
        }
        Line::If { cond, yes, no } => match no {
            None => expression_fits(version, cond) && step_lines_fit(version, yes.as_slice()),
            Some(no) => {
                expression_fits(version, cond)
                    && step_lines_fit(version, yes.as_slice())
                    && step_lines_fit(version, no.as_slice())
            }
        },
        Line::Repeat { count, body } => {
            1 <= *count && *count <= MOST_TURNS && step_lines_fit(version, body.as_slice())
        }
        Line::Accept { value } => expression_fits(version, value),
    }
}

/// Whether lines of a step are allowed there.
#[cycle(step)]
fn step_lines_fit(version: u8, lines: &[Line]) -> bool
    ensures { result ≡ list_all (λ line. list_all (line_fits version) (line_forms line)) lines.now }
{
    for line in lines {
        if !step_line_fits(version, line) {
            return false;
        }
    }
    true
}

// ---- Units

fn params_fit(params: &[Param]) -> bool
    ensures { result ≡ list_all (λ param. line_fits 1 (form.Param param)) params.now }
{
    params.iter().all(|param| param_fits(param))
}

fn states_fit(states: &[State]) -> bool
    ensures { result ≡ list_all (λ state. line_fits 1 (form.State state)) states.now }
{
    states.iter().all(|state| state_fits(state))
}

fn locals_fit(locals: &[Local]) -> bool
    ensures { result ≡ list_all (λ local. line_fits 1 (form.Local local)) locals.now }
{
    locals.iter().all(|local| local_fits(local))
}

fn inputs_fit(inputs: &[Input]) -> bool
    ensures { result ≡ list_all (λ input. line_fits 1 (form.Input input)) inputs.now }
{
    inputs.iter().all(|input| input_fits(input))
}

fn events_in_fit(version: u8, events: &[EventIn]) -> bool
    ensures { result ≡ list_all (λ event. line_fits version (form.EventInput event)) events.now }
{
    events.iter().all(|event| event_input_fits(version, event))
}

fn outputs_fit(version: u8, outputs: &[Output]) -> bool
    ensures { result ≡ list_all (λ output. line_fits version (form.Output output)) outputs.now }
{
    outputs.iter().all(|output| output_fits(version, output))
}

fn events_out_fit(version: u8, events: &[EventOut]) -> bool
    ensures { result ≡ list_all (λ event. line_fits version (form.EventOutput event)) events.now }
{
    events.iter().all(|event| event_output_fits(version, event))
}

fn resolution_fits(given: Option<u8>) -> bool
    ensures { result ≡ unit_parts_fit 1 (optional parts.Resolution given) }
{
    match given {
        None => true,
        Some(decimals) => decimals <= MOST_DECIMALS,
    }
}

fn max_fits(version: u8, given: &Option<Expr>) -> bool
    ensures { result ≡ unit_parts_fit version (optional parts.Max given.now) }
{
    match given {
        None => true,
        Some(value) => expression_fits(version, value),
    }
}

#[tactic(auto, using(crate::proofs::FittingParts::step_fits))]
fn step_fits(version: u8, given: &Option<List<Line>>) -> bool
    ensures { result ≡ unit_parts_fit version (optional parts.Step given.now) }
{
    match given {
        None => true,
        Some(lines) => step_lines_fit(version, lines.as_slice()),
    }
}

/// Whether the resolution, the parameters, the states and the locals of a unit are allowed there.
fn declarations_fit(unit: &Unit) -> bool
    ensures { result ≡ (unit_parts_fit 1 (optional parts.Resolution unit.now.resolution)
        && list_all (λ param. line_fits 1 (form.Param param)) unit.now.params
        && list_all (λ state. line_fits 1 (form.State state)) unit.now.states
        && list_all (λ local. line_fits 1 (form.Local local)) unit.now.locals) }
{
    resolution_fits(unit.resolution)
        && params_fit(unit.params.as_slice())
        && states_fit(unit.states.as_slice())
        && locals_fit(unit.locals.as_slice())
}

/// Whether the ports of a unit are allowed in a text of the version.
fn ports_fit(version: u8, unit: &Unit) -> bool
    ensures { result ≡ (list_all (λ input. line_fits 1 (form.Input input)) unit.now.inputs
        && list_all (λ event. line_fits version (form.EventInput event)) unit.now.events_in
        && list_all (λ output. line_fits version (form.Output output)) unit.now.outputs
        && list_all (λ event. line_fits version (form.EventOutput event)) unit.now.events_out) }
{
    inputs_fit(unit.inputs.as_slice())
        && events_in_fit(version, unit.events_in.as_slice())
        && outputs_fit(version, unit.outputs.as_slice())
        && events_out_fit(version, unit.events_out.as_slice())
}

/// Whether `max` and the step of a unit are allowed in a text of the version.
fn calls_fit(version: u8, unit: &Unit) -> bool
    ensures { result ≡ (unit_parts_fit version (optional parts.Max unit.now.max)
        && unit_parts_fit version (optional parts.Step unit.now.step)) }
{
    max_fits(version, &unit.max) && step_fits(version, &unit.step)
}

/// Whether the lines of a unit are allowed in a text of the version.
#[tactic(auto, using(crate::proofs::FittingParts::unit_fits))]
fn unit_fits(version: u8, unit: &Unit) -> bool
    ensures { result ≡ list_all (line_fits version) (part_forms (parts.HasUnit unit.now.name (unit_parts unit.now))) }
{
    is_name(unit.name.as_slice())
        && declarations_fit(unit)
        && ports_fit(version, unit)
        && calls_fit(version, unit)
}

// ---- The system

fn version_fits(version: u8) -> bool
    ensures { result ≡ (nat_le 1 version && nat_le version 2) }
{
    1 <= version && version <= 2
}

fn units_fit(version: u8, units: &[Unit]) -> bool
    ensures { result
        ≡ list_all (λ unit. list_all (line_fits version) (part_forms (parts.HasUnit unit.name (unit_parts unit)))) units.now }
{
    units.iter().all(|unit| unit_fits(version, unit))
}

fn settings_fit(settings: &[Setting]) -> bool
    ensures { result ≡ list_all (λ setting. line_fits 1 (form.Setting setting)) settings.now }
{
    settings.iter().all(|setting| setting_fits(setting))
}

fn instance_fits(instance: &Instance) -> bool
    ensures { result ≡ instance_fits instance.now }
{
    is_name(instance.name.as_slice())
        && is_name(instance.unit.as_slice())
        && settings_fit(instance.settings.as_slice())
}

fn instances_fit(instances: &[Instance]) -> bool
    ensures { result ≡ list_all instance_fits instances.now }
{
    instances.iter().all(|instance| instance_fits(instance))
}

fn wires_fit(wires: &[Wire]) -> bool
    ensures { result ≡ list_all (λ wire. line_fits 1 (form.Connect wire)) wires.now }
{
    wires.iter().all(|wire| wire_fits(wire))
}

fn samples_fit(samples: &[PortName]) -> bool
    ensures { result ≡ list_all (λ port. line_fits 1 (form.Sample port)) samples.now }
{
    samples.iter().all(|port| sample_fits(port))
}

/// Whether an optional `stop` or `longest` may be written.
fn perhaps_seconds_fit(given: Option<Literal>) -> bool
    ensures stop { result ≡ parts_fit 1 (optional parts.Stop given) }
    ensures longest { result ≡ parts_fit 1 (optional parts.Longest given) }
{
    match given {
        None => true,
        Some(seconds) => seconds_fit(seconds),
    }
}

fn zero_fits(given: Option<u32>) -> bool
    ensures { result ≡ parts_fit 1 (optional parts.Zero given) }
{
    match given {
        None => true,
        Some(count) => count <= MOST_ZERO_STEPS,
    }
}

fn rows_fit(given: Option<u32>) -> bool
    ensures { result ≡ parts_fit 1 (optional parts.Rows given) }
{
    match given {
        None => true,
        Some(count) => 1 <= count && count <= MOST_ROWS,
    }
}

/// Whether the units, the instances and the connections of a system are allowed in a text of its version.
fn components_fit(system: &System) -> bool
    ensures { result ≡ (list_all (λ unit. list_all (line_fits system.now.version) (part_forms (parts.HasUnit unit.name (unit_parts unit)))) system.now.units
        && list_all instance_fits system.now.instances
        && list_all (λ wire. line_fits 1 (form.Connect wire)) system.now.wires) }
{
    units_fit(system.version, system.units.as_slice())
        && instances_fit(system.instances.as_slice())
        && wires_fit(system.wires.as_slice())
}

/// Whether the limits of a run are allowed.
fn limits_fit(system: &System) -> bool
    ensures { result ≡ (parts_fit 1 (optional parts.Stop system.now.stop)
        && parts_fit 1 (optional parts.Longest system.now.longest)
        && parts_fit 1 (optional parts.Zero system.now.zero)
        && parts_fit 1 (optional parts.Rows system.now.rows)) }
{
    perhaps_seconds_fit(system.stop)
        && perhaps_seconds_fit(system.longest)
        && zero_fits(system.zero)
        && rows_fit(system.rows)
}

/// Whether each canonical line of a system is allowed in a text of its version, apart from the line's
/// length.
#[tactic(auto, using(crate::proofs::FittingParts::system_fits))]
pub(crate) fn system_fits(system: &System) -> bool
    ensures { result ≡ list_all (line_fits system.now.version) (canonical_forms system.now) }
{
    version_fits(system.version)
        && components_fit(system)
        && limits_fit(system)
        && samples_fit(system.samples.as_slice())
}
