//! Units: copies, and their plain forms.
ghost use Rattle.std.specs.Prelude.{◌≡◌, ◌++◌, map, IfOk, OnOk};
ghost use Rattle.std.specs.List.{flat_map};
ghost use Rattle.std.specs.Option.{option_map};
ghost use Rattle.unit_tree.specs.Names.{is_among};
ghost use Rattle.unit_tree.specs.Plain.{plain_expression, plain_line, no_event, plain_inputs, plain_need, plain_needs, plain_output, plain_outputs, plain_unit};

use crate::copies::{Copied, copied_list};
use crate::expressions::{plain_expression, plain_presence, plain_word, presence_name};
use crate::lines::{copied_lines, plain_lines};
use fixed_words::{List, Literal, NoMemory, Ty};
use std::alloc::Global;
use unit_tree::{EventIn, EventOut, Expr, Input, Line, Name, Output, Unit};

// ---- Copies

impl Copied for Output {
    fn copied(&self, alloc: Global) -> Result<Output, NoMemory> {
        Ok(Output {
            name: self.name.copied(alloc)?,
            ty: self.ty,
            needs: copied_list(alloc, self.needs.as_slice())?,
            value: self.value.copied(alloc)?,
        })
    }
}

impl Copied for EventOut {
    fn copied(&self, alloc: Global) -> Result<EventOut, NoMemory> {
        Ok(EventOut {
            name: self.name.copied(alloc)?,
            ty: self.ty,
            needs: copied_list(alloc, self.needs.as_slice())?,
            value: self.value.copied(alloc)?,
        })
    }
}

fn copied_max(alloc: Global, max: &Option<Expr>) -> Result<Option<Expr>, NoMemory>
    ensures { IfOk result (λ copy. copy ≡ max.now) }
{
    match max {
        None => Ok(None),
        Some(max) => Ok(Some(max.copied(alloc)?)),
    }
}

fn copied_step(alloc: Global, step: &Option<List<Line>>) -> Result<Option<List<Line>>, NoMemory>
    ensures { IfOk result (λ copy. copy ≡ step.now) }
{
    match step {
        None => Ok(None),
        Some(lines) => Ok(Some(copied_lines(alloc, lines.as_slice())?)),
    }
}

impl Copied for Unit {
    fn copied(&self, alloc: Global) -> Result<Unit, NoMemory> {
        Ok(Unit {
            name: self.name.copied(alloc)?,
            resolution: self.resolution,
            params: copied_list(alloc, self.params.as_slice())?,
            states: copied_list(alloc, self.states.as_slice())?,
            locals: copied_list(alloc, self.locals.as_slice())?,
            inputs: copied_list(alloc, self.inputs.as_slice())?,
            events_in: copied_list(alloc, self.events_in.as_slice())?,
            outputs: copied_list(alloc, self.outputs.as_slice())?,
            events_out: copied_list(alloc, self.events_out.as_slice())?,
            max: copied_max(alloc, &self.max)?,
            step: copied_step(alloc, &self.step)?,
        })
    }
}

// ---- Inputs

/// The start literal of the plain input, which it has where no event occurs.
fn no_event(ty: Ty) -> Literal
    ensures { result ≡ no_event ty }
{
    match ty {
        Ty::Bool => Literal::Truth(false),
        _ => Literal::Number {
            word: 0,
            decimals: 0,
        },
    }
}

/// Appends the two inputs that an event input becomes: whether an event occurs, and its word.
fn put_event_input(alloc: Global, inputs: &mut List<Input>, event: &EventIn) -> Result<(), NoMemory>
    ensures { OnOk result (inputs.new ≡ inputs.old ++ plain_inputs event.now) }
{
    let presence = Input {
        name: presence_name(alloc, &event.name)?,
        ty: Ty::Bool,
        start: Literal::Truth(false),
    };
    let word = Input {
        name: event.name.copied(alloc)?,
        ty: event.ty,
        start: no_event(event.ty),
    };
    inputs.push(presence)?;
    inputs.push(word)
}

/// The inputs of the plain form, those of events after all others.
fn plain_inputs(alloc: Global, unit: &Unit) -> Result<List<Input>, NoMemory>
    ensures { IfOk result (λ plain. plain ≡ unit.now.inputs ++ flat_map plain_inputs unit.now.events_in) }
{
    let mut inputs = copied_list(alloc, unit.inputs.as_slice())?;
    for event in unit.events_in.as_slice() {
        put_event_input(alloc, &mut inputs, event)?;
    }
    Ok(inputs)
}

// ---- Needs

/// Whether the name is one of the event inputs.
fn is_event_input(events: &[EventIn], name: &[u8]) -> bool
    ensures { result ≡ is_among (map (λ event. event.name) events.now) name.now }
{
    for event in events {
        if name == event.name.as_slice() {
            return true;
        }
    }
    false
}

/// Appends what a need becomes: an event input becomes two.
fn put_need(alloc: Global, needs: &mut List<Name>, unit: &Unit, name: &Name) -> Result<(), NoMemory>
    ensures { OnOk result (needs.new ≡ needs.old ++ plain_need unit.now name.now) }
{
    if is_event_input(unit.events_in.as_slice(), name.as_slice()) {
        needs.push(presence_name(alloc, name)?)?;
    }
    needs.push(name.copied(alloc)?)
}

/// The needs of an output of the plain form.
fn plain_needs(alloc: Global, unit: &Unit, names: &[Name]) -> Result<List<Name>, NoMemory>
    ensures { IfOk result (λ plain. plain ≡ plain_needs unit.now names.now) }
{
    let mut needs = List::new(alloc);
    for name in names {
        put_need(alloc, &mut needs, unit, name)?;
    }
    Ok(needs)
}

// ---- Outputs

/// The plain form of an output.
fn plain_output(alloc: Global, unit: &Unit, output: &Output) -> Result<Output, NoMemory>
    ensures { IfOk result (λ plain. plain ≡ plain_output unit.now output.now) }
{
    Ok(Output {
        name: output.name.copied(alloc)?,
        ty: output.ty,
        needs: plain_needs(alloc, unit, output.needs.as_slice())?,
        value: plain_expression(alloc, &output.value)?,
    })
}

/// Appends the two outputs that an event output becomes: whether an event occurs, and its word.
fn put_event_output(
    alloc: Global,
    outputs: &mut List<Output>,
    unit: &Unit,
    event: &EventOut,
) -> Result<(), NoMemory>
    ensures { OnOk result (outputs.new ≡ outputs.old ++ plain_outputs unit.now event.now) }
{
    let presence = Output {
        name: presence_name(alloc, &event.name)?,
        ty: Ty::Bool,
        needs: plain_needs(alloc, unit, event.needs.as_slice())?,
        value: plain_presence(alloc, &event.value)?,
    };
    let word = Output {
        name: event.name.copied(alloc)?,
        ty: event.ty,
        needs: plain_needs(alloc, unit, event.needs.as_slice())?,
        value: plain_word(alloc, event.ty, &event.value)?,
    };
    outputs.push(presence)?;
    outputs.push(word)
}

/// The plain forms of the plain outputs.
fn plain_outputs(alloc: Global, unit: &Unit) -> Result<List<Output>, NoMemory>
    ensures { IfOk result (λ plain. plain ≡ map (plain_output unit.now) unit.now.outputs) }
{
    let mut outputs = List::new(alloc);
    for output in unit.outputs.as_slice() {
        outputs.push(plain_output(alloc, unit, output)?)?;
    }
    Ok(outputs)
}

/// Appends what the event outputs become.
fn put_event_outputs(alloc: Global, outputs: &mut List<Output>, unit: &Unit) -> Result<(), NoMemory>
    ensures { OnOk result (outputs.new ≡ outputs.old ++ flat_map (plain_outputs unit.now) unit.now.events_out) }
{
    for event in unit.events_out.as_slice() {
        put_event_output(alloc, outputs, unit, event)?;
    }
    Ok(())
}

/// The outputs of the plain form, those of events after all others.
fn all_outputs(alloc: Global, unit: &Unit) -> Result<List<Output>, NoMemory>
    ensures { IfOk result (λ plain. plain
        ≡ map (plain_output unit.now) unit.now.outputs ++ flat_map (plain_outputs unit.now) unit.now.events_out) }
{
    let mut outputs = plain_outputs(alloc, unit)?;
    put_event_outputs(alloc, &mut outputs, unit)?;
    Ok(outputs)
}

// ---- The unit

fn plain_max(alloc: Global, max: &Option<Expr>) -> Result<Option<Expr>, NoMemory>
    ensures { IfOk result (λ plain. plain ≡ option_map plain_expression max.now) }
{
    match max {
        None => Ok(None),
        Some(max) => Ok(Some(plain_expression(alloc, max)?)),
    }
}

fn plain_step(alloc: Global, step: &Option<List<Line>>) -> Result<Option<List<Line>>, NoMemory>
    ensures { IfOk result (λ plain. plain ≡ option_map (map plain_line) step.now) }
{
    match step {
        None => Ok(None),
        Some(lines) => Ok(Some(plain_lines(alloc, lines.as_slice())?)),
    }
}

/// The plain form of a unit.
pub(crate) fn plain_unit(alloc: Global, unit: &Unit) -> Result<Unit, NoMemory>
    ensures { IfOk result (λ plain. plain ≡ plain_unit unit.now) }
{
    Ok(Unit {
        name: unit.name.copied(alloc)?,
        resolution: unit.resolution,
        params: copied_list(alloc, unit.params.as_slice())?,
        states: copied_list(alloc, unit.states.as_slice())?,
        locals: copied_list(alloc, unit.locals.as_slice())?,
        inputs: plain_inputs(alloc, unit)?,
        events_in: List::new(alloc),
        outputs: all_outputs(alloc, unit)?,
        events_out: List::new(alloc),
        max: plain_max(alloc, &unit.max)?,
        step: plain_step(alloc, &unit.step)?,
    })
}
