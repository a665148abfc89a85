//! Systems, by their parts in canonical order.
ghost use Rattle.std.specs.Prelude.{◌≡◌, ◌++◌, [], map, OnOk, OnErr};
ghost use Rattle.unit_tree.specs.Canonical.{optional, unit_parts, canonical_text};
ghost use Rattle.unit_tree.specs.Parts as parts;
ghost use Rattle.unit_tree.specs.Parts.{part_forms};
ghost use Rattle.unit_print.specs.Growing.{with_lines, with_unit_parts, with_parts, with_settings};

use crate::lines::{
    connect, end, event_input, event_output, header, input, instance_head, local, longest, max,
    output, param, resolution, rows, sample, setting, state, step, stop, unit_head, zero,
};
use crate::steps::step_lines;
use fixed_words::{List, Literal, NoMemory};
use std::alloc::Global;
use unit_tree::{
    EventIn, EventOut, Expr, Input, Instance, Line, Local, Output, Param, PortName, Setting, State,
    System, Unit, Wire,
};

fn params(text: &mut Vec<u8>, all: &[Param]) -> Result<(), NoMemory>
    ensures { OnOk result (text.new.items ≡ with_unit_parts text.old.items (map parts.HasParam all.now)) }
{
    for declared in all {
        param(text, declared)?;
    }
    Ok(())
}

fn states(text: &mut Vec<u8>, all: &[State]) -> Result<(), NoMemory>
    ensures { OnOk result (text.new.items ≡ with_unit_parts text.old.items (map parts.HasState all.now)) }
{
    for declared in all {
        state(text, declared)?;
    }
    Ok(())
}

fn locals(text: &mut Vec<u8>, all: &[Local]) -> Result<(), NoMemory>
    ensures { OnOk result (text.new.items ≡ with_unit_parts text.old.items (map parts.HasLocal all.now)) }
{
    for declared in all {
        local(text, declared)?;
    }
    Ok(())
}

fn inputs(text: &mut Vec<u8>, all: &[Input]) -> Result<(), NoMemory>
    ensures { OnOk result (text.new.items ≡ with_unit_parts text.old.items (map parts.HasInput all.now)) }
{
    for declared in all {
        input(text, declared)?;
    }
    Ok(())
}

fn events_in(text: &mut Vec<u8>, all: &[EventIn]) -> Result<(), NoMemory>
    ensures { OnOk result (text.new.items ≡ with_unit_parts text.old.items (map parts.HasEventIn all.now)) }
{
    for declared in all {
        event_input(text, declared)?;
    }
    Ok(())
}

fn outputs(text: &mut Vec<u8>, all: &[Output]) -> Result<(), NoMemory>
    ensures { OnOk result (text.new.items ≡ with_unit_parts text.old.items (map parts.HasOutput all.now)) }
{
    for declared in all {
        output(text, declared)?;
    }
    Ok(())
}

fn events_out(text: &mut Vec<u8>, all: &[EventOut]) -> Result<(), NoMemory>
    ensures { OnOk result (text.new.items ≡ with_unit_parts text.old.items (map parts.HasEventOut all.now)) }
{
    for declared in all {
        event_output(text, declared)?;
    }
    Ok(())
}

fn put_resolution(text: &mut Vec<u8>, given: Option<u8>) -> Result<(), NoMemory>
    ensures { OnOk result (text.new.items ≡ with_unit_parts text.old.items (optional parts.Resolution given)) }
{
    match given {
        Some(decimals) => resolution(text, decimals),
        None => Ok(()),
    }
}

fn put_max(text: &mut Vec<u8>, given: &Option<Expr>) -> Result<(), NoMemory>
    ensures { OnOk result (text.new.items ≡ with_unit_parts text.old.items (optional parts.Max given.now)) }
{
    match given {
        Some(value) => max(text, value),
        None => Ok(()),
    }
}

#[tactic(auto, using(crate::proofs::GrowingTexts::lines_append, crate::proofs::GrowingTexts::step_lines_are))]
fn put_step(text: &mut Vec<u8>, given: &Option<List<Line>>) -> Result<(), NoMemory>
    ensures { OnOk result (text.new.items ≡ with_unit_parts text.old.items (optional parts.Step given.now)) }
{
    match given {
        Some(lines) => {
            step(text)?;
            step_lines(text, lines.as_slice())?;
            end(text)
        }
        None => Ok(()),
    }
}

/// Appends the ports of a unit, which come last among its lists.
#[tactic(auto, using(crate::proofs::GrowingTexts::unit_parts_append))]
fn ports(text: &mut Vec<u8>, unit: &Unit) -> Result<(), NoMemory>
    ensures { OnOk result (text.new.items ≡ with_unit_parts (with_unit_parts (with_unit_parts (with_unit_parts text.old.items
        (map parts.HasInput unit.now.inputs)) (map parts.HasEventIn unit.now.events_in)) (map parts.HasOutput unit.now.outputs)) (map parts.HasEventOut unit.now.events_out)) }
{
    inputs(text, unit.inputs.as_slice())?;
    events_in(text, unit.events_in.as_slice())?;
    outputs(text, unit.outputs.as_slice())?;
    events_out(text, unit.events_out.as_slice())
}

/// Appends the lines in a unit.
#[tactic(auto, using(crate::proofs::GrowingTexts::unit_is))]
fn unit_body(text: &mut Vec<u8>, unit: &Unit) -> Result<(), NoMemory>
    ensures { OnOk result (text.new.items ≡ with_unit_parts text.old.items (unit_parts unit.now)) }
{
    put_resolution(text, unit.resolution)?;
    params(text, unit.params.as_slice())?;
    states(text, unit.states.as_slice())?;
    locals(text, unit.locals.as_slice())?;
    ports(text, unit)?;
    put_max(text, &unit.max)?;
    put_step(text, &unit.step)
}

#[tactic(auto, using(crate::proofs::GrowingTexts::lines_append, crate::proofs::GrowingTexts::unit_parts_are))]
fn put_unit(text: &mut Vec<u8>, unit: &Unit) -> Result<(), NoMemory>
    ensures { OnOk result (text.new.items ≡ with_lines text.old.items (part_forms (parts.HasUnit unit.now.name (unit_parts unit.now)))) }
{
    unit_head(text, &unit.name)?;
    unit_body(text, unit)?;
    end(text)
}

fn units(text: &mut Vec<u8>, all: &[Unit]) -> Result<(), NoMemory>
    ensures { OnOk result (text.new.items ≡ with_parts text.old.items (map (λ unit. parts.HasUnit unit.name (unit_parts unit)) all.now)) }
{
    for unit in all {
        put_unit(text, unit)?;
    }
    Ok(())
}

fn settings(text: &mut Vec<u8>, all: &[Setting]) -> Result<(), NoMemory>
    ensures { OnOk result (text.new.items ≡ with_settings text.old.items all.now) }
{
    for given in all {
        setting(text, given)?;
    }
    Ok(())
}

#[tactic(auto, using(crate::proofs::GrowingTexts::lines_append, crate::proofs::GrowingTexts::settings_are))]
fn put_instance(text: &mut Vec<u8>, instance: &Instance) -> Result<(), NoMemory>
    ensures { OnOk result (text.new.items ≡ with_lines text.old.items (part_forms (parts.HasInstance instance.now))) }
{
    instance_head(text, &instance.name, &instance.unit)?;
    settings(text, instance.settings.as_slice())?;
    end(text)
}

fn instances(text: &mut Vec<u8>, all: &[Instance]) -> Result<(), NoMemory>
    ensures { OnOk result (text.new.items ≡ with_parts text.old.items (map parts.HasInstance all.now)) }
{
    for instance in all {
        put_instance(text, instance)?;
    }
    Ok(())
}

fn wires(text: &mut Vec<u8>, all: &[Wire]) -> Result<(), NoMemory>
    ensures { OnOk result (text.new.items ≡ with_parts text.old.items (map parts.Connects all.now)) }
{
    for wire in all {
        connect(text, wire)?;
    }
    Ok(())
}

fn samples(text: &mut Vec<u8>, all: &[PortName]) -> Result<(), NoMemory>
    ensures { OnOk result (text.new.items ≡ with_parts text.old.items (map parts.Samples all.now)) }
{
    for port in all {
        sample(text, port)?;
    }
    Ok(())
}

fn put_stop(text: &mut Vec<u8>, given: Option<Literal>) -> Result<(), NoMemory>
    ensures { OnOk result (text.new.items ≡ with_parts text.old.items (optional parts.Stop given)) }
{
    match given {
        Some(seconds) => stop(text, seconds),
        None => Ok(()),
    }
}

fn put_longest(text: &mut Vec<u8>, given: Option<Literal>) -> Result<(), NoMemory>
    ensures { OnOk result (text.new.items ≡ with_parts text.old.items (optional parts.Longest given)) }
{
    match given {
        Some(seconds) => longest(text, seconds),
        None => Ok(()),
    }
}

fn put_zero(text: &mut Vec<u8>, given: Option<u32>) -> Result<(), NoMemory>
    ensures { OnOk result (text.new.items ≡ with_parts text.old.items (optional parts.Zero given)) }
{
    match given {
        Some(count) => zero(text, count),
        None => Ok(()),
    }
}

fn put_rows(text: &mut Vec<u8>, given: Option<u32>) -> Result<(), NoMemory>
    ensures { OnOk result (text.new.items ≡ with_parts text.old.items (optional parts.Rows given)) }
{
    match given {
        Some(count) => rows(text, count),
        None => Ok(()),
    }
}

/// Appends the limits of a run.
fn limits(text: &mut Vec<u8>, system: &System) -> Result<(), NoMemory>
    ensures { OnOk result (text.new.items ≡ with_parts (with_parts (with_parts (with_parts text.old.items
        (optional parts.Stop system.now.stop)) (optional parts.Longest system.now.longest)) (optional parts.Zero system.now.zero)) (optional parts.Rows system.now.rows)) }
{
    put_stop(text, system.stop)?;
    put_longest(text, system.longest)?;
    put_zero(text, system.zero)?;
    put_rows(text, system.rows)
}

/// Appends the canonical text of a system to an empty text.
#[tactic(auto, using(crate::proofs::GrowingTexts::system_is))]
fn whole_system(text: &mut Vec<u8>, system: &System) -> Result<(), NoMemory>
    requires { text.old.items ≡ [] }
    ensures { OnOk result (text.new.items ≡ canonical_text system.now) }
{
    header(text, system.version)?;
    units(text, system.units.as_slice())?;
    instances(text, system.instances.as_slice())?;
    wires(text, system.wires.as_slice())?;
    limits(text, system)?;
    samples(text, system.samples.as_slice())
}

/// Prints into an empty text. Where there is no memory, it is empty again.
fn print_alone(system: &System, out: &mut Vec<u8>) -> Result<(), NoMemory>
    requires { out.old.items ≡ [] }
    ensures ok { OnOk result (out.new.items ≡ canonical_text system.now) }
    ensures err { OnErr result (out.new.items ≡ []) }
{
    let printed = whole_system(out, system);
    if printed.is_err() {
        out.clear();
    }
    printed
}

/// Prints after a text, by way of a text of its own. Where there is no memory, nothing is added.
fn print_behind(alloc: Global, system: &System, out: &mut Vec<u8>) -> Result<(), NoMemory>
    ensures ok { OnOk result (out.new.items ≡ out.old.items ++ canonical_text system.now) }
    ensures err { OnErr result (out.new.items ≡ out.old.items) }
{
    let mut text = Vec::new(alloc);
    whole_system(&mut text, system)?;
    out.extend_from_slice(text.as_slice())?;
    Ok(())
}

/// Appends the canonical text of a system: the one text that is printed for it, in either version of the language.
///
/// Every system is printed. But only a printable one is read back as itself, and only its text is within the limits of
/// the language. Where `out` is empty, only its growth takes memory; else the text is made apart and then appended.
/// Where there is no memory, `out` is unchanged.
pub fn print_system(alloc: Global, system: &System, out: &mut Vec<u8>) -> Result<(), NoMemory>
    ensures ok { OnOk result (out.new.items ≡ out.old.items ++ canonical_text system.now) }
    ensures err { OnErr result (out.new.items ≡ out.old.items) }
{
    if out.is_empty() {
        print_alone(system, out)
    } else {
        print_behind(alloc, system, out)
    }
}
