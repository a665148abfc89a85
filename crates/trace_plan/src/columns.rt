//! The columns of the trace, by the numbers of their outputs in the plain form of the system.
ghost use Rattle.std.specs.Prelude.{◌≡◌, ◌≤◌, ◌++◌, [], length, map, IfOk, OnOk};
ghost use Rattle.std.specs.List.{position_or_len, find, cons_option};
ghost use Rattle.std.specs.Option.{option_map};
ghost use Rattle.std.specs.Str.{bytes_eq};
ghost use Rattle.trace_csv.specs.Columns.{column_of, columns_of};
ghost use Rattle.trace_plan.specs.Shown.{output_count, starts_from, FewOutputs, IsPlaced, plain_column, type_and_event, outputs_called, events_called, ports_of};
ghost use Rattle.unit_tree.specs.Names.{output_at, output_ports, instance_named, port_named as named_port};
ghost use Rattle.unit_tree.specs.Orders.{outputs_of};
ghost use Rattle.unit_tree.specs.Plain.{plain_form, samples_or_all};
ghost use Rattle.wire_graph.specs.Wiring.{port_named, port_with};
ghost use Rattle.model_rules.specs.Limits.{instance_limit, output_limit};

use fixed_words::{NoMemory, Ty};
use std::alloc::Global;
use unit_tree::{Checked, Column, EventOut, Instance, Output, PortName, System, Unit};
use wire_graph::PortKey;

/// Adds the plain outputs of an instance.
fn put_outputs<'a>(
    instance: &'a [u8],
    outputs: &'a [Output],
    ports: &mut Vec<PortKey<'a>>,
) -> Result<(), NoMemory>
    ensures { OnOk result (map port_with ports.new.items ≡ map port_with ports.old.items ++ outputs_called instance.now outputs.now) }
{
    for output in outputs {
        ports.push((instance, output.name.as_slice()))?;
    }
    Ok(())
}

/// Adds the event outputs of an instance.
fn put_events<'a>(
    instance: &'a [u8],
    events: &'a [EventOut],
    ports: &mut Vec<PortKey<'a>>,
) -> Result<(), NoMemory>
    ensures { OnOk result (map port_with ports.new.items ≡ map port_with ports.old.items ++ events_called instance.now events.now) }
{
    for event in events {
        ports.push((instance, event.name.as_slice()))?;
    }
    Ok(())
}

/// Adds all outputs of an instance, plain outputs first, then event outputs. An instance of an undeclared unit has none.
fn put_all<'a>(
    system: &'a System,
    instance: &'a Instance,
    ports: &mut Vec<PortKey<'a>>,
) -> Result<(), NoMemory>
    ensures { OnOk result (map port_with ports.new.items ≡ map port_with ports.old.items ++ ports_of system.now instance.now) }
{
    let Some(unit) = system.unit_of(instance) else {
        return Ok(());
    };
    let name = instance.name.as_slice();
    put_outputs(name, unit.outputs.as_slice(), ports)?;
    put_events(name, unit.events_out.as_slice(), ports)?;
    Ok(())
}

/// Returns all outputs of a system, by instance and by declaration.
fn all_outputs<'a>(alloc: Global, system: &'a System) -> Result<Vec<PortKey<'a>>, NoMemory>
    ensures { IfOk result (λ ports. map port_with ports.items ≡ outputs_of system.now) }
{
    let mut ports = Vec::new(alloc);
    for instance in system.instances.as_slice() {
        put_all(system, instance, &mut ports)?;
    }
    Ok(ports)
}

/// Returns the sampled ports.
fn sampled<'a>(alloc: Global, samples: &'a [PortName]) -> Result<Vec<PortKey<'a>>, NoMemory>
    ensures { IfOk result (λ ports. map port_with ports.items ≡ samples.now) }
{
    let mut ports = Vec::with_capacity(alloc, samples.len())?;
    for sample in samples {
        ports.push((sample.instance.as_slice(), sample.port.as_slice()))?;
    }
    Ok(ports)
}

/// Returns the ports that the trace shows: the sampled ones, or all outputs where nothing is sampled.
fn shown_ports<'a>(alloc: Global, system: &'a System) -> Result<Vec<PortKey<'a>>, NoMemory>
    ensures { IfOk result (λ ports. map port_with ports.items ≡ samples_or_all system.now) }
{
    match system.samples.as_slice() {
        [] => all_outputs(alloc, system),
        samples => sampled(alloc, samples),
    }
}

/// Returns the number of the first instance of a name, or the number of instances where none has the name.
fn instance_number(instances: &[Instance], name: &[u8]) -> usize
    ensures { result ≡ position_or_len (λ instance. bytes_eq instance.name name.now) instances.now }
{
    for (number, instance) in instances.iter().enumerate() {
        if instance.name.as_slice() == name {
            return number;
        }
    }
    instances.len()
}

/// Returns the number of the first output of a name, or the number of outputs where none has the name.
fn output_number(outputs: &[Output], name: &[u8]) -> usize
    ensures { result ≡ position_or_len (λ output. bytes_eq output.name name.now) outputs.now }
{
    for (number, output) in outputs.iter().enumerate() {
        if output.name.as_slice() == name {
            return number;
        }
    }
    outputs.len()
}

/// Returns the first instance of a name, or `None` where there is none.
fn instance_named<'a>(system: &'a System, name: &[u8]) -> Option<&'a Instance>
    ensures { option_map (λ instance. instance.now) result ≡ instance_named system.now name.now }
{
    for instance in system.instances.as_slice() {
        if instance.name.as_slice() == name {
            return Some(instance);
        }
    }
    None
}

/// Returns the type of the first plain output of a name, or `None` where there is none.
fn output_type(outputs: &[Output], name: &[u8]) -> Option<Ty>
    ensures { result ≡ option_map (λ output. output.ty) (find (λ output. bytes_eq output.name name.now) outputs.now) }
{
    for output in outputs {
        if output.name.as_slice() == name {
            return Some(output.ty);
        }
    }
    None
}

/// Returns the type of the first event output of a name, or `None` where there is none.
fn event_type(events: &[EventOut], name: &[u8]) -> Option<Ty>
    ensures { result ≡ option_map (λ event. event.ty) (find (λ event. bytes_eq event.name name.now) events.now) }
{
    for event in events {
        if event.name.as_slice() == name {
            return Some(event.ty);
        }
    }
    None
}

/// Returns the type of the output of a name, and whether it is an event output. `None` where there is no such output.
fn declared_in(unit: &Unit, name: &[u8]) -> Option<(Ty, bool)>
    ensures { result ≡ option_map type_and_event (named_port (output_ports unit.now) name.now) }
{
    match output_type(unit.outputs.as_slice(), name) {
        Some(ty) => Some((ty, false)),
        None => match event_type(unit.events_out.as_slice(), name) {
            Some(ty) => Some((ty, true)),
            None => None,
        },
    }
}

/// Returns the type of the output that a port names, and whether it is an event output. `None` where there is no such output.
fn declared_at(system: &System, instance: &[u8], port: &[u8]) -> Option<(Ty, bool)>
    ensures { result ≡ option_map type_and_event (output_at system.now (port_named instance.now port.now)) }
{
    let instance = instance_named(system, instance)?;
    let unit = system.unit_of(instance)?;
    declared_in(unit, port)
}

/// Returns how many outputs a unit has, where it is declared.
fn output_count(unit: Option<&Unit>) -> u32
    requires { output_count (option_map (λ unit. unit.now) unit) ≤ output_limit }
    ensures { result ≡ output_count (option_map (λ unit. unit.now) unit.entry) }
{
    match unit {
        Some(unit) => unit.outputs.len() as u32,
        None => 0,
    }
}

/// Returns the place of the first output of each instance.
fn starts(alloc: Global, system: &System) -> Result<Vec<u32>, NoMemory>
    requires instances { length system.now.instances ≤ instance_limit }
    requires outputs { FewOutputs system.now }
    ensures { IfOk result (λ starts. starts.items ≡ starts_from system.now 0 system.now.instances) }
{
    let mut starts = Vec::new(alloc);
    let mut count = 0;
    for instance in system.instances.as_slice() {
        starts.push(count)?;
        count += output_count(system.unit_of(instance));
    }
    Ok(starts)
}

/// Returns the column of an output of the plain form.
fn placed(system: &System, starts: &[u32], port: PortKey<'_>, ty: Ty, event: bool) -> Column
    requires { IsPlaced system.now starts.now (port_with port) }
    ensures { result ≡ plain_column system.now (port_with port.entry) ty event }
{
    let number = instance_number(system.instances.as_slice(), port.0);
    let instance = &system.instances.as_slice()[number];
    let unit = system.unit_of(instance).unwrap();
    let output = output_number(unit.outputs.as_slice(), port.1) as u32;
    Column {
        instance: number as u32,
        output,
        place: starts[number] + output,
        ty,
        event,
    }
}

/// Returns the column of a port, where the port is an output.
fn column(checked: &Checked, starts: &[u32], port: PortKey<'_>) -> Option<Column>
    requires { starts.now ≡ starts_from (plain_form checked.now) 0 (plain_form checked.now).instances }
    ensures { result ≡ option_map (column_of checked.now (port_with port.entry)) (output_at checked.now (port_with port.entry)) }
{
    let (ty, event) = declared_at(checked.source(), port.0, port.1)?;
    Some(placed(checked.system(), starts, port, ty, event))
}

/// Adds a column, where there is one.
fn put_if(column: Option<Column>, columns: &mut Vec<Column>) -> Result<(), NoMemory>
    ensures { OnOk result (columns.new.items ≡ columns.old.items ++ cons_option column []) }
{
    if let Some(column) = column {
        columns.push(column)?;
    }
    Ok(())
}

/// Returns the columns of a checked system: the sampled outputs in the order of their lines or, where nothing is sampled, all
/// outputs by instance and by declaration.
pub(crate) fn columns(alloc: Global, checked: &Checked) -> Result<Vec<Column>, NoMemory>
    ensures { IfOk result (λ columns. columns.items ≡ columns_of checked.now) }
{
    let starts = starts(alloc, checked.system())?;
    let ports = shown_ports(alloc, checked.source())?;
    let mut columns = Vec::new(alloc);
    for port in ports.as_slice() {
        put_if(column(checked, &starts, *port), &mut columns)?;
    }
    Ok(columns)
}
