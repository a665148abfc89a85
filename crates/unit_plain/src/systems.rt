//! Systems: copies, and the plain form.
ghost use Rattle.std.specs.Prelude.{◌≡◌, ◌++◌, map, false, IfOk, OnOk};
ghost use Rattle.std.specs.List.{find, flat_map, list_any};
ghost use Rattle.std.specs.Option.{option_copied, option_map, unwrap_or};
ghost use Rattle.std.specs.Str.{bytes_eq};
ghost use Rattle.unit_tree.specs.Names.{output_ports, port_named, unit_at, unit_named, unit_of_instance};
ghost use Rattle.unit_tree.specs.Orders.{outputs_in, outputs_of, port_of};
ghost use Rattle.unit_tree.specs.Plain.{is_event_output, plain_form, plain_unit, plain_wires, presence_port, samples_or_all};

use crate::copies::{Copied, copied_list};
use crate::expressions::presence_name;
use crate::units::plain_unit;
use fixed_words::{List, NoMemory};
use std::alloc::Global;
use unit_tree::{EventOut, Instance, Name, Output, PortName, System, Unit, Wire};

/// Returns a copy of a system of either version, with all that it holds, also its event ports. The copy is independent
/// of the system, which is unchanged.
///
/// The only error is that there is no memory.
pub fn copy_system(alloc: Global, system: &System) -> Result<System, NoMemory>
    ensures { IfOk result (λ copy. copy ≡ system.now) }
{
    Ok(System {
        version: system.version,
        units: copied_list(alloc, system.units.as_slice())?,
        instances: copied_list(alloc, system.instances.as_slice())?,
        wires: copied_list(alloc, system.wires.as_slice())?,
        stop: system.stop,
        longest: system.longest,
        zero: system.zero,
        rows: system.rows,
        samples: copied_list(alloc, system.samples.as_slice())?,
    })
}

// ---- Names

/// The first instance of the name.
fn instance_named<'a>(instances: &'a [Instance], name: &[u8]) -> Option<&'a Instance>
    ensures { option_copied result ≡ find (λ instance. bytes_eq instance.name name.now) instances.now }
{
    for instance in instances {
        if instance.name.as_slice() == name {
            return Some(instance);
        }
    }
    None
}

/// The first unit of the name.
fn unit_named<'a>(units: &'a [Unit], name: &[u8]) -> Option<&'a Unit>
    ensures { option_copied result ≡ unit_named units.now name.now }
{
    for unit in units {
        if unit.name.as_slice() == name {
            return Some(unit);
        }
    }
    None
}

/// The unit of the instance that a port names.
fn unit_at<'a>(system: &'a System, port: &PortName) -> Option<&'a Unit>
    ensures { option_copied result ≡ unit_at system.now port.now }
{
    match instance_named(system.instances.as_slice(), port.instance.as_slice()) {
        None => None,
        Some(instance) => unit_named(system.units.as_slice(), instance.unit.as_slice()),
    }
}

// ---- Connections

fn has_output(outputs: &[Output], name: &[u8]) -> bool
    ensures { result ≡ list_any (λ output. bytes_eq output.name name.now) outputs.now }
{
    for output in outputs {
        if output.name.as_slice() == name {
            return true;
        }
    }
    false
}

fn has_event_output(events: &[EventOut], name: &[u8]) -> bool
    ensures { result ≡ list_any (λ event. bytes_eq event.name name.now) events.now }
{
    for event in events {
        if event.name.as_slice() == name {
            return true;
        }
    }
    false
}

/// Whether the unit's output of the name is an event output.
fn is_event_port(unit: &Unit, name: &[u8]) -> bool
    ensures { result ≡ unwrap_or (option_map (λ output. output.is_event) (port_named (output_ports unit.now) name.now)) false }
{
    !has_output(unit.outputs.as_slice(), name) && has_event_output(unit.events_out.as_slice(), name)
}

/// Whether the output that a port names is an event output.
fn is_event_output(system: &System, port: &PortName) -> bool
    ensures { result ≡ is_event_output system.now port.now }
{
    match unit_at(system, port) {
        None => false,
        Some(unit) => is_event_port(unit, port.port.as_slice()),
    }
}

/// The port that is true where an event occurs at another port.
fn presence_port(alloc: Global, port: &PortName) -> Result<PortName, NoMemory>
    ensures { IfOk result (λ presence. presence ≡ presence_port port.now) }
{
    Ok(PortName {
        instance: port.instance.copied(alloc)?,
        port: presence_name(alloc, &port.port)?,
    })
}

/// Appends what a connection becomes: that of event ports becomes two, first that of the `?` ports.
fn put_wire(
    alloc: Global,
    wires: &mut List<Wire>,
    system: &System,
    wire: &Wire,
) -> Result<(), NoMemory>
    ensures { OnOk result (wires.new ≡ wires.old ++ plain_wires system.now wire.now) }
{
    if is_event_output(system, &wire.from) {
        wires.push(Wire {
            from: presence_port(alloc, &wire.from)?,
            to: presence_port(alloc, &wire.to)?,
        })?;
    }
    wires.push(wire.copied(alloc)?)
}

/// The connections of the plain form.
fn plain_wires(alloc: Global, system: &System) -> Result<List<Wire>, NoMemory>
    ensures { IfOk result (λ plain. plain ≡ flat_map (plain_wires system.now) system.now.wires) }
{
    let mut wires = List::new(alloc);
    for wire in system.wires.as_slice() {
        put_wire(alloc, &mut wires, system, wire)?;
    }
    Ok(wires)
}

// ---- Samples

fn port_of(alloc: Global, instance: &Instance, port: &Name) -> Result<PortName, NoMemory>
    ensures { IfOk result (λ named. named ≡ port_of instance.now port.now) }
{
    Ok(PortName {
        instance: instance.name.copied(alloc)?,
        port: port.copied(alloc)?,
    })
}

/// Appends the plain outputs of an instance.
fn put_outputs(
    alloc: Global,
    ports: &mut List<PortName>,
    instance: &Instance,
    outputs: &[Output],
) -> Result<(), NoMemory>
    ensures { OnOk result (ports.new ≡ ports.old ++ map (λ output. port_of instance.now output.name) outputs.now) }
{
    for output in outputs {
        ports.push(port_of(alloc, instance, &output.name)?)?;
    }
    Ok(())
}

/// Appends the event outputs of an instance.
fn put_event_outputs(
    alloc: Global,
    ports: &mut List<PortName>,
    instance: &Instance,
    events: &[EventOut],
) -> Result<(), NoMemory>
    ensures { OnOk result (ports.new ≡ ports.old ++ map (λ event. port_of instance.now event.name) events.now) }
{
    for event in events {
        ports.push(port_of(alloc, instance, &event.name)?)?;
    }
    Ok(())
}

/// Appends the outputs of an instance of a unit, event outputs after all others.
fn put_ports_of_unit(
    alloc: Global,
    ports: &mut List<PortName>,
    instance: &Instance,
    unit: &Unit,
) -> Result<(), NoMemory>
    ensures { OnOk result (ports.new ≡ ports.old ++ map (λ output. port_of instance.now output.name) (output_ports unit.now)) }
{
    put_outputs(alloc, ports, instance, unit.outputs.as_slice())?;
    put_event_outputs(alloc, ports, instance, unit.events_out.as_slice())
}

/// Appends the outputs of an instance, or none where its unit is not declared.
fn put_ports(
    alloc: Global,
    ports: &mut List<PortName>,
    system: &System,
    instance: &Instance,
) -> Result<(), NoMemory>
    ensures { OnOk result (ports.new
        ≡ ports.old ++ map (λ output. port_of instance.now output.name) (outputs_in (unit_of_instance system.now instance.now))) }
{
    match unit_named(system.units.as_slice(), instance.unit.as_slice()) {
        None => Ok(()),
        Some(unit) => put_ports_of_unit(alloc, ports, instance, unit),
    }
}

/// All outputs of a system, by instance and then by declaration.
fn all_outputs(alloc: Global, system: &System) -> Result<List<PortName>, NoMemory>
    ensures { IfOk result (λ ports. ports ≡ outputs_of system.now) }
{
    let mut ports = List::new(alloc);
    for instance in system.instances.as_slice() {
        put_ports(alloc, &mut ports, system, instance)?;
    }
    Ok(ports)
}

/// The sampled outputs, or all outputs where none is sampled.
fn samples_or_all(alloc: Global, system: &System) -> Result<List<PortName>, NoMemory>
    ensures { IfOk result (λ samples. samples ≡ samples_or_all system.now) }
{
    match system.samples.as_slice() {
        [] => all_outputs(alloc, system),
        samples => copied_list(alloc, samples),
    }
}

// ---- The system

fn plain_units(alloc: Global, units: &[Unit]) -> Result<List<Unit>, NoMemory>
    ensures { IfOk result (λ plain. plain ≡ map plain_unit units.now) }
{
    let mut plain = List::new(alloc);
    for unit in units {
        plain.push(plain_unit(alloc, unit)?)?;
    }
    Ok(plain)
}

/// The system with plain ports in place of those of events.
fn with_plain_ports(alloc: Global, system: &System) -> Result<System, NoMemory>
    ensures { IfOk result (λ plain. plain ≡ record system.now {
      units = map plain_unit system.now.units;
      wires = flat_map (plain_wires system.now) system.now.wires;
      samples = samples_or_all system.now;
    }) }
{
    Ok(System {
        version: system.version,
        units: plain_units(alloc, system.units.as_slice())?,
        instances: copied_list(alloc, system.instances.as_slice())?,
        wires: plain_wires(alloc, system)?,
        stop: system.stop,
        longest: system.longest,
        zero: system.zero,
        rows: system.rows,
        samples: samples_or_all(alloc, system)?,
    })
}

/// Returns the plain form of a system, in which each event port is two plain ports: the port `p?`, which is true where
/// an event occurs, and the port `p`, which has the event's word or 0. A system of version 1 is its own plain form, and
/// is copied.
///
/// The only error is that there is no memory.
pub fn plain_form(alloc: Global, system: &System) -> Result<System, NoMemory>
    ensures { IfOk result (λ plain. plain ≡ plain_form system.now) }
{
    if system.version == 2 {
        with_plain_ports(alloc, system)
    } else {
        copy_system(alloc, system)
    }
}
