//! The flat system of a nest, up to the limits of a system.
ghost use Rattle.std.specs.Prelude.{◌≡◌, ◌∷◌, [], ◌≤◌, nat_lt, length, map, IfOk};
ghost use Rattle.std.specs.List.{flat_map, list_any};
ghost use Rattle.sub_flat.specs.FlatReading.{IsKeptPrintable, MadeWithin, MakesLeaves, MakesParts, PutsWithin, leaves_inside, wire_between, wires_inside, with_parts};
ghost use Rattle.nest_ways.specs.Walking.{AreWays};
ghost use Rattle.nest_names.specs.Flattening.{flat_port, flat_wire, flat_wires, follow, leaves, levels, named_in, top, wires_of};
ghost use Rattle.model_rules.specs.Limits.{connection_limit, instance_limit, name_limit};

use crate::fault::Unflat;
use crate::samples::flat_samples;
use fixed_words::{List, NoMemory};
use model_rules::{LONGEST_NAME, MOST_CONNECTIONS, MOST_INSTANCES};
use nest_names::{
    GroupScope, LEVELS, NestNames, Spot, copied_name, copied_scope, flat_name, flat_port, follow,
    inside, top,
};
use nest_ways::{Guide, Ways, reached};
use std::alloc::Global;
use std::mem::replace;
use unit_print::is_printable;
use unit_tree::{Instance, PortName, Setting, System, Wire};

fn copied_settings(alloc: Global, settings: &[Setting]) -> Result<List<Setting>, NoMemory>
    ensures { IfOk result (λ made. made ≡ settings.now) }
{
    let mut made = List::new(alloc);
    for setting in settings {
        made.push(Setting {
            name: copied_name(alloc, &setting.name)?,
            value: setting.value,
        })?;
    }
    Ok(made)
}

/// An instance of a scope, as one of the flat system.
fn named_in(alloc: Global, scope: &GroupScope, instance: &Instance) -> Result<Instance, NoMemory>
    ensures { IfOk result (λ made. made ≡ named_in scope.now instance.now) }
{
    let name = flat_name(alloc, scope, &instance.name)?;
    let unit = copied_name(alloc, &instance.unit)?;
    let settings = copied_settings(alloc, instance.settings.as_slice())?;
    Ok(Instance {
        name,
        unit,
        settings,
    })
}

/// Adds one more instance, if there is room.
fn put_instance(
    alloc: Global,
    scope: &GroupScope,
    instance: &Instance,
    instances: &mut List<Instance>,
) -> Result<(), Unflat>
    requires { length instances.old ≤ instance_limit }
    ensures { PutsWithin instance_limit instances.old instances.new (named_in scope.now instance.now ∷ []) result }
{
    if instances.len() >= MOST_INSTANCES {
        return Err(Unflat::TooLarge);
    }
    instances.push(named_in(alloc, scope, instance)?)?;
    Ok(())
}

/// Appends the components that an instance of a scope becomes.
#[cycle(leaves)]
fn put_inside(
    alloc: Global,
    names: &NestNames<'_>,
    depth: usize,
    scope: &GroupScope,
    instance: &Instance,
    instances: &mut List<Instance>,
) -> Result<(), Unflat>
    requires { length instances.old ≤ instance_limit }
    ensures { PutsWithin instance_limit instances.old instances.new (leaves_inside names.now depth scope.now instance.now) result }
{
    if depth == 0 {
        return put_instance(alloc, scope, instance, instances);
    }
    let Some(place) = names.group_place(instance.unit.as_slice()) else {
        return put_instance(alloc, scope, instance, instances);
    };
    let scope = inside(alloc, scope, &instance.name, place)?;
    put_leaves(alloc, names, depth - 1, &scope, instances)
}

/// Appends the components in a scope.
#[cycle(leaves)]
fn put_leaves(
    alloc: Global,
    names: &NestNames<'_>,
    depth: usize,
    scope: &GroupScope,
    instances: &mut List<Instance>,
) -> Result<(), Unflat>
    requires { length instances.old ≤ instance_limit }
    ensures { PutsWithin instance_limit instances.old instances.new (leaves names.now depth scope.now) result }
{
    for instance in names.instances(scope.group) {
        put_inside(alloc, names, depth, scope, instance, instances)?;
    }
    Ok(())
}

/// Appends connections from one port to others.
fn put_to(alloc: Global, from: &Spot, to: &[Spot], wires: &mut List<Wire>) -> Result<(), Unflat>
    requires { length wires.old ≤ connection_limit }
    ensures { PutsWithin connection_limit wires.old wires.new (map (wire_between from.now) to.now) result }
{
    for one in to {
        if wires.len() >= MOST_CONNECTIONS {
            return Err(Unflat::TooLarge);
        }
        let from = flat_port(alloc, from)?;
        let to = flat_port(alloc, one)?;
        wires.push(Wire { from, to })?;
    }
    Ok(())
}

/// Appends what a connection of a scope becomes.
fn put_flat_wire<'n>(
    alloc: Global,
    names: &NestNames<'n>,
    ways: &Ways<'n>,
    guide: &mut Guide<'n>,
    scope: &GroupScope,
    wire: &'n Wire,
    wires: &mut List<Wire>,
) -> Result<(), Unflat>
    requires room { length wires.old ≤ connection_limit }
    requires known { AreWays names.now ways.now }
    ensures { PutsWithin connection_limit wires.old wires.new (flat_wire names.now scope.now wire.now) result }
{
    let around = copied_scope(alloc, scope)?;
    let from = follow(alloc, names, LEVELS, around, &wire.from)?;
    let room = MOST_CONNECTIONS - wires.len();
    let Some(to) = reached(alloc, names, ways, guide, scope, &wire.to, room)? else {
        drop(from);
        return Err(Unflat::TooLarge);
    };
    put_to(alloc, &from, to.as_slice(), wires)
}

/// Appends what the connections of a scope become.
fn put_own_wires<'n>(
    alloc: Global,
    names: &NestNames<'n>,
    ways: &Ways<'n>,
    guide: &mut Guide<'n>,
    scope: &GroupScope,
    wires: &mut List<Wire>,
) -> Result<(), Unflat>
    requires room { length wires.old ≤ connection_limit }
    requires known { AreWays names.now ways.now }
    ensures { PutsWithin connection_limit wires.old wires.new (flat_map (flat_wire names.now scope.now) (wires_of names.now scope.now.group)) result }
{
    for wire in names.wires(scope.group) {
        put_flat_wire(alloc, names, ways, guide, scope, wire, wires)?;
    }
    Ok(())
}

/// Appends the connections inside an instance of a scope.
#[cycle(wires)]
fn put_wires_inside<'n>(
    alloc: Global,
    names: &NestNames<'n>,
    ways: &Ways<'n>,
    guide: &mut Guide<'n>,
    depth: usize,
    scope: &GroupScope,
    instance: &Instance,
    wires: &mut List<Wire>,
) -> Result<(), Unflat>
    requires room { length wires.old ≤ connection_limit }
    requires known { AreWays names.now ways.now }
    ensures { PutsWithin connection_limit wires.old wires.new (wires_inside names.now depth scope.now instance.now) result }
{
    if depth == 0 {
        return Ok(());
    }
    let Some(place) = names.group_place(instance.unit.as_slice()) else {
        return Ok(());
    };
    let scope = inside(alloc, scope, &instance.name, place)?;
    put_wires(alloc, names, ways, guide, depth - 1, &scope, wires)
}

/// Appends the connections in a scope.
#[cycle(wires)]
fn put_wires<'n>(
    alloc: Global,
    names: &NestNames<'n>,
    ways: &Ways<'n>,
    guide: &mut Guide<'n>,
    depth: usize,
    scope: &GroupScope,
    wires: &mut List<Wire>,
) -> Result<(), Unflat>
    requires room { length wires.old ≤ connection_limit }
    requires known { AreWays names.now ways.now }
    ensures { PutsWithin connection_limit wires.old wires.new (flat_wires names.now depth scope.now) result }
{
    put_own_wires(alloc, names, ways, guide, scope, wires)?;
    for instance in names.instances(scope.group) {
        put_wires_inside(alloc, names, ways, guide, depth, scope, instance, wires)?;
    }
    Ok(())
}

fn flat_instances(alloc: Global, names: &NestNames<'_>) -> Result<List<Instance>, Unflat>
    ensures { MadeWithin instance_limit (leaves names.now levels top) result }
{
    let mut instances = List::new(alloc);
    put_leaves(alloc, names, LEVELS, &top(alloc), &mut instances)?;
    Ok(instances)
}

fn has_long_name(instances: &[Instance]) -> bool
    ensures { result ≡ list_any (λ instance. nat_lt name_limit (length instance.name)) instances.now }
{
    instances
        .iter()
        .any(|instance| instance.name.len() > LONGEST_NAME)
}

/// The components of the flat system, if none has too long a name. Scopes are then nested at most sixteen deep, if no
/// instance has an empty name; in a text none has.
fn named_instances(alloc: Global, names: &NestNames<'_>) -> Result<List<Instance>, Unflat>
    ensures { MakesLeaves names.now result }
{
    let instances = flat_instances(alloc, names)?;
    if has_long_name(instances.as_slice()) {
        drop(instances);
        return Err(Unflat::TooLarge);
    }
    Ok(instances)
}

fn all_flat_wires(alloc: Global, names: &NestNames<'_>) -> Result<List<Wire>, Unflat>
    ensures { MadeWithin connection_limit (flat_wires names.now levels top) result }
{
    let (ways, mut guide) = Ways::new(alloc, names)?;
    let mut wires = List::new(alloc);
    put_wires(
        alloc,
        names,
        &ways,
        &mut guide,
        LEVELS,
        &top(alloc),
        &mut wires,
    )?;
    Ok(wires)
}

/// The components, connections and samples of the flat system of a nest, which replace those of `main`.
#[derive(Drop)]
pub struct FlatParts {
    pub instances: List<Instance>,
    pub wires: List<Wire>,
    pub samples: List<PortName>,
}

/// The parts of the flat system of a nest, with at most 64 instances and 2,048 connections.
pub(crate) fn flat_parts(alloc: Global, names: &NestNames<'_>) -> Result<FlatParts, Unflat>
    ensures { MakesParts names.now result }
{
    let instances = named_instances(alloc, names)?;
    let wires = all_flat_wires(alloc, names)?;
    let main = &names.nest().main;
    let samples = flat_samples(alloc, names, main.samples.as_slice())?;
    Ok(FlatParts {
        instances,
        wires,
        samples,
    })
}

/// A system with other components, connections and samples.
fn with_parts(main: System, parts: FlatParts) -> System
    ensures { result ≡ with_parts main parts }
{
    let FlatParts {
        instances,
        wires,
        samples,
    } = parts;
    let mut made = main;
    drop(replace(&mut made.instances, instances));
    drop(replace(&mut made.wires, wires));
    drop(replace(&mut made.samples, samples));
    made
}

/// The system, if it is printable.
fn if_printable(alloc: Global, system: System) -> Result<System, Unflat>
    ensures { IsKeptPrintable system result }
{
    if is_printable(alloc, &system)? {
        return Ok(system);
    }
    drop(system);
    Err(Unflat::TooLarge)
}

/// The flat system of a nest: `main` with these parts in place of its own.
pub(crate) fn flat_system(alloc: Global, main: System, parts: FlatParts) -> Result<System, Unflat>
    ensures { IsKeptPrintable (with_parts main parts) result }
{
    if_printable(alloc, with_parts(main, parts))
}
