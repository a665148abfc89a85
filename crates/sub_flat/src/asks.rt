//! The tests of groups that the rules make.
ghost use Rattle.std.specs.Prelude.{◌≡◌};
ghost use Rattle.std.specs.List.{list_any};
ghost use Rattle.sub_flat.specs.declared.asks.Side.TheVariants as sides;
ghost use Rattle.sub_flat.specs.GroupTests.{has_side, has_wrong_name, is_misnamed, main_misses_port, misbinds, misses, misses_port, sets_group, wire_misses};

use nest_names::{GroupNames, InstanceNames, NestNames};
use nest_text::Bind;
use unit_tree::{Instance, PortName, Wire};

/// Which ports are searched.
#[derive(Clone, Copy, PartialEq, Eq)]
pub enum Side {
    Input,
    Output,
}

/// Whether a unit or group of the name has the port.
fn has_port(names: &NestNames<'_>, side: Side, unit: &[u8], port: &[u8]) -> bool
    ensures { result ≡ has_side names.now side unit.now port.now }
{
    match side {
        Side::Input => names.has_input(unit, port),
        Side::Output => names.has_output(unit, port),
    }
}

/// Whether a group has the name of another group, or of a unit.
fn has_wrong_name(names: &NestNames<'_>, group: &GroupNames<'_>) -> bool
    ensures { result ≡ has_wrong_name names.now group.now }
{
    let name = group.group().name.as_slice();
    names.is_again(name) || names.is_unit(name)
}

pub(crate) fn is_misnamed(names: &NestNames<'_>, group: &GroupNames<'_>) -> bool
    ensures { result ≡ is_misnamed names.now group.now }
{
    has_wrong_name(names, group) || group.group().instances.is_empty()
}

/// Whether the inner port of a line doesn't exist.
fn misbinds(names: &NestNames<'_>, side: Side, instances: &InstanceNames<'_>, bind: &Bind) -> bool
    ensures { result ≡ misbinds (has_side names.now side) instances.now bind.now }
{
    match instances.named(bind.inner.instance.as_slice()) {
        Some(instance) => !has_port(
            names,
            side,
            instance.unit.as_slice(),
            bind.inner.port.as_slice(),
        ),
        None => true,
    }
}

/// Whether an end of a connection at a group doesn't exist.
fn misses(names: &NestNames<'_>, side: Side, instances: &InstanceNames<'_>, port: &PortName) -> bool
    ensures { result ≡ misses names.now (has_side names.now side) instances.now port.now }
{
    match instances.named(port.instance.as_slice()) {
        Some(instance) => {
            let unit = instance.unit.as_slice();
            names.group_place(unit).is_some() && !has_port(names, side, unit, port.port.as_slice())
        }
        None => false,
    }
}

fn wire_misses(names: &NestNames<'_>, instances: &InstanceNames<'_>, wire: &Wire) -> bool
    ensures { result ≡ wire_misses names.now instances.now wire.now }
{
    misses(names, Side::Output, instances, &wire.from)
        || misses(names, Side::Input, instances, &wire.to)
}

fn any_misbinds(
    names: &NestNames<'_>,
    side: Side,
    instances: &InstanceNames<'_>,
    binds: &[Bind],
) -> bool
    ensures { result ≡ list_any (misbinds (has_side names.now side) instances.now) binds.now }
{
    binds
        .iter()
        .any(|bind| misbinds(names, side, instances, bind))
}

fn any_misses(names: &NestNames<'_>, instances: &InstanceNames<'_>, wires: &[Wire]) -> bool
    ensures { result ≡ list_any (wire_misses names.now instances.now) wires.now }
{
    wires.iter().any(|wire| wire_misses(names, instances, wire))
}

pub(crate) fn misses_port(names: &NestNames<'_>, group: &GroupNames<'_>) -> bool
    ensures { result ≡ misses_port names.now group.now }
{
    let instances = group.instances();
    any_misbinds(names, Side::Input, instances, group.ins().all())
        || any_misbinds(names, Side::Output, instances, group.outs().all())
        || any_misses(names, instances, group.group().wires.as_slice())
        || group.outs().says_twice()
}

fn sets_group(names: &NestNames<'_>, instance: &Instance) -> bool
    ensures { result ≡ sets_group names.now instance.now }
{
    names.group_place(instance.unit.as_slice()).is_some() && !instance.settings.is_empty()
}

fn any_sample_misses(
    names: &NestNames<'_>,
    instances: &InstanceNames<'_>,
    samples: &[PortName],
) -> bool
    ensures { result ≡ list_any (misses names.now (has_side names.now sides.Output) instances.now) samples.now }
{
    samples
        .iter()
        .any(|port| misses(names, Side::Output, instances, port))
}

fn any_sets_group(names: &NestNames<'_>, instances: &[Instance]) -> bool
    ensures { result ≡ list_any (sets_group names.now) instances.now }
{
    instances.iter().any(|instance| sets_group(names, instance))
}

/// Whether `main` uses a port of a group that doesn't exist, or has settings for a group.
pub(crate) fn main_misses_port(names: &NestNames<'_>) -> bool
    ensures { result ≡ main_misses_port names.now }
{
    let main = &names.nest().main;
    let instances = names.main_instances();
    any_misses(names, instances, main.wires.as_slice())
        || any_sample_misses(names, instances, main.samples.as_slice())
        || any_sets_group(names, main.instances.as_slice())
}
