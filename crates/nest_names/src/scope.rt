//! Scopes of a nest, and ports that are followed from scope to scope.
ghost use Rattle.std.specs.Prelude.{◌≡◌, ◌↔◌, [], ◌++◌, IfOk, IsTrue, OnOk, map, slice_get, false};
ghost use Rattle.std.specs.Borrow.{Bor};
ghost use Rattle.std.specs.Option.{option_map, option_to_list, unwrap_or};
ghost use Rattle.nest_text.specs.declared.nest.Bind.{Bind as Binds};
ghost use Rattle.std.specs.List.{flat_map, list_all, list_any};
ghost use Rattle.nest_names.specs.Flattening.{distinct, expand, flat_port, follow, inside, is_component, reach, same_group, same_spot, spot_in, step_down, top};
ghost use Rattle.unit_tree.specs.Names.{same_port};

use crate::lists::PlacesByName;
use crate::names::NestNames;
use crate::tables::at;
use fixed_words::{List, NoMemory};
use nest_text::Bind;
use std::alloc::Global;
use unit_tree::{Name, PortName};

/// The scope of an instance: `main`, or an instance of a group.
#[derive(Debug, Drop)]
pub struct GroupScope {
    /// The names of the instances around it, each with a `_` after it.
    pub prefix: Name,
    /// The place of the group; none in `main`.
    pub group: Option<usize>,
}

/// How deep scopes may be nested.
pub const LEVELS: usize = 33;

/// The scope of `main`.
pub fn top(alloc: Global) -> GroupScope
    ensures { result ≡ top }
{
    GroupScope {
        prefix: List::new(alloc),
        group: None,
    }
}

/// A port of an instance in a scope.
#[derive(Debug, Drop)]
pub struct Spot {
    pub scope: GroupScope,
    pub port: PortName,
}

/// Two byte strings joined.
fn joined(alloc: Global, front: &[u8], behind: &[u8]) -> Result<Name, NoMemory>
    ensures { IfOk result (λ made. made ≡ front.now ++ behind.now) }
{
    let mut bytes = Vec::from_slice(alloc, front)?;
    bytes.extend_from_slice(behind)?;
    Ok(List::from_vec(bytes))
}

/// A name in a scope, as a name of the flat system.
pub fn flat_name(alloc: Global, scope: &GroupScope, name: &Name) -> Result<Name, NoMemory>
    ensures { IfOk result (λ made. made ≡ scope.now.prefix ++ name.now) }
{
    joined(alloc, scope.prefix.as_slice(), name.as_slice())
}

/// A copy of a name.
pub fn copied_name(alloc: Global, name: &Name) -> Result<Name, NoMemory>
    ensures { IfOk result (λ made. made ≡ name.now) }
{
    Ok(List::from_slice(alloc, name.as_slice())?)
}

/// A copy of a port.
pub fn copied_port(alloc: Global, port: &PortName) -> Result<PortName, NoMemory>
    ensures { IfOk result (λ made. made ≡ port.now) }
{
    let instance = copied_name(alloc, &port.instance)?;
    let port = copied_name(alloc, &port.port)?;
    Ok(PortName { instance, port })
}

/// A copy of a scope.
pub fn copied_scope(alloc: Global, scope: &GroupScope) -> Result<GroupScope, NoMemory>
    ensures { IfOk result (λ made. made ≡ scope.now) }
{
    Ok(GroupScope {
        prefix: copied_name(alloc, &scope.prefix)?,
        group: scope.group,
    })
}

/// A port in a scope, which is moved.
fn port_in(alloc: Global, scope: GroupScope, port: &PortName) -> Result<Spot, NoMemory>
    ensures { IfOk result (λ made. made ≡ record { scope = scope; port = port.now }) }
{
    let port = copied_port(alloc, port)?;
    Ok(Spot { scope, port })
}

/// A port in a scope.
pub fn spot_of(alloc: Global, scope: &GroupScope, port: &PortName) -> Result<Spot, NoMemory>
    ensures { IfOk result (λ made. made ≡ record { scope = scope.now; port = port.now }) }
{
    let scope = copied_scope(alloc, scope)?;
    port_in(alloc, scope, port)
}

/// The scope inside an instance of the group at a place, made from the scope around it.
fn entered(scope: GroupScope, name: &Name, place: usize) -> Result<GroupScope, NoMemory>
    ensures { IfOk result (λ made. made ≡ inside scope name.now place) }
{
    let mut bytes = scope.prefix.into_vec();
    bytes.extend_from_slice(name.as_slice())?;
    bytes.push(b'_')?;
    Ok(GroupScope {
        prefix: List::from_vec(bytes),
        group: Some(place),
    })
}

/// The scope inside an instance of the group at a place.
pub fn inside(
    alloc: Global,
    scope: &GroupScope,
    name: &Name,
    place: usize,
) -> Result<GroupScope, NoMemory>
    ensures { IfOk result (λ made. made ≡ inside scope.now name.now place) }
{
    let scope = copied_scope(alloc, scope)?;
    entered(scope, name, place)
}

/// A port in a scope, as a port of the flat system.
pub fn flat_port(alloc: Global, spot: &Spot) -> Result<PortName, NoMemory>
    ensures { IfOk result (λ made. made ≡ flat_port spot.now) }
{
    let instance = flat_name(alloc, &spot.scope, &spot.port.instance)?;
    let port = copied_name(alloc, &spot.port.port)?;
    Ok(PortName { instance, port })
}

/// Where one step down from an output of a group ends.
#[derive(Clone, Copy)]
struct Below<'n> {
    /// The place of the group.
    place: usize,
    /// Its `out` line.
    line: &'n Bind,
}

/// From an output of a group to the inner output of its `out` line, one level down.
fn step_down<'n>(names: &NestNames<'n>, scope: &GroupScope, port: &PortName) -> Option<Below<'n>>
    ensures { option_map (λ below. record { scope = inside scope.now port.now.instance below.place; port = below.line.now.inner }) result
        ≡ step_down names.now (record { scope = scope.now; port = port.now }) }
{
    let place = names.place_at(scope.group, port.instance.as_slice())?;
    let line = names.out_named(place, port.port.as_slice())?;
    Some(Below { place, line })
}

/// The output of a component that is reached from an output by `out` lines, with at most `depth` of them.
pub fn follow(
    alloc: Global,
    names: &NestNames<'_>,
    depth: usize,
    scope: GroupScope,
    port: &PortName,
) -> Result<Spot, NoMemory>
    ensures { IfOk result (λ made. made ≡ follow names.now depth (record { scope = scope; port = port.now })) }
{
    if depth == 0 {
        return port_in(alloc, scope, port);
    }
    match step_down(names, &scope, port) {
        Some(below) => {
            let scope = entered(scope, &port.instance, below.place)?;
            follow(alloc, names, depth - 1, scope, &below.line.inner)
        }
        None => port_in(alloc, scope, port),
    }
}

fn is_component(names: &NestNames<'_>, spot: &Spot) -> bool
    ensures { result ≡ is_component names.now spot.now }
{
    names
        .place_at(spot.scope.group, spot.port.instance.as_slice())
        .is_none()
}

fn are_components(names: &NestNames<'_>, spots: &[Spot]) -> bool
    ensures { result ≡ list_all (is_component names.now) spots.now }
{
    spots.iter().all(|spot| is_component(names, spot))
}

/// Appends the inner port of a line, if there is a line.
pub fn put_bind(
    alloc: Global,
    scope: &GroupScope,
    bind: Option<&Bind>,
    spots: &mut List<Spot>,
) -> Result<(), NoMemory>
    ensures { OnOk result (spots.new
        ≡ spots.old ++ map (spot_in scope.now) (option_to_list (option_map (λ (found : Bor Binds). found.now) bind.entry))) }
{
    if let Some(bind) = bind {
        spots.push(spot_of(alloc, scope, &bind.inner)?)?;
    }
    Ok(())
}

/// Appends the inner inputs of an input of a group, or the input of a component itself.
fn put_expanded(
    alloc: Global,
    names: &NestNames<'_>,
    from: &Spot,
    spots: &mut List<Spot>,
) -> Result<(), NoMemory>
    ensures { OnOk result (spots.new ≡ spots.old ++ expand names.now from.now) }
{
    let Some(place) = names.place_at(from.scope.group, from.port.instance.as_slice()) else {
        spots.push(spot_of(alloc, &from.scope, &from.port)?)?;
        return Ok(());
    };
    let scope = inside(alloc, &from.scope, &from.port.instance, place)?;
    let ins = names.ins(place);
    for line in names.ins_named(place, from.port.port.as_slice()) {
        put_bind(alloc, &scope, at(ins, *line), spots)?;
    }
    Ok(())
}

pub fn same_group(one: Option<usize>, other: Option<usize>) -> bool
    ensures { result ≡ same_group one other }
{
    match (one, other) {
        (None, None) => true,
        (Some(one), Some(other)) => one == other,
        _ => false,
    }
}

pub fn same_port(one: &PortName, other: &PortName) -> bool
    ensures { result ≡ same_port one.now other.now }
{
    one.instance.as_slice() == other.instance.as_slice()
        && one.port.as_slice() == other.port.as_slice()
}

/// Returns whether two scopes are equal.
#[tactic(auto, using(crate::proofs::SameSpots::scope_is, crate::proofs::SameSpots::scope_self))]
pub fn same_scope(one: &GroupScope, other: &GroupScope) -> bool
    ensures { IsTrue result ↔ (one.now ≡ other.now) }
{
    one.prefix.as_slice() == other.prefix.as_slice() && same_group(one.group, other.group)
}

fn same_spot(one: &Spot, other: &Spot) -> bool
    ensures { result ≡ same_spot one.now other.now }
{
    one.scope.prefix.as_slice() == other.scope.prefix.as_slice()
        && same_group(one.scope.group, other.scope.group)
        && same_port(&one.port, &other.port)
}

/// Whether the port at a place is this one.
fn is_at(spot: &Spot, spots: &[Spot], place: usize) -> bool
    ensures { result ≡ unwrap_or (option_map (same_spot spot.now) (slice_get spots.now place)) false }
{
    match at(spots, place) {
        Some(other) => same_spot(spot, other),
        None => false,
    }
}

/// Whether a port is at one of the places.
fn is_kept(spot: &Spot, spots: &[Spot], places: &[usize]) -> bool
    ensures { result ≡ list_any (λ place. unwrap_or (option_map (same_spot spot.now) (slice_get spots.now place)) false) places.now }
{
    places.iter().any(|place| is_at(spot, spots, *place))
}

/// Each port once, at its first place. Each port is compared only with the kept ports of the same name, which are
/// few.
pub fn distinct(alloc: Global, spots: &[Spot]) -> Result<List<Spot>, NoMemory>
    ensures { IfOk result (λ kept. kept ≡ distinct [] spots.now) }
{
    let mut kept = List::new(alloc);
    let mut places = PlacesByName::new(alloc);
    for (place, one) in spots.iter().enumerate() {
        let port = one.port.port.as_slice();
        if is_kept(one, spots, places.named(port)) {
            continue;
        }
        places.add(alloc, port, place)?;
        let copy = spot_of(alloc, &one.scope, &one.port)?;
        kept.push(copy)?;
    }
    Ok(kept)
}

/// Inputs, each replaced by its inner inputs, with each port once.
fn one_level(alloc: Global, names: &NestNames<'_>, spots: &[Spot]) -> Result<List<Spot>, NoMemory>
    ensures { IfOk result (λ made. made ≡ distinct [] (flat_map (expand names.now) spots.now)) }
{
    let mut expanded = List::new(alloc);
    for spot in spots {
        put_expanded(alloc, names, spot, &mut expanded)?;
    }
    distinct(alloc, expanded.as_slice())
}

/// The inputs of components that are reached from inputs by `in` lines, over at most `depth` levels.
pub fn reach(
    alloc: Global,
    names: &NestNames<'_>,
    depth: usize,
    spots: List<Spot>,
) -> Result<List<Spot>, NoMemory>
    ensures { IfOk result (λ made. made ≡ reach names.now depth spots) }
{
    if depth == 0 || are_components(names, spots.as_slice()) {
        return Ok(spots);
    }
    let next = one_level(alloc, names, spots.as_slice())?;
    drop(spots);
    reach(alloc, names, depth - 1, next)
}
