ghost use Rattle.std.specs.Prelude.{◌≡◌, ◌++◌, IfOk, OnOk, map};
ghost use Rattle.std.specs.List.{AllByRecursion, enumerate_from, flat_map, filter_map};
ghost use Rattle.unit_tree.specs.Compositions.{HasNoEvents, composition_of};
ghost use Rattle.unit_tree.specs.Names.{is_among};
ghost use Rattle.unit_tree.specs.Orders.{outputs_of};
ghost use Rattle.unit_tree.specs.Ports.{place_needed};
ghost use Rattle.unit_tree.specs.Routes.{starts_at, routes_of as composition_routes};
ghost use Rattle.wire_graph.specs.Wiring.{named_of, outputs_named};
ghost use Rattle.wire_graph.specs.Origins.{AreTables, HaveDecimals, wired_input, member_behind};
ghost use Rattle.wire_graph.specs.Routing.{needs_in, bare, numbered_in, wired_in, wired_among, fed, routed_by, routes_from};

use crate::components::{Component, components, output_keys, target_keys};
use crate::origins::{Member, Origin, OriginTables, WiredInput, members, number, table_of};
use fixed_words::{List, NoMemory};
use std::alloc::Global;
use unit_tree::{InputAt, Name, Output, Route, Routes, StartWord, System};

/// Whether a name is among the needs of an output.
fn is_needed(needs: &[Name], name: &[u8]) -> bool
    ensures { result ≡ is_among needs.now name.now }
{
    needs.iter().any(|need| name == need.as_slice())
}

/// The place that an output depends on by an input, if the input is needed and connected.
fn needed_place(output: &Output, wired: WiredInput<'_>) -> Option<u32>
    ensures { result ≡ place_needed output.now (wired_input wired.entry) }
{
    if !is_needed(output.needs.as_slice(), wired.input.name.as_slice()) {
        return None;
    }
    match wired.origin {
        Origin::Start(_) => None,
        Origin::AtPlace(place) => Some(place),
    }
}

/// The places that an output depends on directly, by the inputs of its component.
fn needed_places(alloc: Global, member: &Member<'_>, output: &Output) -> Result<List<u32>, NoMemory>
    ensures { IfOk result (λ needs. needs ≡ needs_in (member_behind member.now).1 output.now) }
{
    let mut needs = List::new(alloc);
    for wired in &member.inputs {
        if let Some(place) = needed_place(output, *wired) {
            needs.push(place)?;
        }
    }
    Ok(needs)
}

/// Adds the outputs of one component, without the inputs that are connected to them.
fn add_routes(
    alloc: Global,
    instance: u32,
    member: &Member<'_>,
    routes: &mut Vec<Route>,
) -> Result<(), NoMemory>
    ensures { OnOk result (routes.new.items ≡ routes.old.items ++ map bare (numbered_in (instance, member_behind member.now))) }
{
    for (output_number, output) in member.unit.outputs.as_slice().iter().enumerate() {
        let needs = needed_places(alloc, member, output)?;
        routes.push(Route {
            instance,
            output: number(output_number)?,
            feeds: List::new(alloc),
            needs,
        })?;
    }
    Ok(())
}

/// All outputs, without the inputs that are connected to them.
fn bare_routes(alloc: Global, members: &[Member<'_>]) -> Result<Vec<Route>, NoMemory>
    ensures { IfOk result (λ routes. routes.items ≡ map bare (flat_map numbered_in (enumerate_from 0 (map member_behind members.now)))) }
{
    let mut routes = Vec::new(alloc);
    for (instance, member) in members.iter().enumerate() {
        add_routes(alloc, number(instance)?, member, &mut routes)?;
    }
    Ok(routes)
}

/// Adds an input to the output that is connected to it.
fn feed(routes: &mut [Route], place: u32, at: InputAt) -> Result<(), NoMemory>
    ensures { OnOk result (routes.new ≡ fed routes.old place at) }
{
    let place = place as usize;
    if place >= routes.len() {
        return Ok(());
    }
    routes[place].feeds.push(at)?;
    Ok(())
}

/// Visits the inputs of one component: each is added to its output, or with its start word.
fn follow_inputs(
    instance: u32,
    inputs: &[WiredInput<'_>],
    routes: &mut [Route],
    starts: &mut Vec<StartWord>,
) -> Result<(), NoMemory>
    ensures routes { OnOk result (routes.new ≡ routed_by routes.old (wired_in (instance, map wired_input inputs.now))) }
    ensures starts { OnOk result (starts.new.items ≡ starts.old.items ++ filter_map starts_at (wired_in (instance, map wired_input inputs.now))) }
{
    for (input_number, wired) in inputs.iter().enumerate() {
        let at = InputAt {
            instance,
            input: number(input_number)?,
        };
        match wired.origin {
            Origin::Start(word) => starts.push(StartWord { at, word })?,
            Origin::AtPlace(place) => feed(routes, place, at)?,
        }
    }
    Ok(())
}

/// Visits the inputs of all components.
fn follow_all(
    members: &[Member<'_>],
    routes: &mut [Route],
    starts: &mut Vec<StartWord>,
) -> Result<(), NoMemory>
    ensures routes { OnOk result (routes.new ≡ routed_by routes.old (flat_map wired_among (enumerate_from 0 (map member_behind members.now)))) }
    ensures starts { OnOk result (starts.new.items ≡ starts.old.items ++ filter_map starts_at (flat_map wired_among (enumerate_from 0 (map member_behind members.now)))) }
{
    for (instance, member) in members.iter().enumerate() {
        follow_inputs(number(instance)?, &member.inputs, routes, starts)?;
    }
    Ok(())
}

/// The routes of components.
pub(crate) fn routes_of(alloc: Global, members: &[Member<'_>]) -> Result<Routes, NoMemory>
    ensures { IfOk result (λ routes. routes ≡ routes_from (map member_behind members.now)) }
{
    let mut outputs = bare_routes(alloc, members)?;
    let mut starts = Vec::new(alloc);
    follow_all(members, &mut outputs, &mut starts)?;
    Ok(Routes {
        outputs: List::from_vec(outputs),
        starts: List::from_vec(starts),
    })
}

/// The tables of a system.
fn tables<'a>(
    alloc: Global,
    system: &'a System,
    components: &[Component<'a>],
) -> Result<OriginTables<'a>, NoMemory>
    requires { outputs_named (map named_of components.now) ≡ outputs_of system.now }
    ensures { IfOk result (AreTables system.now) }
{
    let outputs = output_keys(alloc, components)?;
    let targets = target_keys(alloc, system.wires.as_slice())?;
    let places = table_of(alloc, &outputs)?;
    let targets = table_of(alloc, &targets)?;
    Ok(OriginTables {
        places,
        count: outputs.len(),
        targets,
    })
}

/// The routes of a system without event ports: its ports by numbers.
pub(crate) fn system_routes(alloc: Global, system: &System) -> Result<Routes, NoMemory>
    requires events { HasNoEvents system.now }
    requires decimals { AllByRecursion (λ unit. HaveDecimals unit.inputs) system.now.units }
    ensures { IfOk result (λ routes. routes ≡ composition_routes (composition_of system.now)) }
{
    let components = components(alloc, system)?;
    let tables = tables(alloc, system, &components)?;
    let members = members(alloc, system, &tables, &components)?;
    let routes = routes_of(alloc, &members)?;
    Ok(routes)
}
