ghost use Rattle.std.specs.Prelude.{◌≡◌, IfOk, map, slice_get};
ghost use Rattle.std.specs.List.{AllByRecursion};
ghost use Rattle.std.specs.Option.{option_map};
ghost use Rattle.fixed_words.specs.Types.{AreDecimals};
ghost use Rattle.indexmap.specs.IndexMap.{get_by};
ghost use Rattle.unit_tree.specs.Components.{start_word};
ghost use Rattle.unit_tree.specs.Compositions.{place_of, source_from};
ghost use Rattle.unit_tree.specs.Names.{same_port};
ghost use Rattle.unit_tree.specs.Orders.{sources_of};
ghost use Rattle.wire_graph.specs.Wiring.{port_with, port_named, named_of};
ghost use Rattle.wire_graph.specs.Origins.{FindsPortPlaces, AreTables, HaveDecimals, source_behind, origin_of, wired_input, input_of, member_behind, member_of};

use crate::components::{Component, PortKey};
use crate::numbering::numbered;
use fixed_words::{Literal, NoMemory, Ty, literal_word};
use indexmap::IndexMap;
use std::alloc::{AllocError, Global};
use unit_tree::{Input, System, Unit, Wire};

/// The source of the word of an input: its start word, or the output at a place.
#[derive(Clone, Copy)]
pub(crate) enum Origin {
    Start(i64),
    AtPlace(u32),
}

/// An input with the origin of its word.
#[derive(Clone, Copy)]
pub(crate) struct WiredInput<'a> {
    pub(crate) input: &'a Input,
    pub(crate) origin: Origin,
}

/// A component by its unit and its inputs.
#[derive(Drop)]
pub(crate) struct Member<'a> {
    pub(crate) unit: &'a Unit,
    pub(crate) inputs: Vec<WiredInput<'a>>,
}

/// The places of outputs by their names, how many there are, and which connection ends at an input.
#[derive(Drop)]
pub(crate) struct OriginTables<'a> {
    pub(crate) places: IndexMap<PortKey<'a>, usize>,
    pub(crate) count: usize,
    pub(crate) targets: IndexMap<PortKey<'a>, usize>,
}

/// A number of ports or instances as 32 bits, which hold it as long as there is memory. Else
/// `NoMemory`.
pub(crate) fn number(count: usize) -> Result<u32, NoMemory>
    ensures { IfOk result (λ number. number ≡ count) }
{
    match u32::try_from(count) {
        Ok(number) => Ok(number),
        Err(_) => Err(AllocError),
    }
}

/// The first place of each port.
pub(crate) fn table_of<'a>(
    alloc: Global,
    ports: &[PortKey<'a>],
) -> Result<IndexMap<PortKey<'a>, usize>, NoMemory>
    ensures { IfOk result (FindsPortPlaces (map port_with ports.now)) }
{
    let table = numbered(alloc, ports)?;
    Ok(table)
}

/// The place that a table has for a port.
fn found<'a>(table: &IndexMap<PortKey<'a>, usize>, port: PortKey<'a>) -> Option<usize>
    ensures { result ≡ get_by (λ key. same_port (port_with port.entry) (port_with key)) table.now }
{
    table.get(&port).copied()
}

/// The start word of an input.
fn start_of(ty: Ty, start: Literal) -> i64
    requires { AreDecimals ty }
    ensures { result ≡ start_word ty start }
{
    match literal_word(ty, start) {
        Ok(word) => word,
        Err(_) => 0,
    }
}

/// The place of an output.
fn place<'a>(system: &System, tables: &OriginTables<'a>, port: PortKey<'a>) -> usize
    requires { AreTables system.now tables.now }
    ensures { result ≡ place_of system.now (port_with port.entry) }
{
    let _ = system;
    match found(&tables.places, port) {
        Some(place) => place,
        None => tables.count,
    }
}

/// The first connection that ends at an input.
fn wire_to<'a>(system: &'a System, tables: &OriginTables<'a>, port: PortKey<'a>) -> Option<&'a Wire>
    requires { AreTables system.now tables.now }
    ensures { option_map source_behind result ≡ slice_get (sources_of system.now (port_with port.entry)) 0 }
{
    match found(&tables.targets, port) {
        Some(at) => system.wires.get(at),
        None => None,
    }
}

/// The source of the word of a component's input.
fn input_origin<'a>(
    system: &'a System,
    tables: &OriginTables<'a>,
    name: &'a [u8],
    input: &'a Input,
) -> Result<Origin, NoMemory>
    requires tables { AreTables system.now tables.now }
    requires decimals { AreDecimals input.now.ty }
    ensures { IfOk result (λ origin. origin_of origin ≡ source_from system.now input.now (sources_of system.now (port_named name.now input.now.name))) }
{
    match wire_to(system, tables, (name, input.name.as_slice())) {
        None => Ok(Origin::Start(start_of(input.ty, input.start))),
        Some(wire) => {
            let from = (wire.from.instance.as_slice(), wire.from.port.as_slice());
            Ok(Origin::AtPlace(number(place(system, tables, from))?))
        }
    }
}

/// A component's inputs with the origins of their words.
fn wired_inputs<'a>(
    alloc: Global,
    system: &'a System,
    tables: &OriginTables<'a>,
    component: Component<'a>,
) -> Result<Vec<WiredInput<'a>>, NoMemory>
    requires tables { AreTables system.now tables.now }
    requires decimals { HaveDecimals component.unit.now.inputs }
    ensures { IfOk result (λ inputs. map wired_input inputs.items ≡ map (input_of system.now component.entry.name.now) component.entry.unit.now.inputs) }
{
    let mut inputs = Vec::with_capacity(alloc, component.unit.inputs.len())?;
    for input in component.unit.inputs.as_slice() {
        let origin = input_origin(system, tables, component.name, input)?;
        inputs.push(WiredInput { input, origin })?;
    }
    Ok(inputs)
}

/// The components with their inputs.
pub(crate) fn members<'a>(
    alloc: Global,
    system: &'a System,
    tables: &OriginTables<'a>,
    components: &[Component<'a>],
) -> Result<Vec<Member<'a>>, NoMemory>
    requires tables { AreTables system.now tables.now }
    requires decimals { AllByRecursion (λ component. HaveDecimals component.unit.now.inputs) components.now }
    ensures { IfOk result (λ members. map member_behind members.items ≡ map (member_of system.now) (map named_of components.now)) }
{
    let mut members = Vec::with_capacity(alloc, components.len())?;
    for component in components {
        let inputs = wired_inputs(alloc, system, tables, *component)?;
        members.push(Member {
            unit: component.unit,
            inputs,
        })?;
    }
    Ok(members)
}
