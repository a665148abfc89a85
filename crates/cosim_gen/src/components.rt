//! Components, named by their places, and the connections between them.
ghost use Rattle.std.specs.Prelude.{◌≡◌, ◌≤◌, ◌%◌, ◌∷◌, map, codes, IfOk};
ghost use Rattle.cosim_gen.specs.Generated.{name_in, instance_with, port_in, wire_between, instance_in, wire_to, later_places};

use crate::units::{name, number, one};
use draw_numbers::{draw_start, next_draw};
use fixed_words::{List, NoMemory};
use itoa::Buffer;
use std::alloc::Global;
use unit_tree::{Instance, Name, PortName, Setting, Wire};

/// The components of a system, and their connections.
#[derive(Drop)]
pub(crate) struct Components {
    pub instances: List<Instance>,
    pub wires: List<Wire>,
}

/// `iJ`, at the place J.
fn name_in(alloc: Global, place: u64) -> Result<Name, NoMemory>
    ensures { IfOk result (λ name. name ≡ name_in place) }
{
    let mut digits = Buffer::new();
    let mut text = Vec::from_slice(alloc, b"i")?;
    text.extend_from_slice(digits.format(place).as_bytes())?;
    Ok(List::from_vec(text))
}

/// A component of a unit with its `k`, which is the draw modulo 1,000.
fn instance(alloc: Global, place: u64, unit: &[u8], drawn: u64) -> Result<Instance, NoMemory>
    ensures { IfOk result (λ instance. instance ≡ instance_with place unit.now (drawn % 1000)) }
{
    let setting = Setting {
        name: name(alloc, b"k")?,
        value: number((drawn % 1_000) as i64),
    };
    Ok(Instance {
        name: name_in(alloc, place)?,
        unit: name(alloc, unit)?,
        settings: one(alloc, setting)?,
    })
}

fn port(alloc: Global, place: u64, port: &[u8]) -> Result<PortName, NoMemory>
    ensures { IfOk result (λ whole. whole ≡ port_in place port.now) }
{
    Ok(PortName {
        instance: name_in(alloc, place)?,
        port: name(alloc, port)?,
    })
}

/// `connect iS.y -> iJ.u`
fn wire(alloc: Global, source: u64, place: u64) -> Result<Wire, NoMemory>
    ensures { IfOk result (λ wire. wire ≡ wire_between source place) }
{
    Ok(Wire {
        from: port(alloc, source, b"y")?,
        to: port(alloc, place, b"u")?,
    })
}

/// A source, and mixers after it, with their connections.
pub(crate) fn components_of(alloc: Global, seed: u64, count: u64) -> Result<Components, NoMemory>
    requires { 1 ≤ count }
    ensures instances { IfOk result (λ made. made.instances ≡ instance_in seed (codes "src") 0 ∷ map (instance_in seed (codes "mix")) (later_places count)) }
    ensures wires { IfOk result (λ made. made.wires ≡ map (wire_to seed) (later_places count)) }
{
    let mut drawn = next_draw(draw_start(seed));
    let mut instances = one(alloc, instance(alloc, 0, b"src", drawn)?)?;
    let mut wires = List::new(alloc);
    for place in 1..count {
        drawn = next_draw(drawn);
        instances.push(instance(alloc, place, b"mix", drawn)?)?;
        drawn = next_draw(drawn);
        wires.push(wire(alloc, drawn % place, place)?)?;
    }
    Ok(Components { instances, wires })
}
