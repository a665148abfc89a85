//! Tables of ports.
ghost use Rattle.std.specs.Prelude.{◌≡◌, IfOk, Some, None, cond, map};
ghost use Rattle.std.specs.Option.{option_or};
ghost use Rattle.indexmap.specs.IndexMap.{IsEmpty};
ghost use Rattle.unit_check.specs.PortTables.{found_port, FindsPorts};
ghost use Rattle.unit_tree.specs.Names.{same_port};
ghost use Rattle.unit_tree.specs.declared.system.PortName.{PortName};

use fixed_words::NoMemory;
use indexmap::IndexMap;
use std::alloc::{AllocError, Global};
use std::hash::{DefaultHasher, Hash, Hasher, RandomState};
use std::io;
use std::random::RandomSource;
use unit_tree::{PortName, Wire};

/// Places of ports, by the names of the instance and of the port.
pub(crate) type PortPlaces<'a> = IndexMap<(&'a [u8], &'a [u8]), usize, RandomState>;

/// A number from which the keys of a table's hash function are made. It is a hash of all ports of the table, so any
/// other port changes the keys. This makes it hard to choose ports whose hashes collide.
#[derive(Clone, Copy)]
struct Fingerprint(u64);

impl RandomSource for Fingerprint {
    fn fill_bytes(&self, buf: &mut [u8]) -> io::Result<()> {
        let bytes = self.0.to_le_bytes();
        for (place, byte) in buf.iter_mut().enumerate() {
            *byte = bytes[place % 8];
        }
        Ok(())
    }
}

/// Adds a port to the hash that gives this number.
fn add_port(hasher: &mut DefaultHasher, port: &PortName) {
    port.instance.as_slice().hash(hasher);
    port.port.as_slice().hash(hasher);
}

fn fingerprint_of_samples(samples: &[PortName]) -> Fingerprint {
    let mut hasher = DefaultHasher::new();
    for port in samples {
        add_port(&mut hasher, port);
    }
    Fingerprint(hasher.finish())
}

fn fingerprint_of_inputs(wires: &[Wire]) -> Fingerprint {
    let mut hasher = DefaultHasher::new();
    for wire in wires {
        add_port(&mut hasher, &wire.to);
    }
    Fingerprint(hasher.finish())
}

/// Returns an empty table, whose hash function has the keys of a number.
fn keyed_table<'a>(alloc: Global, fingerprint: Fingerprint) -> Result<PortPlaces<'a>, NoMemory>
    ensures { IfOk result IsEmpty }
{
    match RandomState::new(&fingerprint) {
        Ok(keys) => Ok(IndexMap::with_hasher(alloc, keys)),
        Err(_) => Err(AllocError),
    }
}

/// The first place of a port.
pub(crate) fn find_port(places: &PortPlaces<'_>, port: &PortName) -> Option<usize>
    ensures { result ≡ found_port places.now port.now }
{
    let key = (port.instance.as_slice(), port.port.as_slice());
    places.get(&key).copied()
}

/// Adds a port with its place, if it is not there already.
fn note_port<'a>(
    places: &mut PortPlaces<'a>,
    port: &'a PortName,
    place: usize,
) -> Result<(), NoMemory>
    ensures { IfOk result (λ _. (q : PortName) →
        found_port places.new q ≡ option_or (found_port places.old q) (cond (same_port q port.now) (Some place) None)) }
{
    if find_port(places, port).is_none() {
        places.insert((port.instance.as_slice(), port.port.as_slice()), place)?;
    }
    Ok(())
}

/// Adds the sampled ports to an empty table.
fn note_samples<'a>(
    empty: PortPlaces<'a>,
    samples: &'a [PortName],
) -> Result<PortPlaces<'a>, NoMemory>
    requires { IsEmpty empty }
    ensures { IfOk result (FindsPorts samples.now) }
{
    let mut places = empty;
    for (place, port) in samples.iter().enumerate() {
        note_port(&mut places, port, place)?;
    }
    Ok(places)
}

/// Adds the connected inputs to an empty table.
fn note_inputs<'a>(empty: PortPlaces<'a>, wires: &'a [Wire]) -> Result<PortPlaces<'a>, NoMemory>
    requires { IsEmpty empty }
    ensures { IfOk result (FindsPorts (map (λ wire. wire.to) wires.now)) }
{
    let mut places = empty;
    for (place, wire) in wires.iter().enumerate() {
        note_port(&mut places, &wire.to, place)?;
    }
    Ok(places)
}

/// The places of the sampled ports.
pub(crate) fn places_of_samples<'a>(
    alloc: Global,
    samples: &'a [PortName],
) -> Result<PortPlaces<'a>, NoMemory>
    ensures { IfOk result (FindsPorts samples.now) }
{
    note_samples(
        keyed_table(alloc, fingerprint_of_samples(samples))?,
        samples,
    )
}

/// The places of the connected inputs.
pub(crate) fn places_of_connections<'a>(
    alloc: Global,
    wires: &'a [Wire],
) -> Result<PortPlaces<'a>, NoMemory>
    ensures { IfOk result (FindsPorts (map (λ wire. wire.to) wires.now)) }
{
    note_inputs(keyed_table(alloc, fingerprint_of_inputs(wires))?, wires)
}
