//! The samples of `main`, as ports of components. Each port is followed once, however often it is sampled.
ghost use Rattle.std.specs.Prelude.{◌≡◌, ◌++◌, List, Some, IfOk, map};
ghost use Rattle.std.specs.Option.{option_map};
ghost use Rattle.nest_names.specs.Flattening.{flat_sample};
ghost use Rattle.unit_tree.specs.declared.system.PortName.{PortName as Ports};

use fixed_words::{List, NoMemory};
use nest_names::{LEVELS, NestNames, at, copied_port, flat_port, follow, same_port, top};
use std::alloc::Global;
use std::collections::BTreeMap;
use unit_tree::PortName;

/// The places of samples by their ports. No proof depends on it: each caller tests the place that it
/// gives.
type PlacesByPort<'n> = BTreeMap<(&'n [u8], &'n [u8]), usize>;

fn parts_of(port: &PortName) -> (&[u8], &[u8]) {
    (port.instance.as_slice(), port.port.as_slice())
}

/// The port that the sample at a place became, if that sample is the same as this one.
fn made_at<'m>(
    samples: &[PortName],
    made: &'m [PortName],
    place: usize,
    sample: &PortName,
) -> Option<&'m PortName>
    ensures { (f : Ports → Ports) (rest : List Ports) (one : Ports) → made.now ++ rest ≡ map f samples.now
        → option_map (λ found. found.now) result ≡ Some one → one ≡ f sample.now }
{
    let before = at(samples, place)?;
    let one = at(made, place)?;
    if same_port(before, sample) {
        Some(one)
    } else {
        None
    }
}

/// A sample of `main`, as a port of a component.
fn flat_sample(
    alloc: Global,
    names: &NestNames<'_>,
    sample: &PortName,
) -> Result<PortName, NoMemory>
    ensures { IfOk result (λ made. made ≡ flat_sample names.now sample.now) }
{
    let spot = follow(alloc, names, LEVELS, top(alloc), sample)?;
    flat_port(alloc, &spot)
}

/// A sample of `main`, as a port of a component. If the same sample came before, this is a copy of what it
/// became.
fn next_sample<'n>(
    alloc: Global,
    names: &NestNames<'_>,
    samples: &'n [PortName],
    made: &[PortName],
    places: &mut PlacesByPort<'n>,
    sample: &'n PortName,
) -> Result<PortName, NoMemory>
    requires { (rest : List Ports) × (made.now ++ rest ≡ map (flat_sample names.now) samples.now) }
    ensures { IfOk result (λ one. one ≡ flat_sample names.now sample.now) }
{
    let place = places.get(&parts_of(sample)).copied();
    if let Some(place) = place {
        if let Some(one) = made_at(samples, made, place, sample) {
            return copied_port(alloc, one);
        }
    }
    drop(places.insert(parts_of(sample), made.len())?);
    flat_sample(alloc, names, sample)
}

/// The samples of `main`, as ports of components.
pub(crate) fn flat_samples(
    alloc: Global,
    names: &NestNames<'_>,
    samples: &[PortName],
) -> Result<List<PortName>, NoMemory>
    ensures { IfOk result (λ made. made ≡ map (flat_sample names.now) samples.now) }
{
    let mut places = BTreeMap::new(alloc);
    let mut made = List::new(alloc);
    for sample in samples {
        let one = next_sample(alloc, names, samples, made.as_slice(), &mut places, sample)?;
        made.push(one)?;
    }
    Ok(made)
}
