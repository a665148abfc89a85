//! A system with tables of its names.
ghost use Rattle.std.specs.Prelude.{◌≡◌, IfOk, map, slice_get};
ghost use Rattle.std.specs.Option.{option_copied};
ghost use Rattle.unit_tree.specs.Names.{unit_named, instance_named, unit_of_instance, unit_at};
ghost use Rattle.unit_names.specs.Found.{first_place, FindsPlaces};
ghost use Rattle.unit_names.specs.Systems.{unit_names, instance_names, input_found, output_found};

use crate::tables::{Declared, Places, find, note};
use crate::units::UnitNames;
use fixed_words::NoMemory;
use std::alloc::Global;
use std::collections::BTreeMap;
use std::marker::Model;
use unit_tree::{Instance, PortName, System, Unit};

/// A system, with tables of its units and instances, and of all that each unit declares. Contracts see it as the
/// system.
#[derive(Drop)]
pub struct SystemNames<'a> {
    system: &'a System,
    units: Vec<UnitNames<'a>>,
    unit_places: Places<'a>,
    instance_places: Places<'a>,
}

impl<'a> Model for SystemNames<'a> {
    ghost use Rattle.std.specs.Prelude.{◌≡◌};
    ghost use Rattle.std.specs.Coded.{codes};
    ghost use Rattle.unit_tree.specs.contracts.expr.Expr as expr;
    ghost use Rattle.unit_tree.specs.contracts.line.Line as line;
    ghost use Rattle.unit_tree.specs.declared.system.System.{System};
    ghost use Rattle.unit_names.specs.Found.{FindsPlaces};
    ghost use Rattle.unit_names.specs.Systems.{unit_names, instance_names};

    ghost Value = { System };

    ghost coded = { Prim.hlevel (codes, expr.the_row.coded, line.the_row.coded) };

    ghost view = { λ names. names.system.now };

    ghost invariant = { λ names.
        (names.units.items ≡ names.system.now.units)
        × FindsPlaces (unit_names names.system.now) names.unit_places
        × FindsPlaces (instance_names names.system.now) names.instance_places };
}

fn units_of<'a>(alloc: Global, units: &'a [Unit]) -> Result<Vec<UnitNames<'a>>, NoMemory>
    ensures { IfOk result (λ all. all.items ≡ units.now) }
{
    let mut all = Vec::new(alloc);
    for unit in units {
        all.push(UnitNames::new(alloc, unit)?)?;
    }
    Ok(all)
}

fn places_of_units<'a>(alloc: Global, units: &'a [Unit]) -> Result<Places<'a>, NoMemory>
    ensures { IfOk result (FindsPlaces (map (λ unit. unit.name) units.now)) }
{
    let mut places = BTreeMap::new(alloc);
    for (place, unit) in units.iter().enumerate() {
        note(&mut places, unit.name.as_slice(), place)?;
    }
    Ok(places)
}

fn places_of_instances<'a>(alloc: Global, instances: &'a [Instance]) -> Result<Places<'a>, NoMemory>
    ensures { IfOk result (FindsPlaces (map (λ instance. instance.name) instances.now)) }
{
    let mut places = BTreeMap::new(alloc);
    for (place, instance) in instances.iter().enumerate() {
        note(&mut places, instance.name.as_slice(), place)?;
    }
    Ok(places)
}

impl<'a> SystemNames<'a> {
    /// Makes the tables of a system. The only error is that there is no memory.
    pub fn new(alloc: Global, system: &'a System) -> Result<SystemNames<'a>, NoMemory>
        ensures { IfOk result (λ names. names ≡ system.now) }
    {
        let units = units_of(alloc, system.units.as_slice())?;
        let unit_places = places_of_units(alloc, system.units.as_slice())?;
        let instance_places = places_of_instances(alloc, system.instances.as_slice())?;
        Ok(SystemNames {
            system,
            units,
            unit_places,
            instance_places,
        })
    }

    /// The system itself.
    pub fn system(&self) -> &'a System
        ensures { result.now ≡ self.now }
    {
        self.system
    }

    /// The number of the first unit of a name, from 0.
    pub fn first_unit(&self, name: &[u8]) -> Option<usize>
        ensures { result ≡ first_place (unit_names self.now) name.now }
    {
        find(&self.unit_places, name)
    }

    /// The number of the first instance of a name, from 0.
    pub fn first_instance(&self, name: &[u8]) -> Option<usize>
        ensures { result ≡ first_place (instance_names self.now) name.now }
    {
        find(&self.instance_places, name)
    }

    /// The unit with a number, from 0.
    pub fn unit(&self, number: usize) -> Option<&UnitNames<'a>>
        ensures { option_copied result ≡ slice_get self.now.units number }
    {
        self.units.get(number)
    }

    /// The first unit of a name.
    #[tactic(auto, using(crate::proofs::FirstPlaces::unit_at_place))]
    pub fn unit_named(&self, name: &[u8]) -> Option<&UnitNames<'a>>
        ensures { option_copied result ≡ unit_named self.now.units name.now }
    {
        self.unit(self.first_unit(name)?)
    }

    /// The first instance of a name.
    #[tactic(auto, using(crate::proofs::FirstPlaces::instance_at_place))]
    pub fn instance_named(&self, name: &[u8]) -> Option<&'a Instance>
        ensures { option_copied result ≡ instance_named self.now name.now }
    {
        self.system.instances.get(self.first_instance(name)?)
    }

    /// The unit of an instance.
    pub fn unit_of(&self, instance: &Instance) -> Option<&UnitNames<'a>>
        ensures { option_copied result ≡ unit_of_instance self.now instance.now }
    {
        self.unit_named(instance.unit.as_slice())
    }

    /// The unit of the instance that a port names.
    pub fn unit_at(&self, port: &PortName) -> Option<&UnitNames<'a>>
        ensures { option_copied result ≡ unit_at self.now port.now }
    {
        self.unit_of(self.instance_named(port.instance.as_slice())?)
    }

    /// The input that a port names, with its place among those of its unit.
    pub fn input_at(&self, port: &PortName) -> Option<Declared>
        ensures { result ≡ input_found self.now port.now }
    {
        self.unit_at(port)?.input(port.port.as_slice())
    }

    /// The output that a port names, with its place among those of its unit.
    pub fn output_at(&self, port: &PortName) -> Option<Declared>
        ensures { result ≡ output_found self.now port.now }
    {
        self.unit_at(port)?.output(port.port.as_slice())
    }
}
