//! A nest with tables of its names.
ghost use Rattle.std.specs.Prelude.{◌≡◌, IfOk, Some, bytes_eq, find, map, slice_get};
ghost use Rattle.std.specs.List.{filter};
ghost use Rattle.std.specs.Option.{option_copied, option_map};
ghost use Rattle.nest_names.specs.Tables.{ListsNamed, items_at};
ghost use Rattle.unit_tree.specs.Names.{is_among};
ghost use Rattle.nest_names.specs.Flattening.{binds_of, group_place, instance_among, instances_of, of_group, place_at, wires_of};
ghost use Rattle.nest_names.specs.GroupPorts.{has_input, has_output, stands_again};
ghost use Rattle.nest_text.specs.declared.nest.Group.{Group as Groups};

use crate::lists::PlacesByName;
use crate::tables::{BindNames, GroupPlaces, InstanceNames};
use fixed_words::NoMemory;
use nest_text::{Bind, Group, Nest};
use std::alloc::Global;
use std::marker::Model;
use unit_names::SystemNames;
use unit_tree::{Instance, Wire};

/// A group with tables of its names. Contracts see it as the group.
#[derive(Drop)]
pub struct GroupNames<'n> {
    group: &'n Group,
    instances: InstanceNames<'n>,
    ins: BindNames<'n>,
    outs: BindNames<'n>,
    /// The places of the `in` lines by their ports.
    lines: PlacesByName<'n>,
}

impl<'n> Model for GroupNames<'n> {
    ghost use Rattle.std.specs.Prelude.{◌≡◌};
    ghost use Rattle.std.specs.Coded.{codes};
    ghost use Rattle.nest_text.specs.declared.nest.Group.{Group};
    ghost use Rattle.nest_names.specs.Tables.{ListsNamed};

    ghost Value = { Group };

    ghost coded = { Prim.hlevel codes };

    ghost view = { λ named. named.group.now };

    ghost invariant = { λ named.
        (named.instances ≡ named.group.now.instances) × (named.ins ≡ named.group.now.ins) × (named.outs ≡ named.group.now.outs)
        × ListsNamed (λ bind. bind.port) named.group.now.ins named.lines };
}

fn lines_by_port<'n>(alloc: Global, binds: &'n [Bind]) -> Result<PlacesByName<'n>, NoMemory>
    ensures { IfOk result (ListsNamed (λ bind. bind.port) binds.now) }
{
    let mut lines = PlacesByName::new(alloc);
    for (place, bind) in binds.iter().enumerate() {
        lines.add(alloc, bind.port.as_slice(), place)?;
    }
    Ok(lines)
}

impl<'n> GroupNames<'n> {
    fn new(alloc: Global, group: &'n Group) -> Result<GroupNames<'n>, NoMemory>
        ensures { IfOk result (λ named. named ≡ group.now) }
    {
        let instances = InstanceNames::new(alloc, group.instances.as_slice())?;
        let ins = BindNames::new(alloc, group.ins.as_slice())?;
        let outs = BindNames::new(alloc, group.outs.as_slice())?;
        let lines = lines_by_port(alloc, group.ins.as_slice())?;
        Ok(GroupNames {
            group,
            instances,
            ins,
            outs,
            lines,
        })
    }

    /// The group itself.
    pub fn group(&self) -> &'n Group
        ensures { result.now ≡ self.now }
    {
        self.group
    }

    pub fn instances(&self) -> &InstanceNames<'n>
        ensures { result.now ≡ self.now.instances }
    {
        &self.instances
    }

    pub fn ins(&self) -> &BindNames<'n>
        ensures { result.now ≡ self.now.ins }
    {
        &self.ins
    }

    /// The places of the `in` lines with a port.
    fn ins_named(&self, port: &[u8]) -> &[usize]
        ensures { items_at self.now.ins result.now ≡ filter (λ bind. bytes_eq bind.port port.now) self.now.ins }
    {
        self.lines.named(port)
    }

    pub fn outs(&self) -> &BindNames<'n>
        ensures { result.now ≡ self.now.outs }
    {
        &self.outs
    }
}

/// A nest, with tables of its groups and of the names of `main`. Contracts see it as the nest.
#[derive(Drop)]
pub struct NestNames<'n> {
    nest: &'n Nest,
    places: GroupPlaces<'n>,
    groups: Vec<GroupNames<'n>>,
    instances: InstanceNames<'n>,
    main: SystemNames<'n>,
}

impl<'n> Model for NestNames<'n> {
    ghost use Rattle.std.specs.Prelude.{◌≡◌};
    ghost use Rattle.std.specs.Coded.{codes};
    ghost use Rattle.unit_tree.specs.contracts.expr.Expr as expr;
    ghost use Rattle.unit_tree.specs.contracts.line.Line as line;
    ghost use Rattle.nest_text.specs.declared.nest.Nest.{Nest};

    ghost Value = { Nest };

    ghost coded = { Prim.hlevel (codes, expr.the_row.coded, line.the_row.coded) };

    ghost view = { λ names. names.nest.now };

    ghost invariant = { λ names.
        (names.places ≡ names.nest.now.groups) × (names.groups.items ≡ names.nest.now.groups)
        × (names.instances ≡ names.nest.now.main.instances) × (names.main ≡ names.nest.now.main) };
}

fn names_of_groups<'n>(alloc: Global, groups: &'n [Group]) -> Result<Vec<GroupNames<'n>>, NoMemory>
    ensures { IfOk result (λ all. all.items ≡ groups.now) }
{
    let mut all = Vec::new(alloc);
    for group in groups {
        all.push(GroupNames::new(alloc, group)?)?;
    }
    Ok(all)
}

impl<'n> NestNames<'n> {
    /// Makes the tables of a nest. The only error is that there is no memory.
    pub fn new(alloc: Global, nest: &'n Nest) -> Result<NestNames<'n>, NoMemory>
        ensures { IfOk result (λ names. names ≡ nest.now) }
    {
        let places = GroupPlaces::new(alloc, nest.groups.as_slice())?;
        let instances = InstanceNames::new(alloc, nest.main.instances.as_slice())?;
        let groups = names_of_groups(alloc, nest.groups.as_slice())?;
        let main = SystemNames::new(alloc, &nest.main)?;
        Ok(NestNames {
            nest,
            places,
            groups,
            instances,
            main,
        })
    }

    /// The nest itself.
    pub fn nest(&self) -> &'n Nest
        ensures { result.now ≡ self.now }
    {
        self.nest
    }

    /// The place of the first group of the name, from 0.
    pub fn group_place(&self, name: &[u8]) -> Option<usize>
        ensures { result ≡ group_place self.now name.now }
    {
        self.places.place(name)
    }

    /// Whether several groups have the name.
    pub fn is_again(&self, name: &[u8]) -> bool
        ensures { result ≡ stands_again (map (λ group. group.name) self.now.groups) name.now }
    {
        self.places.is_again(name)
    }

    /// Whether `main` has a unit of the name.
    #[tactic(auto, using(crate::proofs::TableLaws::unit_is_there))]
    pub fn is_unit(&self, name: &[u8]) -> bool
        ensures { result ≡ is_among (map (λ unit. unit.name) self.now.main.units) name.now }
    {
        self.main.first_unit(name).is_some()
    }

    /// All groups.
    pub fn groups(&self) -> &[GroupNames<'n>]
        ensures { result.now ≡ self.now.groups }
    {
        self.groups.as_slice()
    }

    /// The group at a place.
    fn group(&self, place: usize) -> Option<&GroupNames<'n>>
        ensures { option_copied result ≡ slice_get self.now.groups place }
    {
        self.groups.get(place)
    }

    /// The instances of `main`, by name.
    pub fn main_instances(&self) -> &InstanceNames<'n>
        ensures { result.now ≡ self.now.main.instances }
    {
        &self.instances
    }

    /// The instances of `main`, or of the group at a place.
    pub fn instances(&self, group: Option<usize>) -> &'n [Instance]
        ensures { result.now ≡ instances_of self.now group }
    {
        match group {
            None => self.nest.main.instances.as_slice(),
            Some(place) => match self.group(place) {
                Some(group) => group.group().instances.as_slice(),
                None => &[],
            },
        }
    }

    /// The connections of `main`, or of the group at a place.
    pub fn wires(&self, group: Option<usize>) -> &'n [Wire]
        ensures { result.now ≡ wires_of self.now group }
    {
        match group {
            None => self.nest.main.wires.as_slice(),
            Some(place) => match self.group(place) {
                Some(group) => group.group().wires.as_slice(),
                None => &[],
            },
        }
    }

    /// The `in` lines of the group at a place.
    pub fn ins(&self, place: usize) -> &'n [Bind]
        ensures { result.now ≡ binds_of self.now (λ (group : Groups). group.ins) (Some place) }
    {
        match self.group(place) {
            Some(group) => group.ins().all(),
            None => &[],
        }
    }

    /// The places of the `in` lines with a port, of the group at a place.
    pub fn ins_named(&self, place: usize, port: &[u8]) -> &[usize]
        ensures { items_at (binds_of self.now (λ (group : Groups). group.ins) (Some place)) result.now
            ≡ filter (λ bind. bytes_eq bind.port port.now) (binds_of self.now (λ (group : Groups). group.ins) (Some place)) }
    {
        match self.group(place) {
            Some(group) => group.ins_named(port),
            None => &[],
        }
    }

    /// The first `out` line with a port, of the group at a place.
    pub fn out_named(&self, place: usize, port: &[u8]) -> Option<&'n Bind>
        ensures { option_map (λ found. found.now) result
            ≡ find (λ bind. bytes_eq bind.port port.now) (binds_of self.now (λ (group : Groups). group.outs) (Some place)) }
    {
        match self.group(place) {
            Some(group) => group.outs().named(port),
            None => None,
        }
    }

    /// The first instance of a name, of `main` or of the group at a place.
    fn instance_at(&self, group: Option<usize>, name: &[u8]) -> Option<&'n Instance>
        ensures { option_map (λ found. found.now) result ≡ instance_among (instances_of self.now group) name.now }
    {
        match group {
            None => self.instances.named(name),
            Some(place) => match self.group(place) {
                Some(group) => group.instances().named(name),
                None => None,
            },
        }
    }

    /// The place of the group of the instance with a name; none where its unit is not a group.
    pub fn place_at(&self, group: Option<usize>, name: &[u8]) -> Option<usize>
        ensures { result ≡ place_at self.now group name.now }
    {
        let instance = self.instance_at(group, name)?;
        self.group_place(instance.unit.as_slice())
    }

    /// Whether the group at a place has the input.
    fn has_in(&self, place: usize, port: &[u8]) -> bool
        ensures { result ≡ is_among (map (λ bind. bind.port) (of_group self.now (λ (group : Groups). group.ins) place)) port.now }
    {
        match self.group(place) {
            Some(group) => group.ins().has(port),
            None => false,
        }
    }

    /// Whether the group at a place has the output.
    fn has_out(&self, place: usize, port: &[u8]) -> bool
        ensures { result ≡ is_among (map (λ bind. bind.port) (of_group self.now (λ (group : Groups). group.outs) place)) port.now }
    {
        match self.group(place) {
            Some(group) => group.outs().has(port),
            None => false,
        }
    }

    /// Whether a unit or group of the name has an input of this name.
    pub fn has_input(&self, unit: &[u8], port: &[u8]) -> bool
        ensures { result ≡ has_input self.now unit.now port.now }
    {
        match self.group_place(unit) {
            Some(place) => self.has_in(place, port),
            None => match self.main.unit_named(unit) {
                Some(found) => found.is_input(port),
                None => false,
            },
        }
    }

    /// Whether a unit or group of the name has an output of this name.
    pub fn has_output(&self, unit: &[u8], port: &[u8]) -> bool
        ensures { result ≡ has_output self.now unit.now port.now }
    {
        match self.group_place(unit) {
            Some(place) => self.has_out(place, port),
            None => match self.main.unit_named(unit) {
                Some(found) => found.is_output(port),
                None => false,
            },
        }
    }
}
