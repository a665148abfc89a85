//! Tables of names: the first place of each name, and whether it occurs again.
ghost use Rattle.std.specs.Prelude.{◌≡◌, ◌||◌, ◌&&◌, ℕ, List, Some, None, OnOk, IfOk, map, bytes_eq, if◌then◌else◌, find, is_some, slice_get};
ghost use Rattle.std.specs.Option.{option_map, option_or};
ghost use Rattle.unit_names.specs.Found.{found_in, first_place};
ghost use Rattle.unit_tree.specs.Names.{is_among};
ghost use Rattle.nest_names.specs.Flattening.{instance_among};
ghost use Rattle.nest_names.specs.GroupPorts.{says_out_twice, stands_again};
ghost use Rattle.nest_names.specs.Tables.{FindsNames};

use fixed_words::NoMemory;
use nest_text::{Bind, Group};
use std::alloc::Global;
use std::collections::BTreeMap;
use std::marker::Model;
use unit_tree::Instance;

/// Places by name.
pub type Places<'n> = BTreeMap<&'n [u8], usize>;

/// The first place of each name, and for a name that occurs more than once its second place.
#[derive(Drop)]
pub struct Names<'n> {
    pub(crate) first: Places<'n>,
    pub(crate) again: Places<'n>,
}

/// The place of a name in a table.
pub fn noted(places: &Places<'_>, name: &[u8]) -> Option<usize>
    ensures { result ≡ found_in places.now name.now }
{
    places.get(name).copied()
}

/// Adds a name, if it is not there already.
pub fn note<'n>(places: &mut Places<'n>, name: &'n [u8], place: usize) -> Result<(), NoMemory>
    ensures { OnOk result ((q : List ℕ) →
        found_in places.new q ≡ option_or (found_in places.old q) (if bytes_eq q name.now then Some place else None)) }
{
    if places.get(name).is_none() {
        places.insert(name, place)?;
    }
    Ok(())
}

impl<'n> Names<'n> {
    /// Adds the next of the names.
    fn add(&mut self, name: &'n [u8], place: usize) -> Result<(), NoMemory>
        ensures first { OnOk result ((q : List ℕ) →
            found_in self.new.first q ≡ option_or (found_in self.old.first q) (if bytes_eq q name.now then Some place else None)) }
        ensures again { OnOk result ((q : List ℕ) →
            is_some (found_in self.new.again q)
            ≡ (is_some (found_in self.old.again q) || (bytes_eq q name.now && is_some (found_in self.old.first q)))) }
    {
        if noted(&self.first, name).is_some() {
            note(&mut self.again, name, place)?;
        }
        note(&mut self.first, name, place)
    }

    /// Makes the tables of names.
    fn of(alloc: Global, names: &[&'n [u8]]) -> Result<Names<'n>, NoMemory>
        ensures { IfOk result (FindsNames (map (λ name. name.now) names.now)) }
    {
        let mut tables = Names {
            first: BTreeMap::new(alloc),
            again: BTreeMap::new(alloc),
        };
        for (place, name) in names.iter().enumerate() {
            tables.add(name, place)?;
        }
        Ok(tables)
    }

    /// The first place of a name, from 0.
    fn first(&self, name: &[u8]) -> Option<usize>
        ensures { result ≡ found_in self.now.first name.now }
    {
        noted(&self.first, name)
    }

    /// Whether a name occurs more than once.
    fn is_again(&self, name: &[u8]) -> bool
        ensures { result ≡ is_some (found_in self.now.again name.now) }
    {
        noted(&self.again, name).is_some()
    }
}

/// The element at a place.
pub fn at<T>(items: &[T], place: usize) -> Option<&T>
    ensures { option_map (λ found. found.now) result ≡ slice_get items.now place }
{
    items.get(place)
}

/// Instances, found by their names. Contracts see the instances.
#[derive(Drop)]
pub struct InstanceNames<'n> {
    instances: &'n [Instance],
    names: Names<'n>,
}

impl<'n> Model for InstanceNames<'n> {
    ghost use Rattle.std.specs.Prelude.{List, map};
    ghost use Rattle.std.specs.Coded.{codes};
    ghost use Rattle.nest_names.specs.Tables.{FindsNames};
    ghost use Rattle.unit_tree.specs.declared.system.Instance.{Instance};

    ghost Value = { List Instance };

    ghost coded = { Prim.hlevel codes };

    ghost view = { λ named. named.instances.now };

    ghost invariant = { λ named. FindsNames (map (λ instance. instance.name) named.instances.now) named.names };
}

fn names_of_instances<'n>(
    alloc: Global,
    instances: &'n [Instance],
) -> Result<Vec<&'n [u8]>, NoMemory>
    ensures { IfOk result (λ names. map (λ name. name.now) names.items ≡ map (λ instance. instance.name) instances.now) }
{
    let mut names = Vec::with_capacity(alloc, instances.len())?;
    for instance in instances {
        names.push(instance.name.as_slice())?;
    }
    Ok(names)
}

impl<'n> InstanceNames<'n> {
    pub(crate) fn new(
        alloc: Global,
        instances: &'n [Instance],
    ) -> Result<InstanceNames<'n>, NoMemory>
        ensures { IfOk result (λ named. named ≡ instances.now) }
    {
        let names = names_of_instances(alloc, instances)?;
        let names = Names::of(alloc, names.as_slice())?;
        Ok(InstanceNames { instances, names })
    }

    /// The instances themselves.
    pub fn all(&self) -> &'n [Instance]
        ensures { result.now ≡ self.now }
    {
        self.instances
    }

    /// The first instance of a name.
    pub fn named(&self, name: &[u8]) -> Option<&'n Instance>
        ensures { option_map (λ found. found.now) result ≡ instance_among self.now name.now }
    {
        at(self.instances, self.names.first(name)?)
    }
}

/// The `in` lines or the `out` lines of a group, found by the port of the group. Contracts see the lines.
#[derive(Drop)]
pub struct BindNames<'n> {
    binds: &'n [Bind],
    names: Names<'n>,
}

impl<'n> Model for BindNames<'n> {
    ghost use Rattle.std.specs.Prelude.{List, map};
    ghost use Rattle.std.specs.Coded.{codes};
    ghost use Rattle.nest_names.specs.Tables.{FindsNames};
    ghost use Rattle.nest_text.specs.declared.nest.Bind.{Bind};

    ghost Value = { List Bind };

    ghost coded = { Prim.hlevel codes };

    ghost view = { λ named. named.binds.now };

    ghost invariant = { λ named. FindsNames (map (λ bind. bind.port) named.binds.now) named.names };
}

fn ports_of_binds<'n>(alloc: Global, binds: &'n [Bind]) -> Result<Vec<&'n [u8]>, NoMemory>
    ensures { IfOk result (λ names. map (λ name. name.now) names.items ≡ map (λ bind. bind.port) binds.now) }
{
    let mut names = Vec::with_capacity(alloc, binds.len())?;
    for bind in binds {
        names.push(bind.port.as_slice())?;
    }
    Ok(names)
}

impl<'n> BindNames<'n> {
    pub(crate) fn new(alloc: Global, binds: &'n [Bind]) -> Result<BindNames<'n>, NoMemory>
        ensures { IfOk result (λ named. named ≡ binds.now) }
    {
        let names = ports_of_binds(alloc, binds)?;
        let names = Names::of(alloc, names.as_slice())?;
        Ok(BindNames { binds, names })
    }

    /// The lines themselves.
    pub fn all(&self) -> &'n [Bind]
        ensures { result.now ≡ self.now }
    {
        self.binds
    }

    /// The first line with a port.
    pub fn named(&self, port: &[u8]) -> Option<&'n Bind>
        ensures { option_map (λ found. found.now) result ≡ find (λ bind. bytes_eq bind.port port.now) self.now }
    {
        at(self.binds, self.names.first(port)?)
    }

    /// Whether a line has the port.
    #[tactic(auto, using(crate::proofs::TableLaws::bind_is_there))]
    pub fn has(&self, port: &[u8]) -> bool
        ensures { result ≡ is_among (map (λ bind. bind.port) self.now) port.now }
    {
        self.names.first(port).is_some()
    }

    /// Whether two lines have the same port.
    pub fn says_twice(&self) -> bool
        ensures { result ≡ says_out_twice self.now }
    {
        self.binds
            .iter()
            .any(|bind| self.names.is_again(bind.port.as_slice()))
    }
}

/// Groups, found by their names. Contracts see the groups.
#[derive(Drop)]
pub struct GroupPlaces<'n> {
    groups: &'n [Group],
    names: Names<'n>,
}

impl<'n> Model for GroupPlaces<'n> {
    ghost use Rattle.std.specs.Prelude.{List, map};
    ghost use Rattle.std.specs.Coded.{codes};
    ghost use Rattle.nest_names.specs.Tables.{FindsNames};
    ghost use Rattle.nest_text.specs.declared.nest.Group.{Group};

    ghost Value = { List Group };

    ghost coded = { Prim.hlevel codes };

    ghost view = { λ named. named.groups.now };

    ghost invariant = { λ named. FindsNames (map (λ group. group.name) named.groups.now) named.names };
}

fn names_of_groups<'n>(alloc: Global, groups: &'n [Group]) -> Result<Vec<&'n [u8]>, NoMemory>
    ensures { IfOk result (λ names. map (λ name. name.now) names.items ≡ map (λ group. group.name) groups.now) }
{
    let mut names = Vec::with_capacity(alloc, groups.len())?;
    for group in groups {
        names.push(group.name.as_slice())?;
    }
    Ok(names)
}

impl<'n> GroupPlaces<'n> {
    pub(crate) fn new(alloc: Global, groups: &'n [Group]) -> Result<GroupPlaces<'n>, NoMemory>
        ensures { IfOk result (λ named. named ≡ groups.now) }
    {
        let names = names_of_groups(alloc, groups)?;
        let names = Names::of(alloc, names.as_slice())?;
        Ok(GroupPlaces { groups, names })
    }

    /// The place of the first group of a name, from 0.
    pub(crate) fn place(&self, name: &[u8]) -> Option<usize>
        ensures { result ≡ first_place (map (λ group. group.name) self.now) name.now }
    {
        self.names.first(name)
    }

    /// Whether several groups have the name.
    pub(crate) fn is_again(&self, name: &[u8]) -> bool
        ensures { result ≡ stands_again (map (λ group. group.name) self.now) name.now }
    {
        self.names.is_again(name)
    }
}
