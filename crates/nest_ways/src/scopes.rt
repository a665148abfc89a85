//! All scopes of a nest, and their places.
//!
//! Scopes of one group have the same scopes inside them. So a scope inside is given by its offset: how many places
//! later it is. This is tested once for each instance. Two scopes may be equal, since the names of instances around
//! them may join to the same prefix.
ghost use Rattle.std.specs.Prelude.{◌≡◌, ◌++◌, ◌+◌, ℕ, List, Some, IfOk, IsTrue, map, slice_get};
ghost use Rattle.std.specs.Option.{option_map};
ghost use Rattle.nest_names.specs.Flattening.{inside};
ghost use Rattle.nest_names.specs.declared.scope.GroupScope.{GroupScope as Scopes};
ghost use Rattle.nest_ways.specs.Reaching.{AreAlike, AreAllAlike, AreAllInside, AreInside, IsAlike, LeadsTo};

use crate::guide::Guide;
use fixed_words::{List, NoMemory};
use nest_names::{GroupScope, NestNames, at, same_group, same_scope};
use std::alloc::Global;
use std::marker::Model;
use unit_tree::{Instance, Name};

/// All scopes of a nest, an instance before those inside it. Contracts see the list.
#[derive(Drop)]
pub struct AllScopes<'n> {
    scopes: List<GroupScope>,
    /// For each group and each offset, the offset of the first scope that is equal.
    firsts: Vec<Vec<u32>>,
    /// For each group, the offsets of the scopes inside its instances.
    inner: Vec<Vec<Inner<'n>>>,
}

/// The offset of the scope inside an instance of a group.
#[derive(Clone, Copy)]
pub struct Inner<'n> {
    name: &'n Name,
    /// The place of the instance's own group.
    place: usize,
    /// How many places after each scope of the group.
    offset: u32,
}

impl<'n> Model for AllScopes<'n> {
    ghost use Rattle.std.specs.Prelude.{List, map};
    ghost use Rattle.std.specs.Coded.{codes};
    ghost use Rattle.nest_names.specs.declared.scope.GroupScope.{GroupScope};
    ghost use Rattle.nest_ways.specs.Reaching.{AreAllAlike, AreAllInside};

    ghost Value = { List GroupScope };

    ghost coded = { Prim.hlevel codes };

    ghost view = { λ all. all.scopes };

    ghost invariant = { λ all. AreAllAlike all.scopes (map (λ one. one.items) all.firsts.items)
        × AreAllInside all.scopes (map (λ one. one.items) all.inner.items) };
}

/// Whether the scopes at two offsets after a scope are equal.
fn are_same_from(scopes: &[GroupScope], base: usize, offset: usize, first: usize) -> bool
    ensures { IsTrue result → slice_get scopes.now (base + offset) ≡ slice_get scopes.now (base + first) }
{
    let Some(one) = base.checked_add(offset) else {
        return false;
    };
    let Some(other) = base.checked_add(first) else {
        return false;
    };
    match (at(scopes, one), at(scopes, other)) {
        (Some(one), Some(other)) => same_scope(one, other),
        _ => false,
    }
}

/// Whether the scopes at two offsets are equal after each scope of the group.
fn are_alike(scopes: &[GroupScope], group: usize, offset: usize, first: usize) -> bool
    ensures { IsTrue result → IsAlike scopes.now group offset first }
{
    for (base, scope) in scopes.iter().enumerate() {
        if !same_group(scope.group, Some(group)) {
            continue;
        }
        if !are_same_from(scopes, base, offset, first) {
            return false;
        }
    }
    true
}

/// The offset of the first scope that is equal to the one at an offset.
fn first_alike(scopes: &[GroupScope], guide: &Guide<'_>, group: usize, offset: u32) -> u32
    ensures { IsAlike scopes.now group offset result }
{
    let place = offset as usize;
    let Ok(first) = u32::try_from(guide.first_twin(group, place)) else {
        return offset;
    };
    if first != offset && are_alike(scopes, group, place, first as usize) {
        first
    } else {
        offset
    }
}

/// For each offset in a scope of a group, the offset of the first scope that is equal.
fn firsts_in(
    alloc: Global,
    scopes: &[GroupScope],
    guide: &Guide<'_>,
    group: usize,
) -> Result<Vec<u32>, NoMemory>
    ensures { IfOk result (λ made. AreAlike scopes.now group made.items) }
{
    let size = u32::try_from(guide.size(group)).unwrap_or(0);
    let mut firsts = Vec::new(alloc);
    for offset in 0..size {
        firsts.push(first_alike(scopes, guide, group, offset))?;
    }
    Ok(firsts)
}

/// For each group and each offset, the offset of the first scope that is equal.
fn firsts_of_groups(
    alloc: Global,
    scopes: &[GroupScope],
    guide: &Guide<'_>,
    groups: usize,
) -> Result<Vec<Vec<u32>>, NoMemory>
    ensures { IfOk result (λ made. AreAllAlike scopes.now (map (λ one. one.items) made.items)) }
{
    let mut lists = Vec::new(alloc);
    for group in 0..groups {
        let firsts = firsts_in(alloc, scopes, guide, group)?;
        lists.push(firsts)?;
    }
    Ok(lists)
}

/// The bytes after a prefix; none where it is not a prefix.
fn behind<'b>(whole: &'b [u8], front: &[u8]) -> Option<&'b [u8]>
    ensures { (rest : List ℕ) → option_map (λ found. found.now) result ≡ Some rest → whole.now ≡ front.now ++ rest }
{
    whole.strip_prefix(front)
}

/// Whether a scope is the one inside an instance of another.
fn is_inside(inner: &GroupScope, scope: &GroupScope, name: &Name, place: usize) -> bool
    ensures { IsTrue result → inner.now ≡ inside scope.now name.now place }
{
    let Some(rest) = behind(inner.prefix.as_slice(), scope.prefix.as_slice()) else {
        return false;
    };
    let Some(last) = behind(rest, name.as_slice()) else {
        return false;
    };
    match last {
        [b'_'] => same_group(inner.group, Some(place)),
        _ => false,
    }
}

/// Whether the scope inside an instance is at an offset after a scope.
fn leads_from(
    scopes: &[GroupScope],
    base: usize,
    offset: usize,
    scope: &GroupScope,
    name: &Name,
    place: usize,
) -> bool
    ensures { IsTrue result → slice_get scopes.now (base + offset) ≡ Some (inside scope.now name.now place) }
{
    let Some(onward) = base.checked_add(offset) else {
        return false;
    };
    match at(scopes, onward) {
        Some(inner) => is_inside(inner, scope, name, place),
        None => false,
    }
}

/// Whether the scope inside an instance of a group is at an offset after each scope of the group.
fn leads(scopes: &[GroupScope], group: usize, name: &Name, place: usize, offset: usize) -> bool
    ensures { IsTrue result → LeadsTo scopes.now group name.now place offset }
{
    for (base, scope) in scopes.iter().enumerate() {
        if !same_group(scope.group, Some(group)) {
            continue;
        }
        if !leads_from(scopes, base, offset, scope, name, place) {
            return false;
        }
    }
    true
}

/// The offset of the scope inside an instance of a group. None for a component, which has no scope.
fn inner_of<'n>(
    names: &NestNames<'n>,
    scopes: &[GroupScope],
    guide: &Guide<'_>,
    group: usize,
    instance: &'n Instance,
) -> Option<Inner<'n>>
    ensures { (one : _) → result ≡ Some one → LeadsTo scopes.now group one.name.now one.place one.offset }
{
    let name = &instance.name;
    let place = names.group_place(instance.unit.as_slice())?;
    let offset = guide.offset(group, name.as_slice())?;
    if leads(scopes, group, name, place, offset as usize) {
        return Some(Inner {
            name,
            place,
            offset,
        });
    }
    None
}

/// The offsets of the scopes inside the instances of a group.
fn inner_in<'n>(
    alloc: Global,
    names: &NestNames<'n>,
    scopes: &[GroupScope],
    guide: &Guide<'_>,
    group: usize,
) -> Result<Vec<Inner<'n>>, NoMemory>
    ensures { IfOk result (λ made. AreInside scopes.now group made.items) }
{
    let mut inner = Vec::new(alloc);
    for instance in names.instances(Some(group)) {
        if let Some(one) = inner_of(names, scopes, guide, group, instance) {
            inner.push(one)?;
        }
    }
    Ok(inner)
}

/// For each group, the offsets of the scopes inside its instances.
fn inner_of_groups<'n>(
    alloc: Global,
    names: &NestNames<'n>,
    scopes: &[GroupScope],
    guide: &Guide<'_>,
) -> Result<Vec<Vec<Inner<'n>>>, NoMemory>
    ensures { IfOk result (λ made. AreAllInside scopes.now (map (λ one. one.items) made.items)) }
{
    let mut lists = Vec::new(alloc);
    for group in 0..names.groups().len() {
        let inner = inner_in(alloc, names, scopes, guide, group)?;
        lists.push(inner)?;
    }
    Ok(lists)
}

fn same_name(one: &Name, other: &Name) -> bool
    ensures { IsTrue result → one.now ≡ other.now }
{
    one.as_slice() == other.as_slice()
}

/// The offset of the scope inside the instance of a name, whose group is at a place.
fn offset_of(inner: &[Inner<'_>], name: &Name, place: usize) -> Option<u32>
    ensures { (scopes : List Scopes) (group offset : ℕ) → result ≡ Some offset → AreInside scopes group inner.now
        → LeadsTo scopes group name.now place offset }
{
    for one in inner {
        if one.place == place && same_name(one.name, name) {
            return Some(one.offset);
        }
    }
    None
}

impl<'n> AllScopes<'n> {
    pub(crate) fn new(
        alloc: Global,
        names: &NestNames<'n>,
        scopes: List<GroupScope>,
        guide: &Guide<'_>,
    ) -> Result<AllScopes<'n>, NoMemory>
        ensures { IfOk result (λ all. all ≡ scopes) }
    {
        let firsts = firsts_of_groups(alloc, scopes.as_slice(), guide, names.groups().len())?;
        let inner = inner_of_groups(alloc, names, scopes.as_slice(), guide)?;
        Ok(AllScopes {
            scopes,
            firsts,
            inner,
        })
    }

    pub(crate) fn as_slice(&self) -> &[GroupScope]
        ensures { result.now ≡ self.now }
    {
        self.scopes.as_slice()
    }

    /// For each offset in a scope of a group, the offset of the first scope that is equal.
    pub(crate) fn firsts(&self, group: usize) -> &[u32]
        ensures { AreAlike self.now group result.now }
    {
        match at(self.firsts.as_slice(), group) {
            Some(firsts) => firsts.as_slice(),
            None => &[],
        }
    }

    /// The offset of the scope inside an instance of a group, after each scope of the group.
    pub(crate) fn offset(&self, group: usize, name: &Name, place: usize) -> Option<u32>
        ensures { (offset : ℕ) → result ≡ Some offset → LeadsTo self.now group name.now place offset }
    {
        let inner = at(self.inner.as_slice(), group)?;
        offset_of(inner.as_slice(), name, place)
    }
}
