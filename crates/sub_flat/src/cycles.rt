//! Groups that contain themselves.
ghost use Rattle.std.specs.Prelude.{◌≡◌, ◌↔◌, ◌<◌, ◌∷◌, ◌++◌, ◌==◌, ℕ, [], true, IfOk, OnOk, IsTrue, length, map, nat_le, slice_index_or};
ghost use Rattle.std.specs.List.{cons_option, list_all, list_any};
ghost use Rattle.unit_tree.specs.Ports.{IsAmong};
ghost use Rattle.sub_flat.specs.Cycles.{ContainsItself, LeadsBack, inner_places};
ghost use Rattle.nest_names.specs.Tables.{inside_of};
ghost use Rattle.sub_flat.specs.Searching.{AreFalling, AreSure, AreWithin, Finds, IsNesting, Spreads, level_at, lists_in};

use crate::levels::{level, levels};
use fixed_words::NoMemory;
use nest_names::NestNames;
use std::alloc::Global;

/// The groups inside each group, by their places, and which groups may contain themselves.
#[derive(Drop)]
pub struct Nesting {
    pub(crate) inner: Vec<Vec<usize>>,
    pub(crate) doubtful: Vec<bool>,
}

// ---- Groups inside groups

fn put_place(place: Option<usize>, inner: &mut Vec<usize>) -> Result<(), NoMemory>
    ensures { OnOk result (inner.new.items ≡ inner.old.items ++ cons_option place []) }
{
    if let Some(place) = place {
        inner.push(place)?;
    }
    Ok(())
}

/// The places of the groups of a group's instances.
fn inner_places(alloc: Global, names: &NestNames<'_>, place: usize) -> Result<Vec<usize>, NoMemory>
    ensures { IfOk result (λ inner. inner.items ≡ inner_places names.now place) }
{
    let mut inner = Vec::new(alloc);
    for instance in names.instances(Some(place)) {
        put_place(names.group_place(instance.unit.as_slice()), &mut inner)?;
    }
    Ok(inner)
}

fn all_inner(alloc: Global, names: &NestNames<'_>) -> Result<Vec<Vec<usize>>, NoMemory>
    ensures inner { IfOk result (λ all. (place : ℕ) → inside_of (map (λ one. one.items) all.items) place ≡ inner_places names.now place) }
    ensures within { IfOk result (λ all. AreWithin (map (λ one. one.items) all.items)) }
{
    let mut all = Vec::new(alloc);
    for place in 0..names.groups().len() {
        let inner = inner_places(alloc, names, place)?;
        all.push(inner)?;
    }
    Ok(all)
}

// ---- Levels

/// The list at a place.
fn inside(inner: &[Vec<usize>], place: usize) -> &[usize]
    ensures { result.now ≡ inside_of (map (λ one. one.items) inner.now) place }
{
    match inner.get(place) {
        Some(one) => one.as_slice(),
        None => &[],
    }
}

/// Whether no group in a list is on a higher level than `own`.
fn are_below(inner: &[usize], levels: &[usize], own: usize) -> bool
    ensures { result ≡ list_all (λ other. nat_le (level_at levels.now other) own) inner.now }
{
    inner.iter().all(|other| level(levels, *other) <= own)
}

/// Whether no group is on a lower level than one inside it.
fn are_falling(inner: &[Vec<usize>], levels: &[usize]) -> bool
    ensures { IsTrue result → AreFalling (map (λ one. one.items) inner.now) levels.now }
{
    for place in 0..inner.len() {
        if !are_below(inside(inner, place), levels, level(levels, place)) {
            return false;
        }
    }
    true
}

/// Whether some group in a list is on the level `own`.
fn is_level(inner: &[usize], levels: &[usize], own: usize) -> bool
    ensures { result ≡ list_any (λ other. level_at levels.now other == own) inner.now }
{
    inner.iter().any(|other| level(levels, *other) == own)
}

/// For each group, whether it has one on its own level inside. Where levels are falling, no other
/// group contains itself.
fn level_inside(
    alloc: Global,
    inner: &[Vec<usize>],
    levels: &[usize],
) -> Result<Vec<bool>, NoMemory>
    requires { AreFalling (map (λ one. one.items) inner.now) levels.now }
    ensures { IfOk result (λ doubtful. AreSure (map (λ one. one.items) inner.now) doubtful.items) }
{
    let mut doubtful = Vec::new(alloc);
    for place in 0..inner.len() {
        let told = is_level(inside(inner, place), levels, level(levels, place));
        doubtful.push(told)?;
    }
    Ok(doubtful)
}

/// For each group, whether it may contain itself. Where this is false, it doesn't.
fn doubtful(alloc: Global, inner: &[Vec<usize>]) -> Result<Vec<bool>, NoMemory>
    ensures { IfOk result (λ doubtful. AreSure (map (λ one. one.items) inner.now) doubtful.items) }
{
    let levels = levels(alloc, inner)?;
    if are_falling(inner, levels.as_slice()) {
        level_inside(alloc, inner, levels.as_slice())
    } else {
        Ok(Vec::new(alloc))
    }
}

// ---- The search

/// Marks a group as found, and as one to visit, if it was not found before.
fn note(place: usize, seen: &mut [bool], pending: &mut Vec<usize>) -> Result<(), NoMemory>
    requires { place < length seen.old }
    ensures { OnOk result (Finds (place ∷ []) seen.old seen.new pending.old.items pending.new.items) }
{
    if !seen[place] {
        pending.push(place)?;
        seen[place] = true;
    }
    Ok(())
}

/// Marks the groups inside a group as found, or returns that one of them is the searched group.
fn spread(
    inner: &[usize],
    wanted: usize,
    seen: &mut [bool],
    pending: &mut Vec<usize>,
) -> Result<bool, NoMemory>
    requires { (place : ℕ) → IsAmong inner.now place → place < length seen.old }
    ensures { IfOk result (Spreads inner.now wanted seen.old seen.new pending.old.items pending.new.items) }
{
    for place in inner {
        if *place == wanted {
            return Ok(true);
        }
        note(*place, seen, pending)?;
    }
    Ok(false)
}

/// Whether the group at a place contains itself.
fn leads_back(alloc: Global, inner: &[Vec<usize>], place: usize) -> Result<bool, NoMemory>
    requires { AreWithin (map (λ one. one.items) inner.now) }
    ensures { IfOk result (λ told. IsTrue told ↔ LeadsBack (inside_of (map (λ one. one.items) inner.now)) place) }
{
    let mut seen = Vec::from_elem(alloc, false, inner.len())?;
    let mut pending = Vec::new(alloc);
    pending.push(place)?;
    while let Some(from) = pending.pop() {
        if spread(
            inside(inner, from),
            place,
            seen.as_mut_slice(),
            &mut pending,
        )? {
            return Ok(true);
        }
    }
    Ok(false)
}

impl Nesting {
    /// Returns the groups inside each group of a nest.
    pub(crate) fn new(alloc: Global, names: &NestNames<'_>) -> Result<Nesting, NoMemory>
        ensures { IfOk result (IsNesting names.now) }
    {
        let inner = all_inner(alloc, names)?;
        let doubtful = doubtful(alloc, inner.as_slice())?;
        Ok(Nesting { inner, doubtful })
    }

    /// Whether the group at a place may contain itself.
    fn is_doubtful(&self, place: usize) -> bool
        ensures { result ≡ slice_index_or self.now.doubtful.items place true }
    {
        match self.doubtful.get(place) {
            Some(told) => *told,
            None => true,
        }
    }

    /// Whether the group at a place contains itself.
    fn contains_itself(&self, alloc: Global, place: usize) -> Result<bool, NoMemory>
        requires within { AreWithin (lists_in self.now) }
        requires sure { AreSure (lists_in self.now) self.now.doubtful.items }
        ensures { IfOk result (λ told. IsTrue told ↔ LeadsBack (inside_of (lists_in self.now)) place) }
    {
        if !self.is_doubtful(place) {
            return Ok(false);
        }
        leads_back(alloc, self.inner.as_slice(), place)
    }
}

/// Whether the group at a place of a nest contains itself.
pub(crate) fn contains_itself(
    alloc: Global,
    names: &NestNames<'_>,
    nesting: &Nesting,
    place: usize,
) -> Result<bool, NoMemory>
    requires { IsNesting names.now nesting.now }
    ensures { IfOk result (λ told. IsTrue told ↔ ContainsItself names.now place) }
{
    nesting.contains_itself(alloc, place)
}
