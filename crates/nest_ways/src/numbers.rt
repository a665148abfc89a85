//! The kept inputs of components by numbers, so that a few words show whether all that is kept for an input was added.
//!
//! Walks visit some inputs of groups. What is kept for those of one group gets numbers: one for each input of a
//! component, whichever inputs of the group it is kept for. The numbers of one group follow each other. The proof needs
//! only that each number has one input, counted from a scope of the group. An input of a group without a set is added
//! again from each scope, and so is one whose set is never found to be complete. This takes long and changes nothing.
ghost use Rattle.std.specs.Prelude.{◌≡◌, ◌↔◌, ◌⊎◌, ◌∷◌, ◌++◌, ◌+◌, ◌<◌, ◌≤◌, [], ℕ, List, None, Some, IfOk, IsTrue, OnOk, length, set, slice_get};
ghost use Rattle.std.specs.Option.{option_map};
ghost use Rattle.nest_ways.specs.Sets.{AreKeptSets, KeepsByNumbers, HasAll, HasNumber, HasOnly, HasNumberAt, HasRoomAt, IsTrimmed, most_numbers};
ghost use Rattle.nest_ways.specs.declared.ends.End.{End as Ends};
ghost use Rattle.nest_ways.specs.declared.sets.NumberSet.{NumberSet as NumberSets};

use crate::ends::{End, is_at};
use crate::guide::Guide;
use crate::sets::NumberSet;
use crate::steps::{Known, WayStep, only_inside};
use fixed_words::{List, NoMemory};
use model_rules::MOST_CONNECTIONS;
use nest_names::at;
use std::alloc::Global;

/// The most inputs of components that get numbers for one group. Connections lead to at most 2,048 inputs, unless there
/// are too many. An input may have several numbers, where names of instances join to the same name. For each of its
/// numbers another scope of the group reaches it, with another component in each of these scopes. There are at most 64
/// components, so it has at most eight numbers. Where no number is left, what is kept has no set, and is added again
/// from each scope.
pub(crate) const MOST_NUMBERS: usize = 8 * MOST_CONNECTIONS;

/// What is kept for inputs of groups, by numbers.
#[derive(Drop)]
pub struct KeptSets {
    /// The inputs of components, each at its number, counted from a scope.
    numbered: List<End>,
    /// For each input of a group the numbers of what is kept for it. None where nothing is kept, no walk visits it, or
    /// there were no numbers left.
    sets: Vec<Option<NumberSet>>,
}

/// The number of an input of a component. Where it has none yet, it gets the next one, if there are any left. The
/// numbers of the group begin with `first`. A number that the guide doesn't find is lost, which takes only time.
fn number_end(
    guide: &mut Guide<'_>,
    first: usize,
    end: End,
    numbered: &mut List<End>,
) -> Result<Option<usize>, NoMemory>
    requires { first ≤ length numbered.old }
    ensures found { IfOk result (λ told. (number : ℕ) → told ≡ Some number → (first ≤ number) × (slice_get numbered.new number ≡ Some end)) }
    ensures none { IfOk result (λ told. told ≡ None → first + most_numbers ≤ length numbered.new) }
    ensures once { OnOk result ((numbered.new ≡ numbered.old) ⊎ (numbered.new ≡ numbered.old ++ end ∷ [])) }
{
    let number = guide.place_of(end);
    if number >= first && is_at(numbered.as_slice(), number, end) {
        return Ok(Some(number));
    }
    let next = numbered.len();
    if next.saturating_sub(first) >= MOST_NUMBERS {
        return Ok(None);
    }
    guide.note_place(end, next);
    numbered.push(end)?;
    Ok(Some(next))
}

/// The set of the numbers of what is kept, if there are enough.
fn numbers_of(
    alloc: Global,
    guide: &mut Guide<'_>,
    first: usize,
    kept: &[End],
    numbered: &mut List<End>,
) -> Result<Option<NumberSet>, NoMemory>
    requires { first ≤ length numbered.old }
    ensures has { IfOk result (λ made. (set : NumberSets) → made ≡ Some set → HasAll numbered.new set kept.now × HasOnly numbered.new set kept.now) }
    ensures first { IfOk result (λ made. (set : NumberSets) → made ≡ Some set → IsTrimmed set) }
    ensures none { IfOk result (λ made. made ≡ None → first + most_numbers ≤ length numbered.new) }
    ensures still { OnOk result ((rest : List Ends) × (numbered.new ≡ numbered.old ++ rest)) }
{
    let mut set = NumberSet::new(alloc, first);
    for end in kept {
        let Some(number) = number_end(guide, first, *end, numbered)? else {
            return Ok(None);
        };
        set.put(number)?;
    }
    Ok(Some(set.trimmed()?))
}

/// Sets the set at a place, if there is such a place.
fn set_at(sets: &mut Vec<Option<NumberSet>>, place: usize, made: Option<NumberSet>)
    ensures { sets.new.items ≡ set sets.old.items place made }
{
    if place < sets.len() {
        sets[place] = made;
    }
}

/// Gives numbers to what is kept for these inputs of one group.
fn number_inputs(
    alloc: Global,
    known: &[Known<'_>],
    guide: &mut Guide<'_>,
    group: usize,
    inputs: &[usize],
    numbered: &mut List<End>,
    sets: &mut Vec<Option<NumberSet>>,
) -> Result<(), NoMemory>
    requires { AreKeptSets numbered.old known.now sets.old.items }
    ensures { OnOk result (AreKeptSets numbered.new known.now sets.new.items) }
{
    guide.begin_group(group);
    let first = numbered.len();
    for input in inputs {
        let Some(one) = at(known, *input) else {
            continue;
        };
        let Some(kept) = &one.ends else {
            continue;
        };
        let set = numbers_of(alloc, guide, first, kept.as_slice(), numbered)?;
        set_at(sets, *input, set);
    }
    Ok(())
}

/// Records the inputs that a walk visits from an input: those to which its steps lead, if nothing is kept for it. No walk
/// visits an input whose only step leads into a group, since a step to it is joined with that one.
fn note_walked(one: &Known<'_>, walked: &mut [bool]) {
    let steps = one.steps.as_slice();
    if one.ends.is_some() || only_inside(steps).is_some() {
        return;
    }
    for step in steps {
        if let WayStep::Inside(inside) = *step {
            if let Some(input) = walked.get_mut(inside.input as usize) {
                *input = true;
            }
        }
    }
}

/// For each known input, whether walks visit it from others.
fn walked_inputs(alloc: Global, known: &[Known<'_>]) -> Result<Vec<bool>, NoMemory> {
    let mut walked = Vec::with_capacity(alloc, known.len())?;
    for _ in 0..known.len() {
        walked.push(false)?;
    }
    for one in known {
        note_walked(one, walked.as_mut_slice());
    }
    Ok(walked)
}

/// For each group those of its inputs that walks visit.
fn inputs_of_groups(
    alloc: Global,
    known: &[Known<'_>],
    groups: usize,
) -> Result<Vec<Vec<usize>>, NoMemory> {
    let walked = walked_inputs(alloc, known)?;
    let mut lists = Vec::new(alloc);
    for _ in 0..groups {
        lists.push(Vec::new(alloc))?;
    }
    for (input, (one, walked)) in known.iter().zip(walked.iter()).enumerate() {
        if *walked {
            if let Some(own) = lists.get_mut(one.group) {
                own.push(input)?;
            }
        }
    }
    Ok(lists)
}

/// Returns the list for `count` inputs, none of which has a set.
fn no_sets(alloc: Global, count: usize) -> Result<Vec<Option<NumberSet>>, NoMemory>
    ensures count { IfOk result (λ made. length made.items ≡ count) }
    ensures none { IfOk result (λ made. (place : ℕ) (set : NumberSets) → slice_get made.items place ≡ Some (Some set) → ⊥) }
{
    let mut sets = Vec::with_capacity(alloc, count)?;
    for _ in 0..count {
        sets.push(None)?;
    }
    Ok(sets)
}

impl KeptSets {
    /// Returns the numbers of what is kept for inputs that walks visit, group by group.
    pub(crate) fn new(
        alloc: Global,
        known: &[Known<'_>],
        guide: &mut Guide<'_>,
        groups: usize,
    ) -> Result<KeptSets, NoMemory>
        ensures { IfOk result (λ made. KeepsByNumbers made known.now) }
    {
        let mut numbered = List::new(alloc);
        let mut sets = no_sets(alloc, known.len())?;
        let lists = inputs_of_groups(alloc, known, groups)?;
        for (group, inputs) in lists.iter().enumerate() {
            number_inputs(
                alloc,
                known,
                guide,
                group,
                inputs.as_slice(),
                &mut numbered,
                &mut sets,
            )?;
        }
        Ok(KeptSets { numbered, sets })
    }

    /// The numbers of what is kept for an input.
    pub(crate) fn set(&self, input: usize) -> Option<&NumberSet>
        ensures { (set : NumberSets) → (option_map (λ found. found.now) result ≡ Some set) ↔ (slice_get self.now.sets.items input ≡ Some (Some set)) }
    {
        at(self.sets.as_slice(), input)?.as_ref()
    }
}

/// For each scope the numbers of the inputs that were added from there. A scope is given by how many places later it is
/// than the one where the walk begins.
#[derive(Drop)]
pub struct PutSets {
    sets: Vec<NumberSet>,
}

impl PutSets {
    /// Returns the sets of `count` scopes, all empty.
    pub(crate) fn new(alloc: Global, count: usize) -> Result<PutSets, NoMemory>
        ensures count { IfOk result (λ made. length made.sets.items ≡ count) }
        ensures none { IfOk result (λ made. (scope number : ℕ) → HasNumberAt made.sets.items scope number → ⊥) }
    {
        let mut sets = Vec::with_capacity(alloc, count)?;
        for _ in 0..count {
            sets.push(NumberSet::new(alloc, 0))?;
        }
        Ok(PutSets { sets })
    }

    /// Whether there is such a scope, and all numbers of a set were added from there.
    pub(crate) fn has(&self, scope: usize, set: &NumberSet) -> bool
        ensures { IsTrue result ↔ ((scope < length self.now.sets.items)
            × ((number : ℕ) → HasNumber set.now number → HasNumberAt self.now.sets.items scope number)) }
    {
        match at(self.sets.as_slice(), scope) {
            Some(own) => set.is_within(own),
            None => false,
        }
    }

    /// Adds the numbers of a set to those of a scope, if there is such a scope and room for them. Returns whether it did.
    pub(crate) fn put(&mut self, scope: usize, set: &NumberSet) -> Result<bool, NoMemory>
        ensures room { IfOk result (λ told. IsTrue told ↔ HasRoomAt self.old.sets.items scope set.now) }
        ensures there { IfOk result (λ told. IsTrue told → (number : ℕ) → HasNumber set.now number → HasNumberAt self.new.sets.items scope number) }
        ensures still { OnOk result ((other number : ℕ) → HasNumberAt self.old.sets.items other number → HasNumberAt self.new.sets.items other number) }
        ensures only { OnOk result ((other number : ℕ) → HasNumberAt self.new.sets.items other number
            → ((other ≡ scope) × HasNumber set.now number) ⊎ HasNumberAt self.old.sets.items other number) }
    {
        match self.sets.get_mut(scope) {
            Some(own) => own.put_all(set),
            None => Ok(false),
        }
    }
}
