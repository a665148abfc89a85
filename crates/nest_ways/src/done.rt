//! In which scopes of its group an input is finished: a set of scopes for each input.
ghost use Rattle.std.specs.Prelude.{◌≡◌, ◌↔◌, ◌⊎◌, ◌<◌, ℕ, length, Some, IfOk, IsTrue};
ghost use Rattle.nest_ways.specs.Sets.{AreEmpty, HasAt};
ghost use Rattle.nest_ways.specs.Walking.{IsNumbered};

use crate::sets::{SetWord, WORD_BITS};
use fixed_words::NoMemory;
use nest_names::{GroupScope, at};
use std::alloc::Global;

/// The most scopes of a group whose numbers are recorded. No group has more, since each of its scopes has a component
/// of its own and a system has at most this many. In a scope with a higher number an input would never be finished, and
/// would be visited again.
const MOST_SCOPES: u32 = WORD_BITS;

/// In which scopes inputs of groups are finished: for each input a set of scopes of its group.
#[derive(Drop)]
pub struct DoneInputs {
    sets: Vec<SetWord>,
}

impl DoneInputs {
    /// Returns the sets for `count` inputs, none of which is finished in any scope.
    pub(crate) fn new(alloc: Global, count: usize) -> Result<DoneInputs, NoMemory>
        ensures count { IfOk result (λ made. length made.sets.items ≡ count) }
        ensures none { IfOk result (λ made. AreEmpty made.sets.items) }
    {
        let mut sets = Vec::with_capacity(alloc, count)?;
        for _ in 0..count {
            sets.push(SetWord::empty())?;
        }
        Ok(DoneInputs { sets })
    }

    /// Whether an input is finished in the scope of its group with this number.
    pub(crate) fn has(&self, input: usize, number: u32) -> bool
        ensures { IsTrue result ↔ HasAt self.now.sets.items input number }
    {
        match at(self.sets.as_slice(), input) {
            Some(set) => set.has(number),
            None => false,
        }
    }

    /// Records that an input is finished in the scope of its group with this number.
    pub(crate) fn put(&mut self, input: usize, number: u32)
        ensures there { input < length self.old.sets.items → number < 64 → HasAt self.new.sets.items input number }
        ensures still { (other one : ℕ) → HasAt self.old.sets.items other one → HasAt self.new.sets.items other one }
        ensures only { (other one : ℕ) → HasAt self.new.sets.items other one
            → ((other ≡ input) × (one ≡ number)) ⊎ HasAt self.old.sets.items other one }
    {
        if input < self.sets.len() {
            self.sets[input] = self.sets[input].with(number);
        }
    }
}

/// The scopes of each group, by numbers. The proof needs only that a number of a group is that of one place.
#[derive(Drop)]
pub struct GroupScopes {
    /// For each group, the places of its scopes in the list of all scopes.
    places: Vec<Vec<usize>>,
    /// For each scope its number in its group, which is compared with the places.
    numbers: Vec<u32>,
}

/// Records the place of the next scope of a group, and returns its number.
fn note_place(
    places: &mut [Vec<usize>],
    group: Option<usize>,
    place: usize,
) -> Result<u32, NoMemory> {
    let Some(group) = group else {
        return Ok(0);
    };
    let Some(own) = places.get_mut(group) else {
        return Ok(0);
    };
    let number = u32::try_from(own.len()).unwrap_or(MOST_SCOPES);
    own.push(place)?;
    Ok(number)
}

impl GroupScopes {
    /// Returns the numbers of scopes, for this many groups.
    pub(crate) fn new(
        alloc: Global,
        scopes: &[GroupScope],
        groups: usize,
    ) -> Result<GroupScopes, NoMemory> {
        let mut places = Vec::new(alloc);
        for _ in 0..groups {
            places.push(Vec::new(alloc))?;
        }
        let mut numbers = Vec::new(alloc);
        for (place, scope) in scopes.iter().enumerate() {
            numbers.push(note_place(places.as_mut_slice(), scope.group, place)?)?;
        }
        Ok(GroupScopes { places, numbers })
    }

    /// The number of the scope at a place, among those of its group.
    pub(crate) fn number(&self, group: usize, place: usize) -> Option<u32>
        ensures { (number : ℕ) → result ≡ Some number → IsNumbered self.now group number place }
    {
        let number = *at(self.numbers.as_slice(), place)?;
        let places = at(self.places.as_slice(), group)?;
        let own = *at(places.as_slice(), number as usize)?;
        if own == place { Some(number) } else { None }
    }
}
