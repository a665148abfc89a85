//! Places by names, where several may have the same name.
ghost use Rattle.std.specs.Prelude.{◌≡◌, ◌∷◌, ◌++◌, ◌<◌, ◌==◌, [], ℕ, List, OnOk, bytes_eq, if◌then◌else◌, length, map};
ghost use Rattle.unit_names.specs.Found.{found_in};
ghost use Rattle.nest_names.specs.Tables.{AreNumbered, inside_of, places_of};

use crate::tables::{Places, note, noted};
use fixed_words::NoMemory;
use std::alloc::Global;
use std::collections::BTreeMap;

/// For each name the places that have it, in their order. Each name has a number, and the list with
/// this number.
#[derive(Drop)]
pub struct PlacesByName<'n> {
    pub(crate) numbers: Places<'n>,
    pub(crate) lists: Vec<Vec<usize>>,
}

/// Adds a place at the end of the list with a number.
fn put_at(lists: &mut Vec<Vec<usize>>, number: usize, place: usize) -> Result<(), NoMemory>
    requires { number < length lists.old.items }
    ensures long { OnOk result (length lists.new.items ≡ length lists.old.items) }
    ensures lists { OnOk result ((k : ℕ) →
        inside_of (map (λ one. one.items) lists.new.items) k
        ≡ inside_of (map (λ one. one.items) lists.old.items) k ++ (if k == number then place ∷ [] else [])) }
{
    lists[number].push(place)?;
    Ok(())
}

impl<'n> PlacesByName<'n> {
    pub(crate) fn new(alloc: Global) -> PlacesByName<'n>
        ensures numbered { AreNumbered result }
        ensures empty { (q : List ℕ) → places_of result q ≡ [] }
    {
        PlacesByName {
            numbers: BTreeMap::new(alloc),
            lists: Vec::new(alloc),
        }
    }

    /// Adds a name that was not added before, with its first place.
    fn add_name(&mut self, alloc: Global, name: &'n [u8], place: usize) -> Result<(), NoMemory>
        requires numbered { AreNumbered self.old }
        requires new { found_in self.old.numbers name.now ≡ None }
        ensures numbered { OnOk result (AreNumbered self.new) }
        ensures places { OnOk result ((q : List ℕ) →
            places_of self.new q ≡ places_of self.old q ++ (if bytes_eq q name.now then place ∷ [] else [])) }
    {
        let mut one = Vec::new(alloc);
        one.push(place)?;
        note(&mut self.numbers, name, self.lists.len())?;
        self.lists.push(one)?;
        Ok(())
    }

    /// Adds a place with its name.
    pub(crate) fn add(
        &mut self,
        alloc: Global,
        name: &'n [u8],
        place: usize,
    ) -> Result<(), NoMemory>
        requires { AreNumbered self.old }
        ensures numbered { OnOk result (AreNumbered self.new) }
        ensures places { OnOk result ((q : List ℕ) →
            places_of self.new q ≡ places_of self.old q ++ (if bytes_eq q name.now then place ∷ [] else [])) }
    {
        match noted(&self.numbers, name) {
            Some(number) => put_at(&mut self.lists, number, place),
            None => self.add_name(alloc, name, place),
        }
    }

    /// The places with a name.
    pub(crate) fn named(&self, name: &[u8]) -> &[usize]
        ensures { result.now ≡ places_of self.now name.now }
    {
        match noted(&self.numbers, name) {
            Some(number) => match self.lists.get(number) {
                Some(one) => one.as_slice(),
                None => &[],
            },
            None => &[],
        }
    }
}
