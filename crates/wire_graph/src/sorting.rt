ghost use Rattle.std.specs.Prelude.{◌≡◌, ◌<◌, ℕ, false, OnOk, IfOk, length, slice_index_or, not};
ghost use Rattle.std.specs.List.{list_all, position_from};
ghost use Rattle.wire_graph.specs.Sorting.{IsSorting, Grows, IsTried, IsClosed};

use fixed_words::NoMemory;
use std::alloc::{AllocError, Global};
use unit_tree::Routes;

/// The places that are in order so far, and for each output whether it is among them.
#[derive(Drop)]
pub(crate) struct Sorting {
    pub(crate) places: Vec<u32>,
    pub(crate) placed: Vec<bool>,
}

/// Whether an output is placed. An output beyond the table is not.
fn is_placed(placed: &[bool], place: u32) -> bool
    ensures { result ≡ slice_index_or placed.now place false }
{
    match placed.get(place as usize) {
        Some(told) => *told,
        None => false,
    }
}

/// Whether all that an output depends on is placed.
fn is_ready(placed: &[bool], needs: &[u32]) -> bool
    ensures { result ≡ list_all (λ need. slice_index_or placed.now need false) needs.now }
{
    needs.iter().all(|need| is_placed(placed, *need))
}

impl Sorting {
    /// Returns a sorting without any place yet.
    fn new(alloc: Global, routes: &Routes) -> Result<Sorting, NoMemory>
        ensures { IfOk result (λ sorting. IsSorting routes.now sorting.places.items sorting.placed.items) }
    {
        let placed = vec![in alloc; false; routes.outputs.len()]?;
        Ok(Sorting {
            places: Vec::new(alloc),
            placed,
        })
    }

    /// Adds an output, if it is not placed yet and all that it depends on is.
    fn try_place(&mut self, routes: &Routes, place: u32) -> Result<(), NoMemory>
        requires { IsSorting routes.now self.old.places.items self.old.placed.items }
        ensures kept { OnOk result (IsSorting routes.now self.new.places.items self.new.placed.items) }
        ensures grown { OnOk result (Grows self.old.places.items self.new.places.items) }
        ensures tried { OnOk result (IsTried routes.now self.old.places.items self.new.places.items place) }
    {
        let Some(route) = routes.outputs.get(place as usize) else {
            return Ok(());
        };
        if is_placed(&self.placed, place) {
            return Ok(());
        }
        if !is_ready(&self.placed, route.needs.as_slice()) {
            return Ok(());
        }
        self.places.push(place)?;
        self.placed[place as usize] = true;
        Ok(())
    }

    /// Tries each output once, by place.
    fn try_all(&mut self, routes: &Routes, count: u32) -> Result<(), NoMemory>
        requires kept { IsSorting routes.now self.old.places.items self.old.placed.items }
        requires count { count ≡ length routes.now.outputs }
        ensures kept { OnOk result (IsSorting routes.now self.new.places.items self.new.placed.items) }
        ensures grown { OnOk result (Grows self.old.places.items self.new.places.items) }
        ensures tried { OnOk result ((place : ℕ) → IsTried routes.now self.old.places.items self.new.places.items place) }
    {
        for place in 0..count {
            self.try_place(routes, place)?;
        }
        Ok(())
    }

    /// Tries each of these outputs once.
    fn try_these(&mut self, routes: &Routes, places: &[u32]) -> Result<(), NoMemory>
        requires { IsSorting routes.now self.old.places.items self.old.placed.items }
        ensures kept { OnOk result (IsSorting routes.now self.new.places.items self.new.placed.items) }
        ensures grown { OnOk result (Grows self.old.places.items self.new.places.items) }
    {
        for place in places {
            self.try_place(routes, *place)?;
        }
        Ok(())
    }

    /// Goes along the places from one on, and tries the outputs that depend on each.
    fn follow(
        &mut self,
        routes: &Routes,
        needed_by: &[Vec<u32>],
        from: usize,
    ) -> Result<(), NoMemory>
        requires { IsSorting routes.now self.old.places.items self.old.placed.items }
        ensures kept { OnOk result (IsSorting routes.now self.new.places.items self.new.placed.items) }
        ensures grown { OnOk result (Grows self.old.places.items self.new.places.items) }
    {
        let mut head = from;
        while head < self.places.len() {
            let place = self.places[head] as usize;
            if let Some(others) = needed_by.get(place) {
                self.try_these(routes, others)?;
            }
            head += 1;
        }
        Ok(())
    }

    /// Adds all that can be added. A round tries each output, and then those that depend on what was added. The first
    /// round adds all there is, and a round that adds nothing proves this.
    fn fill(&mut self, routes: &Routes, needed_by: &[Vec<u32>], count: u32) -> Result<(), NoMemory>
        requires kept { IsSorting routes.now self.old.places.items self.old.placed.items }
        requires count { count ≡ length routes.now.outputs }
        ensures kept { OnOk result (IsSorting routes.now self.new.places.items self.new.placed.items) }
        ensures closed { OnOk result (IsClosed routes.now self.new.places.items) }
    {
        loop {
            let before = self.places.len();
            self.try_all(routes, count)?;
            if self.places.len() == before {
                return Ok(());
            }
            self.follow(routes, needed_by, before)?;
        }
    }
}

/// For each output the places of those that depend on it directly.
fn needed_by(alloc: Global, routes: &Routes, count: u32) -> Result<Vec<Vec<u32>>, NoMemory>
    requires { count ≡ length routes.now.outputs }
{
    let mut needed_by = Vec::with_capacity(alloc, count as usize)?;
    for _ in 0..count {
        needed_by.push(Vec::new(alloc))?;
    }
    for place in 0..count {
        if let Some(route) = routes.outputs.get(place as usize) {
            note_needs(&mut needed_by, route.needs.as_slice(), place)?;
        }
    }
    Ok(needed_by)
}

/// Adds an output to the list of each output that it depends on.
fn note_needs(needed_by: &mut [Vec<u32>], needs: &[u32], place: u32) -> Result<(), NoMemory> {
    for need in needs {
        if let Some(others) = needed_by.get_mut(*need as usize) {
            others.push(place)?;
        }
    }
    Ok(())
}

/// Returns the places of outputs, each after all that its output depends on: as many as there can be.
///
/// The proof does not use the lists of dependent outputs. They only show which outputs to try, so that each is tried
/// once for each of its needs.
pub(crate) fn sort(alloc: Global, routes: &Routes) -> Result<Sorting, NoMemory>
    ensures kept { IfOk result (λ sorting. IsSorting routes.now sorting.places.items sorting.placed.items) }
    ensures closed { IfOk result (λ sorting. IsClosed routes.now sorting.places.items) }
{
    let Ok(count) = u32::try_from(routes.outputs.len()) else {
        return Err(AllocError);
    };
    let needed_by = needed_by(alloc, routes, count)?;
    let mut sorting = Sorting::new(alloc, routes)?;
    sorting.fill(routes, &needed_by, count)?;
    Ok(sorting)
}

/// The place of the first output that is not placed, if there is one.
pub(crate) fn first_left(placed: &[bool]) -> Option<usize>
    ensures { result ≡ position_from not 0 placed.now }
{
    placed.iter().position(|told| !*told)
}
