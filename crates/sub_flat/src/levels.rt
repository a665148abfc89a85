//! Levels of groups: groups that contain each other are on one level, and no group is on a lower one than a group
//! inside it.
//!
//! No proof depends on how they are found: each caller tests them first. They are found as strongly connected
//! components, by Tarjan's method.
ghost use Rattle.std.specs.Prelude.{◌≡◌};
ghost use Rattle.sub_flat.specs.Searching.{level_at};

use fixed_words::NoMemory;
use std::alloc::Global;

/// The number at a place, or 0 where there is none.
pub(crate) fn level(levels: &[usize], place: usize) -> usize
    ensures { result ≡ level_at levels.now place }
{
    match levels.get(place) {
        Some(level) => *level,
        None => 0,
    }
}

pub(crate) fn put(numbers: &mut [usize], place: usize, number: usize) {
    if let Some(one) = numbers.get_mut(place) {
        *one = number;
    }
}

/// A depth-first walk over the groups inside groups.
#[derive(Drop)]
struct Walk {
    /// The group that is entered next, when no group is entered.
    root: usize,
    /// How many groups were entered, and how many levels are complete.
    entered: usize,
    done: usize,
    /// For each group the number at which it was entered, from 1, and the least such number that is known to be reached
    /// from it.
    numbers: Vec<usize>,
    least: Vec<usize>,
    /// For each group which of those inside it comes next, and its level, from 1.
    next: Vec<usize>,
    levels: Vec<usize>,
    /// The groups around the one where the walk is, with this one, and those that were entered and have no level yet.
    path: Vec<usize>,
    open: Vec<usize>,
}

impl Walk {
    fn new(alloc: Global, count: usize) -> Result<Walk, NoMemory> {
        Ok(Walk {
            root: 0,
            entered: 0,
            done: 0,
            numbers: Vec::from_elem(alloc, 0, count)?,
            least: Vec::from_elem(alloc, 0, count)?,
            next: Vec::from_elem(alloc, 0, count)?,
            levels: Vec::from_elem(alloc, 0, count)?,
            path: Vec::new(alloc),
            open: Vec::new(alloc),
        })
    }

    /// Enters a group.
    fn enter(&mut self, place: usize) -> Result<(), NoMemory> {
        self.entered = self.entered.saturating_add(1);
        put(self.numbers.as_mut_slice(), place, self.entered);
        put(self.least.as_mut_slice(), place, self.entered);
        self.path.push(place)?;
        self.open.push(place)?;
        Ok(())
    }

    /// Records that the group at a place reaches one with this number.
    fn note(&mut self, place: usize, number: usize) {
        if number < level(self.least.as_slice(), place) {
            put(self.least.as_mut_slice(), place, number);
        }
    }

    /// Visits a group inside the one where the walk is.
    fn go_on(&mut self, place: usize, other: usize) -> Result<(), NoMemory> {
        let number = level(self.numbers.as_slice(), other);
        if number == 0 {
            return self.enter(other);
        }
        if level(self.levels.as_slice(), other) == 0 {
            self.note(place, number);
        }
        Ok(())
    }

    /// Enters the next group if it was not entered before.
    fn begin(&mut self, count: usize) -> Result<(), NoMemory> {
        let root = self.root;
        self.root = root.saturating_add(1);
        if root < count && level(self.numbers.as_slice(), root) == 0 {
            return self.enter(root);
        }
        Ok(())
    }

    /// Completes a level: that of the groups that were entered from the one at a place on.
    fn close(&mut self, place: usize) {
        self.done = self.done.saturating_add(1);
        while let Some(other) = self.open.pop() {
            put(self.levels.as_mut_slice(), other, self.done);
            if other == place {
                return;
            }
        }
    }

    /// Leaves the group at a place.
    fn leave(&mut self, place: usize) {
        drop(self.path.pop());
        let least = level(self.least.as_slice(), place);
        if least == level(self.numbers.as_slice(), place) {
            self.close(place);
        }
        if let Some(around) = self.path.last() {
            let around = *around;
            self.note(around, least);
        }
    }

    /// One step of the walk.
    fn step(&mut self, inner: &[Vec<usize>]) -> Result<(), NoMemory> {
        let Some(place) = self.path.last() else {
            return self.begin(inner.len());
        };
        let place = *place;
        let next = level(self.next.as_slice(), place);
        let Some(others) = inner.get(place) else {
            return Ok(());
        };
        let Some(other) = others.get(next) else {
            self.leave(place);
            return Ok(());
        };
        put(self.next.as_mut_slice(), place, next.saturating_add(1));
        self.go_on(place, *other)
    }
}

/// The most steps that the walk takes: for each group one that begins with it or passes over it, one that leaves it,
/// and one for each group inside it.
fn steps(inner: &[Vec<usize>]) -> usize {
    let mut steps: usize = 0;
    for others in inner {
        steps = steps.saturating_add(2).saturating_add(others.len());
    }
    steps
}

/// A level for each group, by the groups inside each.
pub(crate) fn levels(alloc: Global, inner: &[Vec<usize>]) -> Result<Vec<usize>, NoMemory> {
    let mut walk = Walk::new(alloc, inner.len())?;
    for _ in 0..steps(inner) {
        walk.step(inner)?;
    }
    Ok(walk.levels)
}
