//! Slots for answers, one for each planned cell.
ghost use Rattle.std.specs.Prelude.{◌≡◌, ◌+◌, ◌≤◌, ◌<◌, [], length, take, drop, IfOk, Some};
ghost use Rattle.std.specs.List.{AllByRecursion};
ghost use Rattle.std.specs.Option.{option_copied};
ghost use Rattle.guess_board.specs.Cells.{RisesFrom};
ghost use Rattle.guess_board.specs.Chains.{code_of, with_next, with_posted};
ghost use Rattle.guess_board.specs.Events.{first_of};
ghost use Rattle.guess_board.specs.Slots.{entries_of, filled, fill_first, slots_in, AreSlotsOf};
ghost use Rattle.indexmap.specs.IndexMap.{set_value_at};
ghost use Rattle.unit_answers.specs.Answers.{IsProven};
ghost use Rattle.unit_answers.specs.Keys.{key_of};

use crate::cell::Cell;
use crate::needs::{is_next, need};
use fixed_words::{List, NoMemory};
use indexmap::IndexMap;
use std::alloc::Global;
use std::sync::Arc;
use unit_answers::{Proven, same_key};
use unit_exec::{Image, Want};

/// The answers of a lane: for each planned cell its row, and the answer where there is one.
pub(crate) type Slots = IndexMap<u64, Option<Proven>>;

/// Returns empty slots for a line.
pub(crate) fn empty_slots(alloc: Global, line: &[Cell]) -> Result<Slots, NoMemory>
    requires { RisesFrom 0 line.now }
    ensures { IfOk result (λ slots. slots.entries ≡ entries_of line.now []) }
{
    let mut slots = IndexMap::with_capacity(alloc, line.len())?;
    for cell in line {
        slots.insert(cell.row, None)?;
    }
    Ok(slots)
}

/// Moves the contents of so many slots, from one on, to the first slots of others.
pub(crate) fn move_answers(from: &mut Slots, first: usize, count: usize, into: &mut Slots)
    requires few { length from.old.entries ≤ 16 }
    requires from { first + count ≤ length from.old.entries }
    requires into { count ≤ length into.old.entries }
    ensures { into.new.entries ≡ fill_first into.old.entries (take count (drop first (slots_in from.old.entries))) }
{
    for place in 0..count {
        into[place] = from[first + place].take();
    }
}

/// Fills a slot.
fn fill(slots: &mut Slots, place: usize, one: Proven)
    requires { place < length slots.old.entries }
    ensures { slots.new.entries ≡ set_value_at slots.old.entries place (Some one) }
{
    slots[place] = Some(one);
}

/// Stores an answer in the first empty slot, where it is the next needed one. Returns how many were stored: 0 or 1.
fn put(image: &Arc<Image>, state: &[i64], line: &[Cell], slots: &mut Slots, one: Proven) -> u32
    requires { AreSlotsOf line.now slots.old.entries }
    ensures slots { AreSlotsOf line.now slots.new.entries }
    ensures answers { filled (slots_in slots.new.entries) ≡ with_next (code_of image.now.value) state.now line.now (filled (slots_in slots.old.entries)) one }
    ensures count { result + length (filled (slots_in slots.old.entries)) ≡ length (filled (slots_in slots.new.entries)) }
    ensures proven { IsProven one }
{
    // Called for its clause, which states the invariant of an answer.
    let _ = one.answer();
    let place = match need(state, line, slots.values().as_slice()) {
        Some(needed) if is_next(&one, image, needed.state, needed.cell) => {
            line.len() - needed.cells.len()
        }
        _ => return 0,
    };
    fill(slots, place, one);
    1
}

/// Stores answers one after the other, each where it is the next needed one. Returns how many were stored. Takes no memory.
pub(crate) fn put_all(
    image: &Arc<Image>,
    state: &[i64],
    line: &[Cell],
    slots: &mut Slots,
    answers: Vec<Proven>,
) -> u32
    requires slots { AreSlotsOf line.now slots.old.entries }
    requires few { length line.now ≤ 16 }
    ensures slots { AreSlotsOf line.now slots.new.entries }
    ensures answers { filled (slots_in slots.new.entries) ≡ with_posted (code_of image.now.value) state.now line.now (filled (slots_in slots.old.entries)) answers.items }
    ensures count { result + length (filled (slots_in slots.old.entries)) ≡ length (filled (slots_in slots.new.entries)) }
    ensures proven { AllByRecursion IsProven answers.items }
{
    let mut count = 0;
    for one in answers {
        count += put(image, state, line, slots, one);
    }
    count
}

/// Returns the first answer, where it is that of a required step.
pub(crate) fn find<'a>(slots: &'a [Option<Proven>], want: Want<'_>) -> Option<&'a Proven>
    ensures { option_copied result ≡ first_of (key_of want.entry) (filled slots.now) }
{
    let one = slots.first()?.as_ref()?;
    if same_key(one, want) { Some(one) } else { None }
}

/// Returns copies of cells.
pub(crate) fn copied(alloc: Global, cells: &[Cell]) -> Result<Vec<Cell>, NoMemory>
    ensures { IfOk result (λ copies. copies.items ≡ cells.now) }
{
    let mut copies = Vec::with_capacity(alloc, cells.len())?;
    for cell in cells {
        copies.push(Cell {
            row: cell.row,
            time: cell.time,
            step: cell.step,
            inputs: List::from_slice(alloc, cell.inputs.as_slice())?,
        })?;
    }
    Ok(copies)
}
