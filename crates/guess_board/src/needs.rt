//! The step that a lane needs next, and which answers are answers to it.
ghost use Rattle.std.specs.Prelude.{◌≡◌, ◌≤◌, ℤ, List, length, drop, IfSome};
ghost use Rattle.std.specs.Option.{option_copied, option_eq, option_map};
ghost use Rattle.guess_board.specs.Chains.{code_of, is_next, is_same_need, key_at, need_of, whole_state};
ghost use Rattle.guess_board.specs.Matching.{below, is_same_cell, matching, need_told, passed};
ghost use Rattle.guess_board.specs.Slots.{filled};

use crate::cell::Cell;
use std::sync::Arc;
use unit_answers::{Answer, Proven, same_key};
use unit_exec::{Image, Want};

/// The next needed step: a planned cell, the state before it, and the planned cells from it on.
#[derive(Clone, Copy)]
pub(crate) struct Needed<'a> {
    pub(crate) state: &'a [i64],
    pub(crate) cell: &'a Cell,
    pub(crate) cells: &'a [Cell],
}

/// Returns the state after an answer that accepted its whole step, or `None` for any other answer.
pub(crate) fn whole_state(one: &Proven) -> Option<&[i64]>
    ensures { option_copied result ≡ whole_state one.now }
{
    match one.answer() {
        Answer::Moved { state, accepted } if *accepted == one.key().step => Some(state.as_slice()),
        _ => None,
    }
}

/// Returns whether an answer is that at a cell from a state.
pub(crate) fn is_next(one: &Proven, image: &Arc<Image>, state: &[i64], cell: &Cell) -> bool
    ensures { result ≡ is_next cell.now.row (key_at (code_of image.now.value) state.now cell.now) one.now }
{
    let want = Want {
        row: cell.row,
        image,
        state,
        inputs: cell.inputs.as_slice(),
        time: cell.time,
        step: cell.step,
    };
    cell.row == one.row() && same_key(one, want)
}

/// Returns the next needed step of a line: its first cell without an answer, where all answers before it accepted their whole
/// steps.
pub(crate) fn need<'a>(
    state: &'a [i64],
    line: &'a [Cell],
    slots: &'a [Option<Proven>],
) -> Option<Needed<'a>>
    ensures need { (code : List ℤ) → option_map (need_told code) result ≡ need_of code state.now line.now (filled slots.now) }
    ensures from { IfSome result (λ needed. needed.cells.now ≡ drop (length (filled slots.now)) line.now) }
    ensures some { IfSome result (λ needed. 1 ≤ length needed.cells.now) }
{
    match (line, slots) {
        ([_, cells @ ..], [Some(one), others @ ..]) => need(whole_state(one)?, cells, others),
        ([cell, ..], _) => Some(Needed {
            state,
            cell,
            cells: line,
        }),
        ([], _) => None,
    }
}

/// Returns whether the same step is needed.
pub(crate) fn is_same_need(one: Option<Needed<'_>>, other: Option<Needed<'_>>) -> bool
    ensures { (code : List ℤ) → result ≡ option_eq is_same_need (option_map (need_told code) one.entry) (option_map (need_told code) other.entry) }
{
    match (one, other) {
        (Some(one), Some(other)) => is_same_cell(one.cell, other.cell) && one.state == other.state,
        (None, None) => true,
        _ => false,
    }
}

/// Returns whether two cells are equal.
fn is_same_cell(one: &Cell, other: &Cell) -> bool
    ensures { result ≡ is_same_cell one.now other.now }
{
    (one.row, one.time, one.step) == (other.row, other.time, other.step)
        && one.inputs.as_slice() == other.inputs.as_slice()
}

/// Returns how many answers at the beginning have rows below this one.
fn below(row: u64, slots: &[Option<Proven>]) -> usize
    ensures count { result ≡ below row (filled slots.now) }
    ensures within { result ≤ length slots.now }
{
    match slots {
        [Some(one), others @ ..] if one.row() < row => 1 + below(row, others),
        _ => 0,
    }
}

/// Returns how many answers at the beginning have rows below the first planned one. For an empty line, which keeps none, it is 0.
pub(crate) fn passed(line: &[Cell], slots: &[Option<Proven>]) -> usize
    ensures count { result ≡ passed line.now (filled slots.now) }
    ensures within { result ≤ length slots.now }
{
    match line {
        [first, ..] => below(first.row, slots),
        [] => 0,
    }
}

/// Returns how many answers are a prefix of the chain of a line from a state on, matched in sequence.
pub(crate) fn matching(
    image: &Arc<Image>,
    state: &[i64],
    line: &[Cell],
    slots: &[Option<Proven>],
) -> usize
    ensures count { result ≡ length (matching (code_of image.now.value) (Some state.now) line.now (filled slots.now)) }
    ensures within_line { result ≤ length line.now }
    ensures within { result ≤ length slots.now }
{
    let ([cell, cells @ ..], [Some(one), others @ ..]) = (line, slots) else {
        return 0;
    };
    if !is_next(one, image, state, cell) {
        return 0;
    }
    match whole_state(one) {
        Some(after) => 1 + matching(image, after, cells, others),
        None => 1,
    }
}
