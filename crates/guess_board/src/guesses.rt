//! Guessed lines.
ghost use Rattle.std.specs.Prelude.{◌≡◌, ◌≤◌, ◌<◌, ◌+◌, ◌^◌, ◌++◌, length, IfOk, OnOk};
ghost use Rattle.std.specs.List.{AllByRecursion};
ghost use Rattle.guess_board.specs.Cells.{FitsCell, RisesFrom};
ghost use Rattle.guess_board.specs.Guesses.{cells_of_step, go_on, guessed_line, inputs_are, is_planned, seen_of, IsOutlook};
ghost use Rattle.word_lanes.specs.Guess.{guesses, EachAtMost};
ghost use Rattle.model_rules.specs.Limits.{window_limit};

use crate::cell::Cell;
use fixed_words::{List, NoMemory};
use std::alloc::Global;
use std::mem::replace;
use super_time::{local_step, local_time};
use word_lanes::extrapolate;

/// How the words of inputs are guessed.
#[derive(Clone, Copy, Debug, PartialEq, Eq)]
pub enum Policy {
    /// They stay unchanged.
    Hold,
    /// Each continues in a straight line: the sum wraps to 64 bits, and is then clamped to the range of its type.
    Linear,
}

/// What is known of a component at a row. Times and steps are in ticks of the system.
#[derive(Clone, Copy)]
pub struct Outlook<'a> {
    /// The number of the row in its run.
    pub row: u64,
    /// The time there.
    pub t: u64,
    /// The step from there.
    pub step: u64,
    /// Where the run stops.
    pub stop: u64,
    /// How many ticks of the system a local tick of the component is.
    pub factor: u64,
    /// The words of the inputs there.
    pub last: &'a [i64],
    /// The words of the inputs at the row before.
    pub before: &'a [i64],
    /// The least words of the types of the inputs.
    pub low: &'a [i64],
    /// The greatest words of the types of the inputs.
    pub high: &'a [i64],
}

/// Returns whether a row at a time is planned, after so many rows.
fn is_planned(t: u64, step: u64, stop: u64, rows: u32) -> bool
    ensures { result ≡ is_planned t step stop rows }
{
    t < stop && (step != 0 || rows == 0)
}

/// Adds the cell of a step to a line, where a local tick ends in the step or its length is 0.
fn plan(
    alloc: Global,
    line: &mut Vec<Cell>,
    row: u64,
    t: u64,
    step: u64,
    factor: u64,
    words: &[i64],
) -> Result<(), NoMemory>
    requires factor { 1 ≤ factor }
    requires end { t + step ≤ 10 ^ 15 }
    ensures { OnOk result (line.new.items ≡ line.old.items ++ cells_of_step row t step factor words.now) }
{
    let local = local_step(factor, t, step);
    if step > 0 && local == 0 {
        return Ok(());
    }
    let inputs = List::from_slice(alloc, words)?;
    line.push(Cell {
        row,
        time: local_time(factor, t),
        step: local,
        inputs,
    })?;
    Ok(())
}

/// Computes the words of inputs that continue in straight lines.
fn straight_on(
    alloc: Global,
    words: &[i64],
    before: &[i64],
    low: &[i64],
    high: &[i64],
) -> Result<Vec<i64>, NoMemory>
    requires before_length { length before.now ≡ length words.now }
    requires low_length { length low.now ≡ length words.now }
    requires high_length { length high.now ≡ length words.now }
    requires intervals { EachAtMost low.now high.now }
    ensures { IfOk result (λ next. next.items ≡ guesses words.now before.now low.now high.now) }
{
    let mut next = Vec::from_slice(alloc, words)?;
    extrapolate(words, before, low, high, &mut next);
    Ok(next)
}

/// Goes on to the words of inputs at the next row.
fn go_on(
    alloc: Global,
    policy: Policy,
    low: &[i64],
    high: &[i64],
    words: &mut Vec<i64>,
    before: &mut Vec<i64>,
) -> Result<(), NoMemory>
    requires before_length { length before.old.items ≡ length words.old.items }
    requires low_length { length low.now ≡ length words.old.items }
    requires high_length { length high.now ≡ length words.old.items }
    requires intervals { EachAtMost low.now high.now }
    ensures { OnOk result (inputs_are words.new.items before.new.items ≡ go_on policy low.now high.now (inputs_are words.old.items before.old.items)) }
{
    match policy {
        Policy::Hold => Ok(()),
        Policy::Linear => {
            let next = straight_on(alloc, words, before, low, high)?;
            *before = replace(words, next);
            Ok(())
        }
    }
}

/// Returns the line that is guessed for a component from a row on: at most one cell for each of `window` rows before the stop,
/// whose steps are all as long as the first one. A row has no cell where no local tick of the component ends in its step, unless
/// the step has length 0.
pub fn guess_line(
    alloc: Global,
    policy: Policy,
    window: u32,
    seen: Outlook<'_>,
) -> Result<Vec<Cell>, NoMemory>
    requires window { window ≤ window_limit }
    requires outlook { IsOutlook (seen_of seen) }
    ensures line { IfOk result (λ line. line.items ≡ guessed_line policy (seen_of seen.entry) window) }
    ensures rises { IfOk result (λ line. RisesFrom seen.entry.row line.items) }
    ensures few { IfOk result (λ line. length line.items ≤ window) }
    ensures cells { IfOk result (λ line. AllByRecursion (FitsCell (length seen.entry.last.now)) line.items) }
{
    let mut line = Vec::with_capacity(alloc, window as usize)?;
    let mut words = Vec::from_slice(alloc, seen.last)?;
    let mut before = Vec::from_slice(alloc, seen.before)?;
    let mut t = seen.t;
    for j in 0..window {
        if !is_planned(t, seen.step, seen.stop, j) {
            return Ok(line);
        }
        let step = seen.step.min(seen.stop - t);
        let row = seen.row + u64::from(j);
        plan(alloc, &mut line, row, t, step, seen.factor, &words)?;
        go_on(alloc, policy, seen.low, seen.high, &mut words, &mut before)?;
        t += seen.step;
    }
    Ok(line)
}
