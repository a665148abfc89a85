//! Publishing lanes with a row, a state and a line that are given. It is tested here whether they fit, as the contract of a lane
//! requires.
ghost use Rattle.std.specs.Prelude.{◌≡◌, ◌+◌, true};
ghost use Rattle.std.specs.List.{AllByRecursion};
ghost use Rattle.guess_board.specs.Cells.{FitsCell, FitsLine, RisesFrom};

use fixed_words::List;
use guess_board::{Cell, Lane};
use std::alloc::Global;
use std::test::Fail;
use unit_exec::Image;

/// Times and steps here are at most this.
const LATEST: u64 = 1000;

/// Returns whether the rows of cells rise from a row on.
fn rises(row: u64, line: &[Cell]) -> bool
    ensures { result ≡ true → RisesFrom row line.now }
{
    match line {
        [cell, cells @ ..] => row <= cell.row && cell.row < LATEST && rises(cell.row + 1, cells),
        [] => true,
    }
}

/// Returns whether each cell has so many inputs, and ends within the range of times.
fn each_fits(inputs: u32, line: &[Cell]) -> bool
    ensures { result ≡ true → AllByRecursion (FitsCell inputs) line.now }
{
    match line {
        [cell, cells @ ..] => {
            cell.inputs.len() == inputs as usize
                && cell.time <= LATEST
                && cell.step <= LATEST
                && each_fits(inputs, cells)
        }
        [] => true,
    }
}

/// Returns whether a row, a state and a line fit an image.
fn fits(image: &Image, row: u64, state: &[i64], line: &[Cell]) -> bool
    ensures { result ≡ true → FitsLine image.now row state.now line.now }
{
    line.len() <= 16
        && state.len() == image.states() as usize
        && rises(row, line)
        && each_fits(image.inputs(), line)
}

/// Publishes a lane with a row, a state and a line that fit it.
pub(crate) fn publish(
    alloc: Global,
    lane: &mut Lane,
    row: u64,
    state: &[i64],
    line: Vec<Cell>,
) -> Result<u32, Fail> {
    if fits(lane.image(), row, state, &line) {
        Ok(lane.publish(alloc, row, state, line)?)
    } else {
        drop(line);
        Err("the front does not fit the lane")?
    }
}

/// Returns cells of rows. The time of each is the number of its row; it has a step of 1 and one input.
pub(crate) fn line(alloc: Global, rows: &[u32], input: i64) -> Result<Vec<Cell>, Fail> {
    let mut cells = Vec::new(alloc);
    for row in rows {
        cells.push(Cell {
            row: u64::from(*row),
            time: u64::from(*row),
            step: 1,
            inputs: List::from_slice(alloc, &[input])?,
        })?;
    }
    Ok(cells)
}
