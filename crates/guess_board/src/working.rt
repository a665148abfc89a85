//! Answering tickets.
ghost use Rattle.std.specs.Prelude.{◌≡◌, ◌++◌, take, length, IfOk, OnOk, OnErr};
ghost use Rattle.std.specs.List.{AllByRecursion};
ghost use Rattle.std.specs.Option.{option_map};
ghost use Rattle.guess_board.specs.Cells.{FitsCell};
ghost use Rattle.guess_board.specs.Chains.{chain_of, code_of, whole_state};
ghost use Rattle.guess_board.specs.Lanes.{FitsImage};
ghost use Rattle.guess_board.specs.Working.{AppendsPrefixOf};

use crate::cell::Cell;
use crate::needs::whole_state;
use crate::ticket::Ticket;
use fixed_words::NoMemory;
use std::alloc::Global;
use std::sync::Arc;
use unit_answers::{Proven, prove};
use unit_exec::{Image, Unit, Want};

/// Returns the state after an answer that accepted its whole step, copied.
fn state_after(alloc: Global, one: &Proven) -> Result<Option<Vec<i64>>, NoMemory>
    ensures { IfOk result (λ after. option_map (λ state. state.items) after ≡ whole_state one.now) }
{
    match whole_state(one) {
        Some(state) => Ok(Some(Vec::from_slice(alloc, state)?)),
        None => Ok(None),
    }
}

/// Appends the chain of some cells from a state.
fn append_chain(
    alloc: Global,
    unit: &mut Unit,
    image: &Arc<Image>,
    state: &[i64],
    cells: &[Cell],
    answers: &mut Vec<Proven>,
) -> Result<(), NoMemory>
    requires code { unit.old.image.program ≡ image.now.value.program }
    requires each_state { length state.now ≡ image.now.value.program.sizes.states }
    requires cells { AllByRecursion (FitsCell image.now.value.program.sizes.inputs) cells.now }
    ensures whole { OnOk result (answers.new.items ≡ answers.old.items ++ chain_of (code_of image.now.value) state.now cells.now) }
    ensures front { OnErr result (AppendsPrefixOf answers.old.items (chain_of (code_of image.now.value) state.now cells.now) answers.new.items) }
    ensures image { unit.new.image ≡ unit.old.image }
{
    let [cell, others @ ..] = cells else {
        return Ok(());
    };
    let want = Want {
        row: cell.row,
        image,
        state,
        inputs: cell.inputs.as_slice(),
        time: cell.time,
        step: cell.step,
    };
    let one = prove(alloc, unit, want)?;
    // Called for their clauses, which state that the answer is proven.
    let _ = one.answer();
    let after = state_after(alloc, &one)?;
    answers.push(one)?;
    match after {
        Some(state) => append_chain(alloc, unit, image, &state, others, answers),
        None => Ok(()),
    }
}

/// Answers a ticket: appends the answers to its first cells, at most `most` of them, each made from the state after the one before.
/// It ends after the first that is a fault or accepts less than its step. The unit has to be one of the code of the image that the
/// ticket fits. Afterwards its state and inputs are unspecified.
///
/// # Errors
///
/// [`NoMemory`]. Then a prefix of these answers was appended to `answers`.
pub fn work_off(
    alloc: Global,
    unit: &mut Unit,
    image: &Arc<Image>,
    ticket: &Ticket,
    most: u32,
    answers: &mut Vec<Proven>,
) -> Result<(), NoMemory>
    requires code { unit.old.image.program ≡ image.now.value.program }
    requires fits { FitsImage image.now.value ticket.now }
    ensures whole { OnOk result (answers.new.items ≡ answers.old.items ++ chain_of (code_of image.now.value) ticket.now.start (take most ticket.now.cells)) }
    ensures front { OnErr result (AppendsPrefixOf answers.old.items (chain_of (code_of image.now.value) ticket.now.start (take most ticket.now.cells)) answers.new.items) }
    ensures image { unit.new.image ≡ unit.old.image }
{
    let cells = ticket.cells();
    let (first, _) = cells.split_at(cells.len().min(most as usize));
    append_chain(alloc, unit, image, ticket.start(), first, answers)
}
