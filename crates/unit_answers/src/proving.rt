//! Making the step of a key.
ghost use Rattle.std.specs.Prelude.{◌≡◌, ◌+◌, ◌≤◌, ◌^◌, length, IfOk};
ghost use Rattle.code_units.specs.Calls.{HasWordsFor};
ghost use Rattle.unit_answers.specs.Keys.{key_of};
ghost use Rattle.unit_answers.specs.Proving.{IsStepOf};

use crate::answer::Answer;
use crate::key::Key;
use crate::proven::Proven;
use fixed_words::{List, NoMemory};
use std::alloc::Global;
use unit_exec::{Unit, Want};

/// Sets the state of a unit and the words of its inputs. `count` is the number of inputs.
fn give(unit: &mut Unit, state: &[i64], inputs: &[i64], count: u32)
    requires words { HasWordsFor unit.old.image.program state.now inputs.now }
    requires count { count ≡ length inputs.now }
    ensures { unit.new ≡ record unit.old { state = state.now; inputs = inputs.now } }
{
    // Called for their clauses, which state how many words a unit has.
    let _ = unit.state();
    let _ = unit.inputs();
    unit.restore(state);
    for input in 0..count {
        unit.set(input, inputs[input as usize]);
    }
}

/// Steps a unit from its present state, and returns the result of the step.
fn step(alloc: Global, unit: &mut Unit, time: u64, step: u64) -> Result<Answer, NoMemory>
    requires { time + step ≤ 10 ^ 15 }
    ensures answer { IfOk result (IsStepOf unit.old time step) }
    ensures image { unit.new.image ≡ unit.old.image }
{
    match unit.do_step(time, step) {
        Ok(accepted) => Ok(Answer::Moved {
            state: List::from_slice(alloc, unit.state())?,
            accepted,
        }),
        Err(fault) => Ok(Answer::Failed { fault }),
    }
}

/// Returns the proven answer to a required step, which may be a fault of the component. `unit` has to be one of its code.
/// The words may be out of the ranges of their types: a key has a meaning for any words. Afterwards the state and the inputs of
/// the unit are unspecified. It takes memory for the words of the key and of the answer.
pub fn prove(alloc: Global, unit: &mut Unit, want: Want<'_>) -> Result<Proven, NoMemory>
    requires code { unit.old.image.program ≡ want.image.now.value.program }
    requires words { HasWordsFor want.image.now.value.program want.state.now want.inputs.now }
    requires end { want.time + want.step ≤ 10 ^ 15 }
    ensures row { IfOk result (λ one. one.row ≡ want.entry.row) }
    ensures key { IfOk result (λ one. one.key ≡ key_of want.entry) }
    ensures image { unit.new.image ≡ unit.old.image }
{
    // Called for their clauses, which state that the code is valid.
    let _ = want.image.code().facts();
    let key = Key::of(alloc, want)?;
    give(unit, want.state, want.inputs, want.image.inputs());
    let answer = step(alloc, unit, want.time, want.step)?;
    Ok(Proven {
        row: want.row,
        key,
        answer,
    })
}
