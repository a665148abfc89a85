//! Answers, each of which is made by a unit of its own.
ghost use Rattle.std.specs.Prelude.{◌≡◌, ◌≤◌};
ghost use Rattle.code_units.specs.Calls.{HasWordsFor};

use fixed_words::NoMemory;
use std::alloc::Global;
use std::sync::Arc;
use std::test::Fail;
use trace_core::Run;
use unit_answers::{Proven, prove};
use unit_exec::{Unit, Want};

/// The greatest time and step here.
const LATEST: u64 = 1000;

/// Returns the required step of an instance.
pub(crate) fn want_of(run: &Run, instance: u32) -> Result<Want<'_>, Fail> {
    match run.wants(instance) {
        Some(want) => Ok(want),
        None => Err("no step is wanted")?,
    }
}

/// Returns the answer to a step, made by a unit of its code after another step.
fn answer_after(alloc: Global, unit: &mut Unit, want: Want<'_>) -> Result<Proven, NoMemory>
    requires code { unit.old.image.program ≡ want.image.now.value.program }
    requires words { HasWordsFor want.image.now.value.program want.state.now want.inputs.now }
    requires time { want.time ≤ 1000 }
    requires step { want.step ≤ 1000 }
{
    drop(prove(alloc, unit, Want { step: 9, ..want })?);
    prove(alloc, unit, want)
}

/// Returns the answer to a step, made by a unit of its code that made another step before.
pub(crate) fn answer_to(alloc: Global, want: Want<'_>) -> Result<Proven, Fail> {
    let fits = want.state.len() == want.image.states() as usize
        && want.inputs.len() == want.image.inputs() as usize
        && want.time <= LATEST
        && want.step <= LATEST;
    if !fits {
        Err("the words don't fit the code")?;
    }
    let mut unit = Unit::new(alloc, Arc::clone(want.image)?)?;
    let made = answer_after(alloc, &mut unit, want);
    drop(unit);
    Ok(made?)
}
