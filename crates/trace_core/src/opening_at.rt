//! Runs that are opened at any position.
ghost use Rattle.std.specs.Prelude.{◌≡◌, ◌↔◌, true, false, length, IsTrue, IfOk, Err};
ghost use Rattle.std.specs.Option.{option_map};
ghost use Rattle.trace_core.specs.OpenedAt.{FitsNone, IsOpenedAt};
ghost use Rattle.trace_core.specs.Runs.{Stands};
ghost use Rattle.trace_core.specs.StateWords.{MayOpen, instance_states, states_in, system_states, with_words, words_behind};
ghost use Rattle.unit_tree.specs.Trace.{AreWordsOf};

use crate::run::Run;
use fixed_words::{NoMemory, fits};
use std::alloc::Global;
use std::sync::Arc;
use thiserror::Error;
use trace_plan::Plan;
use trace_units::Units;
use unit_tree::{Instance, Point, State, System};

/// Why a run was not opened at a position.
#[derive(Clone, Copy, Debug, PartialEq, Eq, Error)]
pub enum OpenFault {
    /// The run can't be at such a position.
    #[error("no position fits")]
    Misfit,
    #[error("no memory")]
    NoMemory,
}

impl From<NoMemory> for OpenFault {
    ghost use Rattle.std.specs.Prelude.{◌≡◌};
    ghost use Rattle.trace_core.specs.declared.opening_at.OpenFault.TheVariants.{NoMemory};

    ghost from_gives = { λ _ fault. fault ≡ NoMemory };

    fn from(_: NoMemory) -> OpenFault {
        OpenFault::NoMemory
    }
}

/// Returns the states of an instance.
fn instance_states<'s>(system: &'s System, instance: &Instance) -> &'s [State]
    ensures { result.now ≡ instance_states system.now instance.now }
{
    match system.unit_of(instance) {
        Some(unit) => unit.states.as_slice(),
        None => &[],
    }
}

/// Takes one word for each state, and returns the other words. `None` where a word is missing or is not of its type.
fn words_behind<'w>(states: &[State], words: &'w [i64]) -> Option<&'w [i64]>
    ensures { option_map (λ behind. behind.now) result ≡ words_behind states.now words.now }
{
    let mut rest = words;
    for state in states {
        match rest {
            [word, behind @ ..] if fits(state.ty, *word) => rest = behind,
            _ => return None,
        }
    }
    Some(rest)
}

/// The same for the states of all instances.
fn words_behind_all<'w>(system: &System, words: &'w [i64]) -> Option<&'w [i64]>
    ensures { option_map (λ behind. behind.now) result ≡ words_behind (system_states system.now) words.now }
{
    let mut rest = words;
    for instance in system.instances.as_slice() {
        rest = words_behind(instance_states(system, instance), rest)?;
    }
    Some(rest)
}

/// Returns whether there is exactly one word for each state of each instance, of its type.
fn are_state_words(plan: &Plan, words: &[i64]) -> bool
    ensures { IsTrue result ↔ AreWordsOf (states_in plan.now.run.members) words.now }
{
    match words_behind_all(plan.checked().system(), words) {
        Some(rest) => rest.is_empty(),
        None => false,
    }
}

/// Returns whether a run of the plan may have this position.
fn may_open(plan: &Plan, row: u64, point: Point, words: &[i64]) -> bool
    ensures may { result ≡ true → MayOpen plan.now.run row point words.now }
    ensures may_not { result ≡ false → FitsNone plan.now.run row point words.now }
{
    point.t <= plan.stop()
        && point.n <= plan.zero_budget()
        && row < plan.row_limit()
        && are_state_words(plan, words)
}

/// Sets the states of all units to these words. Each unit takes as many as it has states, in turn.
fn restore_words(units: &mut Units, words: &[i64])
    requires { length words.now ≡ length (states_in units.old.plan.run.members) }
    ensures { units.new ≡ with_words units.old words.now }
{
    let mut rest = words;
    for instance in 0..units.count() {
        let (state, behind) = rest.split_at(units.state(instance).len());
        units.restore(instance, state);
        rest = behind;
    }
}

impl Run {
    /// Returns the run of a plan, opened at the position with this row and this point. `states` has the words of all states, by instance
    /// and then by declaration. The position may be on the trace or not.
    ///
    /// # Errors
    ///
    /// [`OpenFault::Misfit`] exactly where there is no such position. Then the words are not one for each state, of its type; the point is
    /// after the stop; its index is above the zero budget; or the row is not within the budget of rows.
    /// [`OpenFault::NoMemory`] where memory is refused.
    pub fn open_at(
        alloc: Global,
        plan: Arc<Plan>,
        row: u64,
        point: Point,
        states: &[i64],
    ) -> Result<Run, OpenFault>
        ensures opened { IfOk result (IsOpenedAt plan.value row point states.now) }
        ensures stands { IfOk result Stands }
        ensures misfit { result ≡ Err OpenFault.Misfit → FitsNone plan.value.run row point states.now }
    {
        // Called for its clause, which states the invariants of a plan.
        let _ = plan.checked();
        if !may_open(&plan, row, point, states) {
            return Err(OpenFault::Misfit);
        }
        let shared = Arc::clone(&plan)?;
        let mut units = Units::new(alloc, shared)?;
        restore_words(&mut units, states);
        Ok(Run::open_from(alloc, plan, units, point, row)?)
    }
}
