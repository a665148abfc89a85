//! Runs that are opened at saved positions.
ghost use Rattle.std.specs.Prelude.{◌≡◌, ◌↔◌, ◌<◌, length, map, Err, IfOk, IsTrue};
ghost use Rattle.save_point.specs.Reading.{same_names};
ghost use Rattle.save_point.specs.Saving.{FitsNone, IsOpenedBy};
ghost use Rattle.trace_core.specs.Runs.{Stands};

use crate::reading::Saved;
use std::alloc::Global;
use std::sync::Arc;
use trace_core::{OpenFault, Plan, Run};
use unit_tree::{Instance, Name};

/// Returns whether names are those of instances, one by one.
fn same_names(names: &[Name], instances: &[Instance]) -> bool
    ensures { result ≡ same_names names.now instances.now }
{
    match names {
        [] => instances.is_empty(),
        [name, names @ ..] => match instances {
            [] => false,
            [instance, instances @ ..] => {
                name.as_slice() == instance.name.as_slice() && same_names(names, instances)
            }
        },
    }
}

/// Returns whether names are those of instances, in their order.
fn are_names(names: &[Name], instances: &[Instance]) -> bool
    ensures { IsTrue result ↔ (names.now ≡ map (λ instance. instance.name) instances.now) }
{
    same_names(names, instances)
}

/// Returns whether the state of each instance has as many words as its count says.
fn are_counts(run: &Run, counts: &[u32], instances: u32) -> bool
    requires { instances ≡ length run.now.plan.run.members }
    ensures { IsTrue result ↔ (counts.now ≡ map length run.now.stand.at.states) }
{
    // Called for its clauses, which state the invariant of a run.
    let _ = run.phase();
    if counts.len() != instances as usize {
        return false;
    }
    for instance in 0..instances {
        if run.state(instance).len() != counts[instance as usize] as usize {
            return false;
        }
    }
    true
}

/// Opens the run of a plan at the position that was read.
///
/// # Errors
///
/// [`OpenFault::Misfit`] exactly where a run of the plan can be at no such position. Then the names aren't those of its instances in
/// their order, an instance has another number of words, or [`Run::open_at`] returns the same fault.
/// [`OpenFault::NoMemory`] where memory is refused.
pub fn open_saved(alloc: Global, plan: Arc<Plan>, saved: &Saved) -> Result<Run, OpenFault>
    ensures opened { IfOk result (IsOpenedBy plan.value saved.now) }
    ensures stands { IfOk result Stands }
    ensures misfit { result ≡ Err OpenFault.Misfit → FitsNone plan.value saved.now }
{
    if !are_names(
        saved.names.as_slice(),
        plan.checked().source().instances.as_slice(),
    ) {
        return Err(OpenFault::Misfit);
    }
    let instances = plan.instances();
    let states = saved.states.as_slice();
    let run = Run::open_at(alloc, plan, saved.row, saved.point, states)?;
    if are_counts(&run, saved.counts.as_slice(), instances) {
        Ok(run)
    } else {
        Err(OpenFault::Misfit)
    }
}
