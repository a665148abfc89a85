//! What is made once for a node.
ghost use Rattle.std.specs.Prelude.{◌≡◌, ◌≤◌, [], false, map, replicate, vec_capacity, None, IfOk};
ghost use Rattle.link_core.specs.Noted.{making_in};
ghost use Rattle.link_core.specs.Ready.{shown_in};
ghost use Rattle.port_solve.specs.Solved.{HaveTheirWords};
ghost use Rattle.unit_tree.specs.Successor.{first_position};

use crate::course::{NodePosition, Shown};
use crate::notes::Notes;
use fixed_words::NoMemory;
use port_solve::set_starts;
use std::alloc::Global;
use std::sync::Arc;
use super_time::Point;
use trace_plan::Plan;
use trace_units::Units;

/// Returns a list with so many copies of one value.
fn filled<T: Copy>(alloc: Global, count: usize, value: T) -> Result<Vec<T>, NoMemory>
    ensures { IfOk result (λ made. made.items ≡ replicate count value) }
{
    let mut made = Vec::with_capacity(alloc, count)?;
    for _place in 0..count {
        made.push(value)?;
    }
    Ok(made)
}

/// Returns notes of so many outputs and instances, of which nothing is known.
pub(crate) fn notes_of(alloc: Global, places: usize, instances: usize) -> Result<Notes, NoMemory>
    ensures made { IfOk result (λ notes. making_in notes ≡ record {
      known = record {
        words = replicate places None;
        limits = replicate instances None;
        replies = replicate instances None;
        redos = replicate instances None;
      };
      facts = [];
    }) }
    ensures defined { IfOk result (λ notes. notes.defined.items ≡ replicate places false) }
{
    Ok(Notes {
        words: filled(alloc, places, None)?,
        limits: filled(alloc, instances, None)?,
        replies: filled(alloc, instances, None)?,
        redos: filled(alloc, instances, None)?,
        defined: filled(alloc, places, false)?,
        facts: Vec::new(alloc),
    })
}

/// Returns a course at its start, with space for a row of so many words.
pub(crate) fn course_of(alloc: Global, places: usize) -> Result<NodePosition, NoMemory>
    ensures point { IfOk result (λ course. course.point ≡ record { t = 0; n = 0 }) }
    ensures number { IfOk result (λ course. course.number ≡ 0) }
    ensures ended { IfOk result (λ course. course.ended ≡ None) }
    ensures shown { IfOk result (λ course. shown_in course.shown ≡ None) }
    ensures room { IfOk result (λ course. places ≤ vec_capacity course.shown.words) }
{
    let words = Vec::with_capacity(alloc, places)?;
    let point = Point { t: 0, n: 0 };
    Ok(NodePosition {
        point,
        number: 0,
        ended: None,
        shown: Shown {
            there: false,
            point,
            words,
        },
    })
}

/// Returns the states of all units.
pub(crate) fn states_of(alloc: Global, units: &Units) -> Result<Vec<Vec<i64>>, NoMemory>
    ensures { IfOk result (λ states. map (λ one. one.items) states.items ≡ units.now.states) }
{
    let mut states = Vec::new(alloc);
    for instance in 0..units.count() {
        states.push(Vec::from_slice(alloc, units.state(instance))?)?;
    }
    Ok(states)
}

/// Sets the inputs of units that have no connection.
fn set_inputs(plan: &Plan, units: &mut Units)
    requires tied { units.old.plan ≡ plan.now }
    ensures plan { units.new.plan ≡ units.old.plan }
    ensures states { units.new.states ≡ units.old.states }
    ensures words { HaveTheirWords plan.now.run [] units.new.inputs }
{
    // Called for its clauses, which state the shape of the units, before and after.
    let _ = units.count();
    set_starts(plan.order(), plan.checked(), units);
    let _ = units.count();
}

/// Returns the units of a plan at their start.
pub(crate) fn units_of(alloc: Global, plan: &Plan, shared: Arc<Plan>) -> Result<Units, NoMemory>
    requires shared { shared.value ≡ plan.now }
    ensures plan { IfOk result (λ units. units.plan ≡ plan.now) }
    ensures states { IfOk result (λ units. units.states ≡ (first_position plan.now.run).states) }
    ensures words { IfOk result (λ units. HaveTheirWords plan.now.run [] units.inputs) }
{
    let mut units = Units::new(alloc, shared)?;
    set_inputs(plan, &mut units);
    Ok(units)
}
