//! Rule 16: how many of a kind there may be.
ghost use Rattle.std.specs.Prelude.{◌≡◌, ◌+◌, ◌-◌, ◌*◌, nat_lt, length};
ghost use Rattle.unit_check.specs.Counts.{exceeds_in_unit, exceeds_on_top, exceeds_at};
ghost use Rattle.unit_check.specs.Walks.{scope_of, form_of};

use crate::tables::SystemTables;
use crate::walk::{FormRef, ScopeRef};
use model_rules::{
    MOST_INPUTS, MOST_INSTANCES, MOST_LOCALS, MOST_OUTPUTS, MOST_PARAMS, MOST_SAMPLES, MOST_STATES,
    MOST_UNITS,
};
use unit_tree::Unit;

/// The place among inputs and outputs, from the place among all declarations of a unit.
fn behind_locals(unit: &Unit, place: usize) -> usize
    ensures { result ≡ place - length unit.now.params - length unit.now.states - length unit.now.locals }
{
    place
        .saturating_sub(unit.params.len())
        .saturating_sub(unit.states.len())
        .saturating_sub(unit.locals.len())
}

/// The place among outputs, from the place among all declarations of a unit.
fn behind_inputs(unit: &Unit, place: usize) -> usize
    ensures { result
        ≡ place - length unit.now.params - length unit.now.states - length unit.now.locals - length unit.now.inputs - length unit.now.events_in }
{
    behind_locals(unit, place)
        .saturating_sub(unit.inputs.len())
        .saturating_sub(unit.events_in.len())
}

/// Whether this many plain ports, and event ports up to a place, are together more than the limit. An event port counts
/// as two.
fn are_too_many_ports(limit: usize, plain: usize, place: usize) -> bool
    ensures { result ≡ nat_lt limit (plain + 2 * (place + 1)) }
{
    plain as u128 + 2 * (place as u128 + 1) > limit as u128
}

/// Rule 16, in a unit: whether there are too many declarations of the line's sort, up to the line.
fn exceeds_in_unit(unit: &Unit, place: usize, line: FormRef<'_>) -> bool
    ensures { result ≡ exceeds_in_unit unit.now place (form_of line.entry) }
{
    match line {
        FormRef::Param(_) => place >= MOST_PARAMS,
        FormRef::State(_) => place.saturating_sub(unit.params.len()) >= MOST_STATES,
        FormRef::Local(_) => {
            place
                .saturating_sub(unit.params.len())
                .saturating_sub(unit.states.len())
                >= MOST_LOCALS
        }
        FormRef::Input(_) => behind_locals(unit, place) >= MOST_INPUTS,
        FormRef::EventInput(_) => are_too_many_ports(
            MOST_INPUTS,
            unit.inputs.len(),
            behind_locals(unit, place).saturating_sub(unit.inputs.len()),
        ),
        FormRef::Output(_) => behind_inputs(unit, place) >= MOST_OUTPUTS,
        FormRef::EventOutput(_) => are_too_many_ports(
            MOST_OUTPUTS,
            unit.outputs.len(),
            behind_inputs(unit, place).saturating_sub(unit.outputs.len()),
        ),
        _ => false,
    }
}

/// Rule 16, outside blocks: whether there are too many units, instances, connections or samples, up to the line.
fn exceeds_on_top(tables: &SystemTables<'_>, place: usize, line: FormRef<'_>) -> bool
    ensures { result ≡ exceeds_on_top tables.now place (form_of line.entry) }
{
    match line {
        FormRef::Unit(_) => place >= MOST_UNITS,
        FormRef::Instance(_) => place >= MOST_INSTANCES,
        FormRef::Connect(_) => tables.has_too_many_wires(place),
        FormRef::Sample(_) => place >= MOST_SAMPLES,
        _ => false,
    }
}

/// Rule 16: whether there are too many of the line's kind, up to the line.
pub(crate) fn exceeds(
    tables: &SystemTables<'_>,
    scope: ScopeRef<'_, '_>,
    place: usize,
    line: FormRef<'_>,
) -> bool
    ensures { result ≡ exceeds_at tables.now (scope_of scope.entry) place (form_of line.entry) }
{
    match scope {
        ScopeRef::Top => exceeds_on_top(tables, place, line),
        ScopeRef::Unit(unit) => exceeds_in_unit(unit.unit(), place, line),
        ScopeRef::Step(_) => place >= 500,
        ScopeRef::Instance(_) => false,
    }
}
