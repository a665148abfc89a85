//! Rules on the lines that set the limits of a run: 19 (`stop`), 20 (times), 21 (rows) and 23 (instances).
ghost use Rattle.std.specs.Prelude.{◌≡◌, max};
ghost use Rattle.unit_check.specs.Ranges.{is_length_read, has_few_places, mistimes_at};
ghost use Rattle.unit_check.specs.Walks.{form_of};
ghost use Rattle.unit_tree.specs.WellFormed.{lacks_stop, lacks_instance, has_too_many_rows, resolution_of, unit_resolution};
ghost use Rattle.unit_tree.specs.Names.{unit_of_instance};

use crate::walk::FormRef;
use fixed_words::Literal;
use model_rules::MOST_CELLS;
use super_time::read_seconds;
use unit_names::SystemNames;
use unit_tree::Instance;

/// Rule 19: whether there is no `stop`. The header breaks this rule.
pub(crate) fn lacks_stop(names: &SystemNames<'_>, line: FormRef<'_>) -> bool
    ensures { result ≡ lacks_stop names.now (form_of line.entry) }
{
    match line {
        FormRef::Header(_) => names.system().stop.is_none(),
        _ => false,
    }
}

/// Rule 23: whether there is no instance. The header breaks this rule.
pub(crate) fn lacks_instance(names: &SystemNames<'_>, line: FormRef<'_>) -> bool
    ensures { result ≡ lacks_instance names.now (form_of line.entry) }
{
    match line {
        FormRef::Header(_) => names.system().instances.is_empty(),
        _ => false,
    }
}

/// Rule 21: whether there are too many rows for this many instances. The `rows` line breaks this rule.
pub(crate) fn has_too_many_rows(names: &SystemNames<'_>, line: FormRef<'_>) -> bool
    ensures { result ≡ has_too_many_rows names.now (form_of line.entry) }
{
    match line {
        FormRef::Rows(count) => {
            u128::from(count) * names.system().instances.len() as u128 > u128::from(MOST_CELLS)
        }
        _ => false,
    }
}

/// The resolution of an instance's unit; 0 where there is none.
fn instance_resolution(names: &SystemNames<'_>, instance: &Instance) -> u8
    ensures { result ≡ unit_resolution (unit_of_instance names.now instance.now) }
{
    match names.unit_of(instance) {
        Some(unit) => unit.unit().resolution.unwrap_or(0),
        None => 0,
    }
}

/// The resolution of a system.
fn resolution(names: &SystemNames<'_>) -> u8
    ensures { result ≡ resolution_of names.now }
{
    let mut greatest = 0;
    for instance in names.system().instances.as_slice() {
        greatest = instance_resolution(names, instance).max(greatest);
    }
    greatest
}

fn has_few_places(seconds: Literal) -> bool
    ensures { result ≡ has_few_places seconds }
{
    match seconds {
        Literal::Truth(_) => true,
        Literal::Number { word: _, decimals } => decimals <= 9,
    }
}

/// Whether seconds are a whole number of ticks, at least `least` and at most 10^15.
fn is_length(least: u64, resolution: u8, seconds: Literal) -> bool
    ensures { result ≡ is_length_read least resolution seconds }
{
    if resolution > 9 || !has_few_places(seconds) {
        return false;
    }
    match read_seconds(resolution, seconds) {
        Ok(ticks) => least <= ticks,
        Err(_) => false,
    }
}

/// Rule 20: whether `stop` or `longest` is not a whole number of ticks, or not in its range.
pub(crate) fn mistimes(names: &SystemNames<'_>, line: FormRef<'_>) -> bool
    ensures { result ≡ mistimes_at names.now (form_of line.entry) }
{
    match line {
        FormRef::Stop(seconds) => !is_length(0, resolution(names), seconds),
        FormRef::Longest(seconds) => !is_length(1, resolution(names), seconds),
        _ => false,
    }
}
