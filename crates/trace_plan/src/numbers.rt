//! The numbers of a run, in ticks of its system.
ghost use Rattle.std.specs.Prelude.{◌≡◌, ◌≤◌, ◌^◌, ◌-◌, length, unwrap_or};
ghost use Rattle.std.specs.Option.{IfSome, option_map};
ghost use Rattle.trace_plan.specs.Keeps.{AreNumbersOf};
ghost use Rattle.trace_plan.specs.Lengths.{IsReadable};
ghost use Rattle.model_rules.specs.Limits.{default_zeros};
ghost use Rattle.unit_tree.specs.Compositions.{ticks_or, default_rows, run_of};
ghost use Rattle.unit_tree.specs.WellFormed.{unit_resolution, resolution_of};

use fixed_words::{Literal, ten_to_the};
use model_rules::{
    DEFAULT_ROWS_WITH_EVENTS, DEFAULT_ZERO_STEPS, DEFAULT_ZERO_STEPS_WITH_EVENTS, MOST_CELLS,
    MOST_ROWS,
};
use super_time::read_seconds;
use unit_tree::{Checked, System, Unit};

/// The resolution of a system and the other numbers of its run: the stop and the longest step, in ticks, and the two budgets.
#[derive(Clone, Copy, Drop)]
pub(crate) struct Numbers {
    pub(crate) resolution: u8,
    pub(crate) stop: u64,
    pub(crate) longest: u64,
    pub(crate) zero_budget: u64,
    pub(crate) row_limit: u64,
}

/// Returns how many ticks of a system of a resolution one local tick of a unit is.
pub(crate) fn factor(resolution: u8, unit: &Unit) -> u64
    requires { resolution ≤ 9 }
    ensures power { result ≡ 10 ^ (resolution - unwrap_or unit.now.resolution 0) }
    ensures least { 1 ≤ result }
    ensures greatest { result ≤ 10 ^ 9 }
{
    let own = unit.resolution.unwrap_or(0);
    u64::from(ten_to_the(resolution.saturating_sub(own)))
}

/// Returns the resolution of a unit, or 0 where there is no unit.
fn unit_resolution(unit: Option<&Unit>) -> u8
    ensures { result ≡ unit_resolution (option_map (λ unit. unit.now) unit.entry) }
{
    match unit {
        Some(unit) => unit.resolution.unwrap_or(0),
        None => 0,
    }
}

/// Returns the resolution of a system: the greatest of its instances' units.
pub(crate) fn resolution(system: &System) -> u8
    ensures { result ≡ resolution_of system.now }
{
    let mut most = 0;
    for instance in system.instances.as_slice() {
        most = most.max(unit_resolution(system.unit_of(instance)));
    }
    most
}

/// Returns a judged length in ticks, or the default where no length is given.
fn ticks_or(default: u64, resolution: u8, seconds: Option<Literal>) -> u64
    requires decimals { resolution ≤ 9 }
    requires readable { IfSome seconds (IsReadable resolution) }
    ensures { result ≡ ticks_or default resolution seconds }
{
    match seconds {
        None => default,
        Some(seconds) => read_seconds(resolution, seconds).unwrap_or(0),
    }
}

/// Returns the zero budget: how many steps of length zero may follow each other.
fn zero_budget(system: &System) -> u64
    ensures { result ≡ unwrap_or system.now.zero (default_zeros system.now.version) }
{
    match system.zero {
        Some(count) => u64::from(count),
        None if system.version == 2 => u64::from(DEFAULT_ZERO_STEPS_WITH_EVENTS),
        None => u64::from(DEFAULT_ZERO_STEPS),
    }
}

/// Returns the greatest number of rows of a trace, where the text gives none.
fn default_rows(version: u8, instances: u64) -> u64
    requires { 1 ≤ instances }
    ensures { result ≡ default_rows version instances }
{
    let most = if version == 2 {
        DEFAULT_ROWS_WITH_EVENTS
    } else {
        MOST_ROWS
    };
    u64::from(most).min(u64::from(MOST_CELLS) / instances)
}

/// Returns the greatest number of rows of the trace.
fn row_limit(system: &System) -> u64
    requires { 1 ≤ length system.now.instances }
    ensures { result ≡ unwrap_or system.now.rows (default_rows system.now.version (length system.now.instances)) }
{
    match system.rows {
        Some(count) => u64::from(count),
        None => default_rows(system.version, system.instances.len() as u64),
    }
}

/// Returns the greatest number of rows of a system's trace, as [`Plan::row_limit`](crate::Plan::row_limit) does. A caller that serves
/// only small systems asks before it makes a plan.
pub fn row_limit_of(checked: &Checked) -> u64
    ensures { result ≡ (run_of checked.now).row_budget }
{
    row_limit(checked.system())
}

/// Returns how many instances a system has, as [`Plan::instances`](crate::Plan::instances) does.
pub fn instances_of(checked: &Checked) -> u32
    ensures { result ≡ length (run_of checked.now).members }
{
    // Called for its clauses, which state what holds of a judged system.
    let _ = checked.system();
    checked.source().instances.len() as u32
}

/// Returns the numbers of the run of a checked system.
pub(crate) fn numbers_of(checked: &Checked) -> Numbers
    ensures { AreNumbersOf checked.now (run_of checked.now) result }
{
    let system = checked.system();
    let resolution = resolution(system);
    let stop = ticks_or(0, resolution, system.stop);
    let longest = ticks_or(stop, resolution, system.longest);
    let zero_budget = zero_budget(system);
    let row_limit = row_limit(system);
    Numbers {
        resolution,
        stop,
        longest,
        zero_budget,
        row_limit,
    }
}
