//! What is done for all instances in turn.
ghost use Rattle.std.specs.Prelude.{◌≡◌, ◌≤◌, ◌<◌, ◌+◌, ◌^◌, ℕ, length, map};
ghost use Rattle.trace_core.specs.Seats.{AreBegun, IsBegun, IsClock, AreSaved, AreAsLong, HaveOwnIds, all_told, asked, saved};

use crate::seat::Seat;
use snap_store::{Snaps, copy_words};
use step_rule::{Slot, Step, Steps, is_held_by, limited, longest_step};
use super_time::{local_step, local_time};
use trace_plan::Plan;
use trace_units::Units;
use unit_tree::Ending;

/// The local time and the local step of the components with one length of a local tick, in a step.
#[derive(Clone, Copy, Debug, PartialEq, Eq)]
struct Clock {
    /// How many ticks of the system one local tick is.
    factor: u64,
    /// The local time at the beginning of the step, in local ticks.
    time: u64,
    /// The length of the step, in local ticks.
    step: u64,
}

/// Returns the clock of a component in a step of `h` from `t`.
fn clock_of(factor: u64, t: u64, h: u64) -> Clock
    requires factor { 1 ≤ factor }
    requires end { t + h ≤ 10 ^ 15 }
    ensures { IsClock t h factor result }
{
    Clock {
        factor,
        time: local_time(factor, t),
        step: local_step(factor, t, h),
    }
}

/// Returns the clock of a component in a step of `h` from `t`, by the clock of the component before it.
fn next_clock(clock: Clock, factor: u64, t: u64, h: u64) -> Clock
    requires clock { IsClock t h clock.factor clock }
    requires factor { 1 ≤ factor }
    requires end { t + h ≤ 10 ^ 15 }
    ensures { IsClock t h factor result }
{
    if clock.factor == factor {
        clock
    } else {
        clock_of(factor, t, h)
    }
}

/// Prepares a seat for a step of `h`.
fn begin(seat: &mut Seat, clock: Clock, h: u64)
    ensures { (t factor : ℕ) → IsClock t h factor clock → IsBegun t h factor seat.old seat.new }
{
    seat.time = clock.time;
    seat.step = clock.step;
    seat.slot = if is_held_by(h, clock.step) {
        Slot::Held
    } else {
        Slot::Empty
    };
}

/// Prepares all seats for a step of `h` from `t`. An instance is held where none of its local ticks ends in the step. Where an
/// instance has the local tick of the one before it, it has the same clock.
pub(crate) fn begin_all(plan: &Plan, seats: &mut [Seat], t: u64, h: u64)
    requires seats { length seats.old ≡ length plan.now.run.members }
    requires end { t + h ≤ 10 ^ 15 }
    ensures { AreBegun t h plan.now.run.members seats.old seats.new }
{
    let mut clock = clock_of(1, t, h);
    for instance in 0..plan.instances() {
        clock = next_clock(clock, plan.factor(instance), t, h);
        begin(&mut seats[instance as usize], clock, h);
    }
}

/// Computes the limit at `t` of each instance whose unit has a `max`, and proposes a step. The first fault of a `max` ends the
/// run.
pub(crate) fn ask_limits(plan: &Plan, units: &mut Units, t: u64) -> Result<u64, Ending>
    requires tied { units.old.plan ≡ plan.now }
    requires time { t ≤ plan.now.run.stop }
    ensures asked { result ≡ asked plan.now.run t (all_told t plan.now.run.members units.old.states units.old.inputs) }
    ensures kept { units.new ≡ units.old }
{
    // Called for its clauses, which state how long the lists of the units are.
    let _ = units.count();
    let mut least = longest_step(plan.stop(), plan.longest(), t);
    for instance in plan.limited() {
        let factor = plan.factor(*instance);
        let told = units.max_step(*instance, local_time(factor, t));
        least = limited(least, *instance, factor, t, told)?;
    }
    Ok(least)
}

/// The steps of all seats of a run in a phase.
#[derive(Clone, Copy)]
pub(crate) struct SeatSteps<'a> {
    pub(crate) plan: &'a Plan,
    pub(crate) seats: &'a [Seat],
    ghost as_many: { length seats.now ≡ length plan.now.run.members },
}

impl Steps for SeatSteps<'_> {
    ghost use Rattle.trace_core.specs.Seats.{seat_steps};

    ghost steps = { λ phase. seat_steps phase.plan.now.run.members phase.seats.now };

    fn count(&self) -> usize {
        self.seats.len()
    }

    fn step(&self, instance: usize) -> Step {
        // Called for its clauses, which state how many instances there may be.
        let _ = self.plan.instances();
        let seat = &self.seats[instance];
        Step {
            factor: self.plan.factor(instance as u32),
            asked: seat.step,
            slot: seat.slot,
        }
    }
}

/// Sets the states of all units to the committed states.
pub(crate) fn restore_all(snaps: &Snaps, seats: &[Seat], units: &mut Units)
    requires saved { AreSaved snaps.now seats.now (saved snaps.now seats.now) }
    requires as_long { AreAsLong (saved snaps.now seats.now) units.old.states }
    requires units { length seats.now ≡ length units.old.plan.run.members }
    ensures states { units.new.states ≡ saved snaps.now seats.now }
    ensures inputs { units.new.inputs ≡ units.old.inputs }
    ensures plan { units.new.plan ≡ units.old.plan }
{
    for instance in 0..units.count() {
        units.restore(instance, snaps.words(seats[instance as usize].id));
    }
}

/// Commits the states of the units, and keeps the words of their inputs as those of the row before.
pub(crate) fn commit_all(snaps: &mut Snaps, seats: &mut [Seat], units: &Units)
    requires saved { AreSaved snaps.old seats.old (saved snaps.old seats.old) }
    requires own { HaveOwnIds seats.old }
    requires as_long { AreAsLong (saved snaps.old seats.old) units.now.states }
    requires before { AreAsLong (map (λ seat. seat.before.items) seats.old) units.now.inputs }
    requires units { length seats.old ≡ length units.now.plan.run.members }
    ensures saved { AreSaved snaps.new seats.new units.now.states }
    ensures as_many { length seats.new ≡ length seats.old }
    ensures own { HaveOwnIds seats.new }
    ensures before { map (λ seat. seat.before.items) seats.new ≡ units.now.inputs }
{
    for instance in 0..units.count() {
        let seat = &mut seats[instance as usize];
        copy_words(&mut seat.before, units.inputs(instance));
        snaps.overwrite(seat.id, units.state(instance));
    }
}
