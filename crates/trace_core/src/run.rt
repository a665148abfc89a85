//! A run of a plan.
ghost use Rattle.std.specs.Prelude.{◌≡◌, ◌<◌, ◌↔◌, length, slice_get, false, true, IsTrue, IsSome, Some, IfOk, IfSome, if◌then◌else◌};
ghost use Rattle.std.specs.Option.{option_map};
ghost use Rattle.trace_core.specs.Accepting.{IsAnswerTo};
ghost use Rattle.trace_core.specs.Runs.{Stands, is_filled, HoldMeanings, IsOpened, IsWanted, IsWantOf, IsKeyWanted, is_ended, IsComputed, with_found, row_told, AreCellsFull};
ghost use Rattle.trace_core.specs.Arriving.{position_with};
ghost use Rattle.trace_core.specs.Settling.{Settled};
ghost use Rattle.trace_core.specs.Slots.{slot_seen};
ghost use Rattle.trace_core.specs.declared.phase.Settle.TheVariants as settled;
ghost use Rattle.unit_tree.specs.Compositions.{AreMembers, run_of};
ghost use Rattle.unit_tree.specs.Negotiation.{all_inputs, limit_at};
ghost use Rattle.step_rule.specs.Steps.{ending_or};
ghost use Rattle.trace_core.specs.declared.phase.Phase.TheVariants.{Trial};
ghost use Rattle.unit_tree.specs.Successor.{agreed, first_position, standings, trial_end};
ghost use Rattle.unit_tree.specs.Trace.{row_at, HasWords, IsInBounds, IsInRows};

use crate::accepting::take_step;
use crate::course::course_of;
use crate::opening::{seats_of, states_of};
use crate::phase::{Phase, Row, Settle};
use crate::ports::{begin_phase, solve_ports};
use crate::seat::{Seat, is_empty, slot_of};
use crate::steps::{SeatSteps, begin_all, commit_all, restore_all};
use fixed_words::NoMemory;
use snap_store::Snaps;
use std::alloc::Global;
use std::marker::Model;
use std::sync::Arc;
use step_rule::{Course, Slot, read_trial};
use super_time::limit;
use trace_plan::Plan;
use trace_units::Units;
use unit_answers::{Proven, same_key};
use unit_exec::Want;
use unit_tree::{Ending, Point};

/// The position at which a run was opened. Only contracts use it: the invariant refers to it.
#[derive(Drop)]
pub(crate) struct Opened {
    pub(crate) point: Point,
    pub(crate) states: Vec<Vec<i64>>,
    pub(crate) number: u64,
}

/// Returns the result of settling at a new point. `solved` says whether all its ports have words.
fn come_to(solved: bool) -> Settle
    ensures { result ≡ (if solved then settled.Row else settled.Ended) }
{
    if solved { Settle::Row } else { Settle::Ended }
}

/// The run of a plan, from one row to the next.
///
/// In each phase every instance for which [`Run::wants`] returns a step has to make it once, in any order: by [`Run::compute`],
/// or by an answer that was made elsewhere and that [`Run::accept`] takes. Then [`Run::settle`] goes on. Instances are given by
/// their numbers from 0. Only [`Run::open`] and [`Run::open_at`] take memory, and no call waits.
#[derive(Drop)]
pub struct Run {
    plan: Arc<Plan>,
    units: Units,
    seats: Vec<Seat>,
    snaps: Snaps,
    ports: Vec<i64>,
    known: Vec<bool>,
    phase: Phase,
    point: Point,
    number: u64,
    found: u64,
    own: u64,
    /// Whether all ports of this point have words.
    solved: bool,
    opened: Opened,
}

impl Model for Run {
    ghost use Rattle.std.specs.Coded.{codes};
    ghost use Rattle.trace_core.specs.Runs.{RunState};
    ghost use Rattle.unit_tree.specs.contracts.expr.Expr as expr;
    ghost use Rattle.unit_tree.specs.contracts.line.Line as line;

    ghost Value = { RunState };

    ghost coded = { Prim.hlevel (codes, expr.the_row.coded, line.the_row.coded) };

    ghost use Rattle.trace_core.specs.Keeping.{run_state, IsRun};

    ghost view = { run_state };

    ghost invariant = { IsRun };
}

impl Run {
    /// Opens the run of a plan at its start: solves the ports at the first point, and begins the phase there.
    ///
    /// # Errors
    ///
    /// Only [`NoMemory`]. A port that faults at the start ends the run, but the run is opened.
    pub fn open(alloc: Global, plan: Arc<Plan>) -> Result<Run, NoMemory>
        ensures opened { IfOk result (IsOpened plan.value (first_position plan.value.run)) }
        ensures stands { IfOk result Stands }
    {
        // Called for their clauses, which state the invariants of a plan.
        let _ = plan.checked();
        let _ = plan.instances();
        let shared = Arc::clone(&plan)?;
        let units = Units::new(alloc, shared)?;
        Run::open_from(alloc, plan, units, Point { t: 0, n: 0 }, 0)
    }

    /// Opens the run of a plan at the position of its units.
    pub(crate) fn open_from(
        alloc: Global,
        plan: Arc<Plan>,
        units: Units,
        point: Point,
        number: u64,
    ) -> Result<Run, NoMemory>
        requires tied { units.plan ≡ plan.value }
        requires composed { plan.value.run ≡ run_of plan.value.system }
        requires members { AreMembers plan.value.run }
        requires words { HasWords plan.value.run (position_with point units.states number) }
        requires in_bounds { IsInBounds plan.value.run (position_with point units.states number) }
        requires in_rows { IsInRows plan.value.run (position_with point units.states number) }
        ensures opened { IfOk result (IsOpened plan.value (position_with point units.states number)) }
        ensures stands { IfOk result Stands }
    {
        let mut units = units;
        let states = states_of(alloc, &units)?;
        let mut snaps = Snaps::new(alloc);
        let mut seats = seats_of(alloc, &units, &mut snaps)?;
        let places = plan.order().routes().outputs.len();
        // Called for its clauses, which state how large the numbers of a plan are.
        let _ = plan.instances();
        let mut ports = vec![in alloc; 0; places]?;
        let mut known = vec![in alloc; false; places]?;
        let fault = solve_ports(&plan, &mut units, &mut ports, &mut known);
        commit_all(&mut snaps, &mut seats, &units);
        let phase = begin_phase(&plan, &mut units, &mut seats, point, number, fault);
        Ok(Run {
            plan,
            units,
            seats,
            snaps,
            ports,
            known,
            phase,
            point,
            number,
            found: 0,
            own: 0,
            solved: fault.is_none(),
            opened: Opened {
                point,
                states,
                number,
            },
        })
    }

    /// Returns the point at which the run is.
    pub fn point(&self) -> Point
        ensures { result ≡ self.now.stand.at.point }
    {
        self.point
    }

    /// Returns the number of the row there, from 0.
    pub fn number(&self) -> u64
        ensures { result ≡ self.now.stand.at.number }
    {
        self.number
    }

    /// Returns the phase there.
    pub fn phase(&self) -> Phase
        ensures phase { result ≡ self.now.phase }
        ensures stands { Stands self.now }
        ensures meanings { HoldMeanings self.now }
    {
        // Called for its clauses, which state that each instance has an image.
        let _ = self.plan.instances();
        self.phase
    }

    /// Returns the row there. There is none exactly where the run ended by the fault of an output.
    pub fn row(&self) -> Option<Row<'_>>
        ensures { option_map row_told result ≡ row_at self.now.plan.run self.now.stand }
    {
        if !self.solved {
            return None;
        }
        Some(Row {
            point: self.point,
            ports: &self.ports,
        })
    }

    /// Returns the state of an instance there.
    pub fn state(&self, instance: u32) -> &[i64]
        requires { instance < length self.now.plan.run.members }
        ensures { slice_get self.now.stand.at.states instance ≡ Some result.now }
    {
        self.snaps.words(self.seats[instance as usize].id)
    }

    /// Returns the words of an instance's inputs there.
    pub fn inputs(&self, instance: u32) -> &[i64]
        requires there { instance < length self.now.plan.run.members }
        requires going { is_ended self.now.phase ≡ false }
        ensures { slice_get (all_inputs self.now.plan.run self.now.stand.ports) instance ≡ Some result.now }
    {
        self.units.inputs(instance)
    }

    /// Returns the words of an instance's inputs at the row before. Where the run was just opened, these are the words there.
    pub fn before(&self, instance: u32) -> &[i64]
        requires there { instance < length self.now.plan.run.members }
        requires going { is_ended self.now.phase ≡ false }
        ensures { slice_get self.now.before instance ≡ Some result.now }
    {
        &self.seats[instance as usize].before
    }

    /// Returns whether a step of an instance is required. It is not, exactly where there is no such instance, the run ended, the
    /// instance is held, or its step was made.
    pub fn is_wanted(&self, instance: u32) -> bool
        ensures { IsTrue result ↔ IsWanted self.now instance }
    {
        if let Phase::Ended(_) = self.phase {
            return false;
        }
        match self.seats.get(instance as usize) {
            Some(seat) => is_empty(seat.slot),
            None => false,
        }
    }

    /// Returns the required step of an instance, where there is one ([`Run::is_wanted`]).
    pub fn wants(&self, instance: u32) -> Option<Want<'_>>
        ensures exactly { IsSome result ↔ IsWanted self.now instance }
        ensures want { IfSome result (IsWantOf self.now instance) }
    {
        if !self.is_wanted(instance) {
            return None;
        }
        // Called for its clauses, which state that there is a unit for each instance.
        let _ = self.units.count();
        let seat = &self.seats[instance as usize];
        Some(Want {
            row: self.number,
            image: self.plan.image(instance),
            state: self.snaps.words(seat.id),
            inputs: self.units.inputs(instance),
            time: seat.time,
            step: seat.step,
        })
    }

    /// Makes the required step of an instance, and keeps its result for [`Run::settle`].
    pub fn compute(&mut self, instance: u32)
        requires wanted { IsWanted self.old instance }
        ensures { IsComputed self.old instance self.new }
    {
        // Called for its clauses, which state that there is a unit for each instance.
        let _ = self.units.count();
        let seat = &mut self.seats[instance as usize];
        seat.slot = slot_of(self.units.do_step(instance, seat.time, seat.step));
        self.own += 1;
    }

    /// Returns the step of an instance in the phase: that it is held or wasn't made, or how it ended. After the call that made the
    /// last step, and before [`Run::settle`], it shows how much each instance accepted.
    pub fn slot(&self, instance: u32) -> Slot
        requires { instance < length self.now.cells }
        ensures { option_map slot_seen (slice_get self.now.cells instance) ≡ Some result }
    {
        self.seats[instance as usize].slot
    }

    /// Returns the limit that an instance sets to the step from here, in ticks of the system, or `None` where it sets none. It runs
    /// the `max` of the instance, which changes nothing. It requires that the instance hasn't made its step in this phase, since its
    /// unit has the state after the step then.
    pub fn limit(&mut self, instance: u32) -> Option<u128>
        requires unmade { option_map is_filled (slice_get self.old.cells instance) ≡ Some false }
        ensures limit { option_map (limit_at self.old.stand.at.point.t self.old.stand.ports) (slice_get (standings self.old.plan.run self.old.stand.at) instance) ≡ Some result }
        ensures kept { self.new ≡ self.old }
    {
        // Called for its clauses, which state that there is a unit for each instance.
        let _ = self.units.count();
        let time = self.seats[instance as usize].time;
        match self.units.max_step(instance, time) {
            Ok(Some(local)) => Some(limit(self.plan.factor(instance), self.point.t, local)),
            Ok(None) => None,
            // A `max` that faults sets no limit, and it ends the run.
            Err(_) => None,
        }
    }

    /// Fills the empty cell of an instance with the answer to its step.
    fn fill(&mut self, instance: u32, answer: &Proven)
        requires wanted { IsWanted self.old instance }
        requires answers { IsAnswerTo self.old instance answer.now }
        ensures { self.new ≡ with_found self.old instance answer.now.answer }
    {
        // Called for its clauses, which state that there is a unit for each instance.
        let _ = self.units.count();
        let seat = &mut self.seats[instance as usize];
        seat.slot = take_step(&mut self.units, instance, answer.answer());
        self.found += 1;
    }

    /// Accepts an answer as the step of an instance, exactly where it is the required step: where code, state, inputs, time and step
    /// are those of the answer's key. The row for which the answer was made doesn't matter. Returns whether it was accepted; if not,
    /// nothing changes.
    pub fn accept(&mut self, instance: u32, answer: &Proven) -> bool
        ensures exactly { IsTrue result ↔ IsKeyWanted self.old instance answer.now.key }
        ensures found { result ≡ true → self.new ≡ with_found self.old instance answer.now.answer }
        ensures kept { result ≡ false → self.new ≡ self.old }
    {
        let Some(want) = self.wants(instance) else {
            return false;
        };
        if !same_key(answer, want) {
            return false;
        }
        // Called for their clauses, which state that the code is valid.
        let _ = want.image.code().facts();
        self.fill(instance, answer);
        true
    }

    /// Returns the agreed step of the trial of a step of `h`, all of whose steps are made, or how the first fault of a step ends the
    /// run.
    pub fn agreed(&self, h: u64) -> Result<u64, Ending>
        requires trial { self.now.phase ≡ Trial h }
        requires full { AreCellsFull self.now.cells }
        ensures { result ≡ ending_or (trial_end self.now.plan.run self.now.stand.at self.now.stand.ports)
            (agreed self.now.plan.run self.now.stand.at self.now.stand.ports) }
    {
        // Called for its clauses, which state how many seats there may be and how long the states of the units are.
        let _ = self.plan.instances();
        let _ = self.units.count();
        let steps = SeatSteps {
            plan: &self.plan,
            seats: &self.seats,
        };
        read_trial(&steps, self.point.t, h)
    }

    /// Goes on when all steps of the phase are made: to a redo where the trial requires one, and otherwise to the next point, or
    /// to the end.
    pub fn settle(&mut self) -> Settle
        requires going { is_ended self.old.phase ≡ false }
        requires full { AreCellsFull self.old.cells }
        ensures settled { Settled self.old self.new result }
        ensures stands { Stands self.new }
    {
        // Called for its clauses, which state how long the states of the units are.
        let _ = self.units.count();
        let course = course_of(&self.plan, &self.seats, self.phase, self.point);
        match course {
            Course::End(ending) => {
                self.phase = Phase::Ended(ending);
                Settle::Ended
            }
            Course::Redo(h) => {
                restore_all(&self.snaps, &self.seats, &mut self.units);
                begin_all(&self.plan, &mut self.seats, self.point.t, h);
                self.phase = Phase::Redo { h };
                Settle::Redo
            }
            Course::On(point) => {
                commit_all(&mut self.snaps, &mut self.seats, &self.units);
                self.point = point;
                self.number += 1;
                let fault = solve_ports(
                    &self.plan,
                    &mut self.units,
                    &mut self.ports,
                    &mut self.known,
                );
                self.solved = fault.is_none();
                self.phase = begin_phase(
                    &self.plan,
                    &mut self.units,
                    &mut self.seats,
                    point,
                    self.number,
                    fault,
                );
                come_to(self.solved)
            }
        }
    }

    /// Returns how many steps were taken from answers of others, since the run was opened.
    pub fn found(&self) -> u64
        ensures { result ≡ self.now.found }
    {
        self.found
    }

    /// Returns how many steps the run made itself, since it was opened.
    pub fn own(&self) -> u64
        ensures { result ≡ self.now.own }
    {
        self.own
    }
}
