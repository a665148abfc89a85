//! The coordinator: it drives the run, and takes answers of workers from the lanes.
ghost use Rattle.std.specs.Prelude.{◌≡◌, ◌+◌, ◌≤◌, ◌<◌, length, true, false};
ghost use Rattle.std.specs.Arc.{arc_value};
ghost use Rattle.trace_core.specs.Runs.{IsWanted, is_ended};
ghost use Rattle.trace_rows.specs.Passing.{AreStepsThere, IsFilled};

use crate::gate::Gate;
use crate::speculation::{Guessing, Speculation};
use crew_lanes::Desk;
use fixed_words::NoMemory;
use front_cell::{FrontCell, Writer};
use guess_board::Lane;
use lane_outlook::{outlook, publish_from};
use std::alloc::Global;
use std::sync::{Arc, Mutex, Wait};
use trace_core::{Plan, Run, Settle};
use trace_rows::Drive;

/// After so many looks, the run makes a step that nobody has answered, whatever the gate says.
const MOST_TURNS: u64 = 20_000_000;

/// A run whose steps are found in lanes, or made where nobody has answered them, with the cell that tells its progress to the
/// workers.
#[derive(Drop)]
pub(crate) struct Coordinator<'a, R, G> {
    pub(crate) rt: R,
    pub(crate) alloc: Global,
    pub(crate) plan: Arc<Plan>,
    pub(crate) run: Run,
    pub(crate) desk: Arc<Desk>,
    pub(crate) front: Arc<FrontCell>,
    pub(crate) writer: Writer,
    pub(crate) guessing: Guessing,
    /// One for each instance.
    pub(crate) speculations: Vec<Speculation>,
    /// The instances whose lanes are ever published, the last one first.
    pub(crate) speculative: Vec<u32>,
    pub(crate) gate: &'a G,
    ghost planned: { run.plan ≡ plan.value },
    ghost same_cell: { writer.cell ≡ arc_value front },
    ghost still_open: { writer.front.closed ≡ false },
    ghost not_ahead: { writer.front.rows ≤ run.stand.at.number + 1 },
}

/// What is left of a run when its cell is closed. Only then may the caller wait for the workers to end.
#[derive(Drop)]
pub(crate) struct Closed {
    pub(crate) desk: Arc<Desk>,
    writer: Writer,
    ghost closed: { writer.front.closed ≡ true },
}

/// Accepts what is in a lane for the required step of an instance. Returns whether there was something.
fn take_found<R: Wait>(rt: &R, lane: &Mutex<Lane>, run: &mut Run, instance: u32) -> bool
    ensures taken { result ≡ true → IsFilled run.old instance run.new }
    ensures kept { result ≡ false → run.new ≡ run.old }
{
    let Some(want) = run.wants(instance) else {
        return false;
    };
    let lane = lane.lock(rt);
    match lane.find(want) {
        Some(one) => run.accept(instance, one),
        None => false,
    }
}

/// Looks in a lane for the required step of an instance, as often as the gate allows. Returns whether it was found.
fn look<R: Wait, G: Gate>(
    rt: &R,
    gate: &G,
    lane: &Mutex<Lane>,
    run: &mut Run,
    instance: u32,
) -> bool
    ensures taken { result ≡ true → IsFilled run.old instance run.new }
    ensures kept { result ≡ false → run.new ≡ run.old }
{
    let row = run.number();
    for turn in 0..MOST_TURNS {
        if take_found(rt, lane, run, instance) {
            return true;
        }
        if !gate.again(row, instance, turn) {
            return false;
        }
    }
    take_found(rt, lane, run, instance)
}

/// Looks in the lane of an instance, if it was published, and records whether there was something. If not, the lane is withdrawn,
/// since the run makes the step itself.
fn look_if_published<R: Wait, G: Gate>(
    rt: &R,
    gate: &G,
    desk: &Desk,
    speculations: &mut [Speculation],
    run: &mut Run,
    instance: u32,
) -> bool
    ensures taken { result ≡ true → IsFilled run.old instance run.new }
    ensures kept { result ≡ false → run.new ≡ run.old }
{
    let Some(speculation) = speculations.get_mut(instance as usize) else {
        return false;
    };
    if !speculation.is_published() {
        return false;
    }
    let Some(lane) = desk.lane(instance) else {
        return false;
    };
    let found = look(rt, gate, lane, run, instance);
    speculation.tell(found);
    if !found {
        desk.withdraw(instance);
    }
    found
}

/// Fills the cell of an instance, from its lane or by an own step.
fn fill<R: Wait, G: Gate>(
    rt: &R,
    gate: &G,
    desk: &Desk,
    speculations: &mut [Speculation],
    run: &mut Run,
    instance: u32,
)
    requires wanted { IsWanted run.old instance }
    ensures { IsFilled run.old instance run.new }
{
    if !look_if_published(rt, gate, desk, speculations, run, instance) {
        run.compute(instance);
    }
}

/// Fills all empty cells, one instance after the other.
fn fill_all<R: Wait, G: Gate>(
    rt: &R,
    gate: &G,
    desk: &Desk,
    speculations: &mut [Speculation],
    run: &mut Run,
    instances: u32,
)
    requires { instances ≡ length run.old.cells }
    ensures { AreStepsThere run.old run.new }
{
    for instance in 0..instances {
        if run.is_wanted(instance) {
            fill(rt, gate, desk, speculations, run, instance);
        }
    }
}

/// Publishes the lane of an instance with the guesses at the run's stand, if the lane has that instance's image. Where the lane is full,
/// the workers have less to do ahead, and nothing else changes.
fn publish<R: Wait>(
    rt: &R,
    alloc: Global,
    plan: &Plan,
    run: &Run,
    guessing: Guessing,
    lane: &Mutex<Lane>,
    speculation: &mut Speculation,
    instance: u32,
)
    requires own { run.now.plan ≡ plan.now }
    requires there { instance < length run.now.plan.run.members }
    requires going { is_ended run.now.phase ≡ false }
{
    let seen = outlook(plan, run, instance);
    let window = speculation.window(guessing, seen);
    let state = run.state(instance);
    let mut lane = lane.lock(rt);
    let (states, inputs) = (lane.image().states(), lane.image().inputs());
    if state.len() == states as usize && seen.last.len() == inputs as usize {
        let _ = publish_from(alloc, guessing.policy, window, seen, state, &mut lane);
    }
}

/// Publishes the lanes of some instances, except those that rest, and offers them. While a lane is published it isn't offered, so that
/// no worker waits for its lock.
fn publish_all<R: Wait>(
    rt: &R,
    alloc: Global,
    plan: &Plan,
    run: &Run,
    guessing: Guessing,
    desk: &Desk,
    speculations: &mut [Speculation],
    instances: &[u32],
)
    requires own { run.now.plan ≡ plan.now }
    requires going { is_ended run.now.phase ≡ false }
{
    for instance in instances {
        let instance = *instance;
        if instance >= plan.instances() {
            continue;
        }
        let Some(lane) = desk.lane(instance) else {
            continue;
        };
        let Some(speculation) = speculations.get_mut(instance as usize) else {
            continue;
        };
        if speculation.begin_phase() {
            desk.withdraw(instance);
            publish(rt, alloc, plan, run, guessing, lane, speculation, instance);
            desk.offer(instance);
        }
    }
}

/// Stores the number of rows for the workers, if any lane is ever published.
fn advance_if_published<R: Wait>(
    rt: &R,
    front: &FrontCell,
    writer: &mut Writer,
    rows: u64,
    instances: &[u32],
)
    requires own { writer.old.cell ≡ front.now }
    requires forward { writer.old.front.rows ≤ rows }
    requires still_open { writer.old.front.closed ≡ false }
    ensures same_cell { writer.new.cell ≡ writer.old.cell }
    ensures still_open { writer.new.front.closed ≡ false }
    ensures not_ahead { writer.new.front.rows ≤ rows }
{
    if !instances.is_empty() {
        front.advance(rt, writer, rows);
    }
}

impl<'a, R: Wait + Drop, G: Gate> Coordinator<'a, R, G> {
    /// Tells the workers that no row will follow, and ends the coordinator.
    pub(crate) fn close(self) -> Closed {
        let Coordinator {
            rt,
            desk,
            front,
            mut writer,
            ..
        } = self;
        front.close(&rt, &mut writer);
        Closed { desk, writer }
    }
}

impl<'a, R: Wait + Drop, G: Gate> Drive for Coordinator<'a, R, G> {
    ghost state = { λ coordinator. coordinator.run };

    fn run(&self) -> &Run {
        &self.run
    }

    fn make_steps(&mut self) -> Result<(), NoMemory> {
        publish_all(
            &self.rt,
            self.alloc,
            &self.plan,
            &self.run,
            self.guessing,
            &self.desk,
            &mut self.speculations,
            &self.speculative,
        );
        // The row at the run's stand was written. Workers give back tickets for earlier rows; by now the lanes make no more of these.
        let rows = self.run.number() + 1;
        advance_if_published(
            &self.rt,
            &self.front,
            &mut self.writer,
            rows,
            &self.speculative,
        );
        let instances = self.plan.instances();
        fill_all(
            &self.rt,
            self.gate,
            &self.desk,
            &mut self.speculations,
            &mut self.run,
            instances,
        );
        Ok(())
    }

    fn settle(&mut self) -> Settle {
        self.run.settle()
    }
}
