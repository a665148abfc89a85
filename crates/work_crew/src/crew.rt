//! A run with workers.
ghost use Rattle.std.specs.Prelude.{◌≡◌, ◌+◌, ◌*◌, ◌≤◌, ◌<◌, length, IfOk, OnErr};
ghost use Rattle.std.specs.Arc.{arc_value};
ghost use Rattle.front_cell.specs.Front.{opening};
ghost use Rattle.trace_core.specs.Runs.{IsOpened, Stands};
ghost use Rattle.trace_rows.specs.Faults.{TellsFault};
ghost use Rattle.trace_rows.specs.Reports.{AppendsTracePrefix, ReportsTrace};
ghost use Rattle.unit_tree.specs.Successor.{first_position};
ghost use Rattle.model_rules.specs.Limits.{window_limit, worker_limit};

use crate::coordinator::{Closed, Coordinator};
use crate::gate::Gate;
use crate::speculation::{Guessing, Speculation};
use crate::worker::{Home, Tickets, Watch, Worker, WorkerView, Workplace, Works};
use cosim_io::Sink;
use crew_lanes::{Desk, TicketSums};
use fixed_words::NoMemory;
use front_cell::{FrontCell, Writer};
use guess_board::{Policy, Ticket};
use lane_outlook::cut_window;
use std::alloc::Global;
use std::sync::{Arc, Wait};
use std::thread;
use std::thread::{JoinHandle, Threads};
use ticket_deque::{Hand, Reach, make};
use trace_core::{Plan, Run};
use trace_rows::{CrewFault, Report, put_trace};
use unit_names::lines_cost;
use unit_tree::{System, Unit};

/// The ends of the workers' deques: the hands, and a first reach of each deque.
#[derive(Drop)]
struct Ends {
    hands: Vec<Hand<Ticket>>,
    reaches: Vec<Reach<Ticket>>,
}

/// Makes a deque for each worker.
fn make_ends(alloc: Global, workers: u32) -> Result<Ends, NoMemory> {
    let mut hands = Vec::new(alloc);
    let mut reaches = Vec::new(alloc);
    for _ in 0..workers {
        let (hand, reach) = make(alloc)?;
        hands.push(hand)?;
        reaches.push(reach)?;
    }
    Ok(Ends { hands, reaches })
}

/// Appends a reach of each deque.
fn add_reaches(
    alloc: Global,
    of: &mut [Reach<Ticket>],
    reaches: &mut Vec<Reach<Ticket>>,
) -> Result<(), NoMemory> {
    for reach in of.iter_mut() {
        reaches.push(reach.split(alloc)?)?;
    }
    Ok(())
}

/// Returns the reaches of a worker into the hands of the others, in rising order, beginning after its own number.
fn reaches_of(
    alloc: Global,
    reaches: &mut [Reach<Ticket>],
    number: u32,
) -> Result<Vec<Reach<Ticket>>, NoMemory> {
    let mut others = Vec::new(alloc);
    let (before, own) = reaches.split_at_mut((number as usize).min(reaches.len()));
    if let [_, behind @ ..] = own {
        add_reaches(alloc, behind, &mut others)?;
    }
    add_reaches(alloc, before, &mut others)?;
    Ok(others)
}

/// Returns a workplace for each instance of a plan.
fn workplaces_of(alloc: Global, plan: &Plan) -> Result<Vec<Workplace>, NoMemory> {
    let mut workplaces = Vec::with_capacity(alloc, plan.instances() as usize)?;
    for instance in 0..plan.instances() {
        workplaces.push(Workplace::new(Arc::clone(plan.image(instance))?))?;
    }
    Ok(workplaces)
}

/// What the threads of a run share.
#[derive(Drop)]
struct Shared {
    desk: Arc<Desk>,
    front: Arc<FrontCell>,
}

/// Returns what is shared, with the writer that advances the cell. There is no row yet.
fn share(alloc: Global, plan: &Plan) -> Result<(Shared, Writer), NoMemory>
    ensures cell { IfOk result (λ made. made.1.cell ≡ arc_value made.0.front) }
    ensures front { IfOk result (λ made. made.1.front ≡ opening) }
{
    let desk = Desk::open(alloc, plan)?;
    let (front, writer) = FrontCell::new(alloc)?;
    let shared = Shared {
        desk: Arc::new(alloc, desk)?,
        front: Arc::new(alloc, front)?,
    };
    Ok((shared, writer))
}

/// Returns the workers, before any of them is started.
fn make_crew<R: Wait>(
    rt: &R,
    alloc: Global,
    plan: &Plan,
    shared: &Shared,
    writer: &mut Writer,
    workers: u32,
) -> Result<Vec<Worker>, NoMemory>
    requires own { writer.old.cell ≡ arc_value shared.now.front }
    ensures same { writer.new ≡ writer.old }
{
    let Ends { hands, mut reaches } = make_ends(alloc, workers)?;
    let mut crew = Vec::with_capacity(alloc, workers as usize)?;
    for (number, hand) in (0..workers).zip(hands) {
        let front = Arc::clone(&shared.front)?;
        let reader = front.split(rt, writer);
        let seat = WorkerView {
            watch: Watch { front, reader },
            desk: Arc::clone(&shared.desk)?,
            home: Home { number, workers },
            alloc,
        };
        let others = reaches_of(alloc, &mut reaches, number)?;
        crew.push(Worker {
            seat,
            tickets: Tickets { hand, others },
            workplaces: workplaces_of(alloc, plan)?,
        })?;
    }
    Ok(crew)
}

/// Returns what the steps of an instance cost at most.
fn step_cost(system: &System, instance: u32) -> u32 {
    let Some(instance) = system.instances.as_slice().get(instance as usize) else {
        return 0;
    };
    match system.unit_of(instance) {
        Some(
            Unit {
                step: Some(lines),
                ..
            },
        ) => lines_cost(lines.as_slice()),
        _ => 0,
    }
}

/// Returns the cost by which it is decided whether an instance is stepped ahead. Where the gate waits, each step counts as heavy. A
/// component alone gains nothing, since each of its steps begins where the one before ends.
fn counted_cost(plan: &Plan, instance: u32, waits: bool) -> u32 {
    if waits {
        u32::MAX
    } else if plan.instances() == 1 {
        0
    } else {
        step_cost(plan.checked().system(), instance)
    }
}

/// Returns how far each instance is stepped ahead, at the beginning of a run.
fn speculations_of(
    alloc: Global,
    plan: &Plan,
    window: u32,
    waits: bool,
) -> Result<Vec<Speculation>, NoMemory> {
    let mut speculations = Vec::with_capacity(alloc, plan.instances() as usize)?;
    for instance in 0..plan.instances() {
        let cost = counted_cost(plan, instance, waits);
        let inputs = plan.image(instance).inputs();
        speculations.push(Speculation::new(alloc, inputs, cost, window)?)?;
    }
    Ok(speculations)
}

/// Returns the instances whose lanes are ever published, the last one first, as workers begin with it.
fn speculative_of(alloc: Global, speculations: &[Speculation]) -> Result<Vec<u32>, NoMemory> {
    let mut instances = Vec::with_capacity(alloc, speculations.len())?;
    for (number, speculation) in (0..u32::MAX).zip(speculations) {
        if speculation.pays() {
            instances.push(number)?;
        }
    }
    instances.reverse();
    Ok(instances)
}

/// Returns how many workers are started: no more than there are processors beside that of the run, of which one is assumed, and none
/// where no lane is published.
fn started_workers<R: Threads>(rt: &R, workers: u32, speculative: &[u32]) -> u32
    ensures { result ≤ workers }
{
    if speculative.is_empty() {
        return 0;
    }
    let Ok(processors) = thread::available_parallelism(rt) else {
        return workers;
    };
    let others = u32::try_from(processors.get() - 1).unwrap_or(workers);
    workers.min(others.max(1))
}

/// An opened run with its crew: the coordinator that drives it, the workers, which are not started, and a place for the thread of
/// each.
#[derive(Drop)]
struct OpenedCrew<'a, R, G> {
    coordinator: Coordinator<'a, R, G>,
    crew: Vec<Worker>,
    threads: Vec<Option<JoinHandle<()>>>,
}

/// Opens the run of a plan with its crew. Takes all memory except for that of the lines.
fn open_crew<'a, R: Threads + Wait + Copy + Send + Drop + 'static, G: Gate>(
    rt: R,
    alloc: Global,
    plan: &Arc<Plan>,
    workers: u32,
    guessing: Guessing,
    gate: &'a G,
) -> Result<OpenedCrew<'a, R, G>, NoMemory>
    ensures opened { IfOk result (λ made. IsOpened plan.now.value (first_position plan.now.value.run) made.coordinator.run) }
    ensures stands { IfOk result (λ made. Stands made.coordinator.run) }
{
    let run = Run::open(alloc, Arc::clone(plan)?)?;
    let (shared, mut writer) = share(alloc, plan)?;
    let speculations = speculations_of(alloc, plan, guessing.window, gate.waits())?;
    let speculative = speculative_of(alloc, &speculations)?;
    let workers = started_workers(&rt, workers, &speculative);
    let crew = make_crew(&rt, alloc, plan, &shared, &mut writer, workers)?;
    let mut threads = Vec::with_capacity(alloc, workers as usize)?;
    for _ in 0..workers {
        threads.push(None)?;
    }
    let coordinator = Coordinator {
        rt,
        alloc,
        plan: Arc::clone(plan)?,
        run,
        desk: shared.desk,
        front: shared.front,
        writer,
        guessing,
        speculations,
        speculative,
        gate,
    };
    Ok(OpenedCrew {
        coordinator,
        crew,
        threads,
    })
}

/// Starts a thread with a worker's parts, if it can be started.
fn start_parts<
    R: Threads + Wait + Copy + Send + 'static,
    S: Works<T, P> + Send + Drop + 'static,
    T: Send + Drop + 'static,
    P: Send + Drop + 'static,
>(rt: R, seat: S, tickets: T, workplaces: P) -> Option<JoinHandle<()>> {
    thread::spawn(&rt, move || seat.work(tickets, workplaces, &rt)).ok()
}

/// Starts a worker, if its thread can be started.
fn start_one<R: Threads + Wait + Copy + Send + 'static>(
    rt: R,
    worker: Worker,
) -> Option<JoinHandle<()>> {
    let Worker {
        seat,
        tickets,
        workplaces,
    } = worker;
    start_parts(rt, seat, tickets, workplaces)
}

/// Workers that were started. It can't be dropped, so that no caller returns without waiting for them.
struct Started {
    threads: Vec<Option<JoinHandle<()>>>,
}

/// Starts the workers, each in a place that was allocated for it. One that can't be started is left out.
fn start<R: Threads + Wait + Copy + Send + 'static>(
    rt: R,
    crew: Vec<Worker>,
    mut threads: Vec<Option<JoinHandle<()>>>,
) -> Started {
    for (thread, worker) in threads.iter_mut().zip(crew) {
        *thread = start_one(rt, worker);
    }
    Started { threads }
}

/// Waits until all workers have ended, which they do when the cell is closed.
fn join_all<R: Threads>(rt: &R, started: Started, _closed: &Closed) {
    let Started { threads } = started;
    for thread in threads {
        if let Some(thread) = thread {
            thread.join(rt);
        }
    }
}

/// Returns a report with the counts of the tickets.
fn with_tickets(report: Report, sums: TicketSums) -> Report
    ensures { result ≡ record report { tickets = sums.tickets; posted = sums.posted; back = sums.back; lapsed = sums.lapsed } }
{
    Report {
        tickets: sums.tickets,
        posted: sums.posted,
        back: sums.back,
        lapsed: sums.lapsed,
        ..report
    }
}

/// Runs a plan with workers, which step instances ahead from inputs that are guessed for `window` rows. Writes the header and each
/// row of the trace as one piece, and reports how the trace ended. What it writes and how it ends is that of the run without workers,
/// whatever the workers do and however often the gate lets the run wait for them.
///
/// If a worker can't be started or has no memory, only speculation is lost. All workers that were started have ended when the call
/// returns.
///
/// Fails with [`CrewFault::WriteFault`] exactly where a write failed. After a failure the written bytes are a prefix of the text of
/// the trace.
pub fn run_crew<R: Threads + Wait + Copy + Send + Drop + 'static, O: Sink, G: Gate>(
    rt: R,
    alloc: Global,
    plan: Arc<Plan>,
    workers: u32,
    window: u32,
    policy: Policy,
    out: &mut O,
    gate: &G,
) -> Result<Report, CrewFault>
    requires workers { workers ≤ worker_limit }
    requires window { window ≤ window_limit }
    ensures whole { IfOk result (ReportsTrace plan.value.system (O.held out.old) (O.held out.new)) }
    ensures front { OnErr result (AppendsTracePrefix plan.value.system (O.held out.old) (O.held out.new)) }
    ensures cause { TellsFault (O.faults out.old) (O.faults out.new) result }
    ensures bounded { IfOk result (λ report. report.found + report.own ≤ 2 * length plan.value.run.members * report.rows) }
{
    // All memory except for that of the lines is taken before anything is written, and before any worker is started.
    let guessing = Guessing {
        window: cut_window(&plan, window),
        policy,
    };
    let OpenedCrew {
        mut coordinator,
        crew,
        threads,
    } = open_crew(rt, alloc, &plan, workers, guessing, gate)?;
    let started = start(rt, crew, threads);
    let ended = put_trace(alloc, &plan, &mut coordinator, out);
    let closed = coordinator.close();
    join_all(&rt, started, &closed);
    Ok(with_tickets(ended?, closed.desk.sums(&rt)))
}
