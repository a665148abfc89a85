//! Replays: a run by rounds of events, in which a seed draws the events of the workers.
ghost use Rattle.std.specs.Prelude.{◌≡◌, ◌≤◌, IfOk, OnOk, OnErr};
ghost use Rattle.spec_core.specs.Replays.{IsReplayed, PutsTrace};
ghost use Rattle.spec_core.specs.Rounds.{AreFew, AreSettled, GoesRounds, IsBegun, PutsRows, counts_of, counts_or_fault};
ghost use Rattle.trace_core.specs.Runs.{IsOpened};
ghost use Rattle.trace_core.specs.declared.phase.Phase.TheVariants.{Ended};
ghost use Rattle.trace_rows.specs.Faults.{TellsFault};
ghost use Rattle.trace_rows.specs.Reports.{AppendsTracePrefix, AppendsRestPrefix};
ghost use Rattle.unit_tree.specs.Successor.{first_position};
ghost use Rattle.model_rules.specs.Limits.{worker_limit};

use crate::counts::Counts;
use crate::draws::draw_start;
use crate::replies::Replies;
use crate::rounds::{ReplayState, advance};
use crate::world::World;
use cosim_io::Sink;
use fixed_words::NoMemory;
use guess_board::Policy;
use std::alloc::Global;
use std::sync::Arc;
use trace_core::{Phase, Plan};
pub use trace_rows::CrewFault as ReplayFault;
use trace_rows::{RowRoom, Tally, put_header};
use unit_tree::Ending;

/// For how many rows lines are guessed in a replay.
const WINDOW: u32 = 4;

/// Writes the row at the run's stand and each later one to the end. Returns how the run ended.
fn put_rows<O: Sink>(
    alloc: Global,
    plan: &Plan,
    workers: u32,
    course: &mut ReplayState,
    out: &mut O,
) -> Result<Ending, ReplayFault>
    requires workers { workers ≤ worker_limit }
    requires opened { IsOpened plan.now course.old.world.run.opened course.old.world.run }
    requires few { AreFew course.old.replies }
    requires none { course.old.replies.events ≡ 0 }
    ensures rows { IfOk result (λ outcome. PutsRows plan.now course.old.world.run.opened course.new.world.run outcome (O.held out.old) (O.held out.new)) }
    ensures ended { IfOk result (λ outcome. course.new.world.run.phase ≡ Ended outcome) }
    ensures rounds { OnOk result (GoesRounds workers course.old course.new) }
    ensures front { OnErr result (AppendsRestPrefix plan.now course.old.world.run.opened (O.held out.old) (O.held out.new)) }
    ensures cause { TellsFault (O.faults out.old) (O.faults out.new) result }
{
    course.world.facts();
    let instances = plan.instances();
    let mut tally = Tally::new();
    let mut room = RowRoom::new(alloc);
    room.put_row(plan, course.world.run(), &mut tally, out)?;
    'rows: while advance(alloc, workers, instances, course)? {
        course.world.facts();
        room.put_row(plan, course.world.run(), &mut tally, out)?;
    }
    let Phase::Ended(outcome) = course.world.run().phase() else {
        unreachable!()
    };
    Ok(outcome)
}

/// Writes the header and each row of a replay at its start. Returns how the run ended.
fn put_trace<O: Sink>(
    alloc: Global,
    plan: &Plan,
    workers: u32,
    course: &mut ReplayState,
    out: &mut O,
) -> Result<Ending, ReplayFault>
    requires workers { workers ≤ worker_limit }
    requires opened { IsOpened plan.now (first_position plan.now.run) course.old.world.run }
    requires few { AreFew course.old.replies }
    requires none { course.old.replies.events ≡ 0 }
    ensures whole { IfOk result (λ outcome. PutsTrace plan.now.system course.new.world.run.stand.at.point outcome (O.held out.old) (O.held out.new)) }
    ensures ended { IfOk result (λ outcome. course.new.world.run.phase ≡ Ended outcome) }
    ensures rounds { OnOk result (GoesRounds workers course.old course.new) }
    ensures front { OnErr result (AppendsTracePrefix plan.now.system (O.held out.old) (O.held out.new)) }
    ensures cause { TellsFault (O.faults out.old) (O.faults out.new) result }
{
    course.world.facts();
    put_header(alloc, plan, out)?;
    put_rows(alloc, plan, workers, course, out)
}

/// Returns the replay of a seed at its start.
fn begin(alloc: Global, plan: Arc<Plan>, seed: u64, workers: u32) -> Result<ReplayState, NoMemory>
    requires workers { workers ≤ worker_limit }
    ensures { IfOk result (IsBegun plan.value seed workers) }
{
    let world = World::open(alloc, plan, workers, WINDOW, Policy::Hold)?;
    Ok(ReplayState {
        world,
        draw: draw_start(seed),
        replies: Replies::none(),
    })
}

/// Returns the counts of a replay that has ended.
fn counts_of(course: &ReplayState, outcome: Ending) -> Counts
    requires settled { AreSettled course.now }
    ensures { result ≡ counts_of course.now outcome }
{
    let replies = course.replies;
    Counts {
        outcome,
        last: course.world.run().point(),
        events: replies.events,
        refused: replies.refused,
        found: replies.found,
        own: replies.own,
        tickets: replies.tickets,
        posted: replies.posted,
        back: replies.back,
        // Each ticket was posted or given back, or is still in a hand.
        lapsed: replies.tickets - replies.posted - replies.back,
        appended: replies.appended,
    }
}

/// Returns the counts of a replay that has ended, or the fault by which it was given up.
fn counts_or_fault(
    course: &ReplayState,
    ended: Result<Ending, ReplayFault>,
) -> Result<Counts, ReplayFault>
    requires settled { OnOk ended (AreSettled course.now) }
    ensures { result ≡ counts_or_fault course.now ended }
{
    match ended {
        Ok(outcome) => Ok(counts_of(course, outcome)),
        Err(fault) => Err(fault),
    }
}

/// Runs a plan by the events of a seed, with this number of workers. Writes the header and each row of its trace as one piece, and
/// counts the events.
///
/// # Errors
///
/// [`ReplayFault::WriteFault`] exactly where a write failed. After a failure the written bytes are a prefix of the text of the
/// trace.
pub fn replay<O: Sink>(
    alloc: Global,
    plan: Arc<Plan>,
    seed: u64,
    workers: u32,
    out: &mut O,
) -> Result<Counts, ReplayFault>
    requires workers { workers ≤ worker_limit }
    ensures whole { IfOk result (λ counts. PutsTrace plan.value.system counts.last counts.outcome (O.held out.old) (O.held out.new)) }
    ensures counts { IfOk result (IsReplayed plan.value seed workers) }
    ensures front { OnErr result (AppendsTracePrefix plan.value.system (O.held out.old) (O.held out.new)) }
    ensures cause { TellsFault (O.faults out.old) (O.faults out.new) result }
{
    let mut course = begin(alloc, Arc::clone(&plan)?, seed, workers)?;
    let ended = put_trace(alloc, &plan, workers, &mut course, out);
    let counts = counts_or_fault(&course, ended);
    drop(course);
    counts
}
