//! The rounds of a replay, and how they lead its run from one row to the next.
ghost use Rattle.std.specs.Prelude.{◌≡◌, ◌≤◌, ◌<◌, ◌+◌, ◌*◌, ◌^◌, length, false, IfOk, OnOk};
ghost use Rattle.spec_core.specs.Events.{Happens};
ghost use Rattle.spec_core.specs.Rounds.{Advances, AreFew, AreServedAll, DoesAll, MakesRound, Serves, draw_after, drawn_from, publishes, with_reply};
ghost use Rattle.spec_core.specs.declared.event.Event.TheVariants as event;
ghost use Rattle.spec_core.specs.declared.event.Reply.TheVariants as reply;
ghost use Rattle.trace_core.specs.Runs.{AreCellsFull, is_ended};
ghost use Rattle.trace_rows.specs.Passing.{IsFresh};
ghost use Rattle.model_rules.specs.Limits.{worker_limit};

use crate::draws::{next_draw, worker_event};
use crate::event::{Event, Reply};
use crate::replies::Replies;
use crate::world::World;
use fixed_words::NoMemory;
use std::alloc::Global;
use trace_core::{Phase, Settle};

/// A replay on its way.
#[derive(Drop)]
pub(crate) struct ReplayState {
    pub(crate) world: World,
    /// The draw of the last event of a worker, or the number before the first draw.
    pub(crate) draw: u64,
    pub(crate) replies: Replies,
}

/// Applies an event, and counts its reply.
fn happen(
    alloc: Global,
    world: &mut World,
    replies: &mut Replies,
    event: Event,
) -> Result<Reply, NoMemory>
    requires few { AreFew replies.old }
    requires room { replies.old.events < 2 ^ 30 }
    ensures happens { IfOk result (λ reply. Happens world.old event reply world.new) }
    ensures counted { IfOk result (λ reply. replies.new ≡ with_reply replies.old reply) }
    ensures few { OnOk result (AreFew replies.new) }
{
    let reply = world.apply(alloc, &event)?;
    replies.count(reply);
    Ok(reply)
}

/// Publishes the lanes of all instances.
fn publish_all(
    alloc: Global,
    instances: u32,
    world: &mut World,
    replies: &mut Replies,
) -> Result<(), NoMemory>
    requires few { AreFew replies.old }
    requires room { replies.old.events + instances ≤ 2 ^ 30 }
    ensures { OnOk result (DoesAll (publishes instances) world.old replies.old world.new replies.new) }
{
    for instance in 0..instances {
        happen(alloc, world, replies, Event::Publish { instance })?;
    }
    Ok(())
}

/// Applies the drawn events of the workers, two for each of them.
fn let_workers_act(
    alloc: Global,
    workers: u32,
    instances: u32,
    draw: &mut u64,
    world: &mut World,
    replies: &mut Replies,
) -> Result<(), NoMemory>
    requires workers { workers ≤ worker_limit }
    requires instances { 1 ≤ instances }
    requires few { AreFew replies.old }
    requires room { replies.old.events + 2 * workers ≤ 2 ^ 30 }
    ensures done { OnOk result (DoesAll (drawn_from draw.old workers instances (2 * workers)) world.old replies.old world.new replies.new) }
    ensures draw { OnOk result (draw.new ≡ draw_after draw.old (2 * workers)) }
{
    for _ in 0..2 * workers {
        *draw = next_draw(*draw);
        let event = worker_event(*draw, workers, instances);
        happen(alloc, world, replies, event)?;
    }
    Ok(())
}

/// Looks for the step of an instance where it is required, and makes it where nothing is found.
fn serve(
    alloc: Global,
    instance: u32,
    world: &mut World,
    replies: &mut Replies,
) -> Result<(), NoMemory>
    requires few { AreFew replies.old }
    requires room { replies.old.events + 2 ≤ 2 ^ 30 }
    ensures { OnOk result (Serves instance world.old replies.old world.new replies.new) }
{
    if !world.run().is_wanted(instance) {
        return Ok(());
    }
    if let Reply::Missed = happen(alloc, world, replies, Event::Find { instance })? {
        happen(alloc, world, replies, Event::Compute { instance })?;
    }
    Ok(())
}

/// Serves all instances, one after the other.
fn serve_all(
    alloc: Global,
    instances: u32,
    world: &mut World,
    replies: &mut Replies,
) -> Result<(), NoMemory>
    requires few { AreFew replies.old }
    requires room { replies.old.events + 2 * instances ≤ 2 ^ 30 }
    ensures { OnOk result (AreServedAll instances world.old replies.old world.new replies.new) }
{
    for instance in 0..instances {
        serve(alloc, instance, world, replies)?;
    }
    Ok(())
}

/// Settles a run whose steps are all made.
fn settle(alloc: Global, world: &mut World, replies: &mut Replies) -> Result<Settle, NoMemory>
    requires going { is_ended world.old.run.phase ≡ false }
    requires full { AreCellsFull world.old.run.cells }
    requires few { AreFew replies.old }
    requires room { replies.old.events < 2 ^ 30 }
    ensures settles { IfOk result (λ to. Happens world.old event.Settle (reply.Settled to) world.new) }
    ensures counted { IfOk result (λ to. replies.new ≡ with_reply replies.old (reply.Settled to)) }
    ensures few { OnOk result (AreFew replies.new) }
{
    match happen(alloc, world, replies, Event::Settle)? {
        Reply::Settled(to) => Ok(to),
        _ => unreachable!(),
    }
}

/// Makes a round. Returns the result of settling.
///
/// A round has at most 225 events: 64 instances are published, 16 workers do two each, two events serve each instance, and one
/// settles. A row takes at most two rounds, so a whole run has fewer than 2^30 events.
fn make_round(
    alloc: Global,
    workers: u32,
    instances: u32,
    course: &mut ReplayState,
) -> Result<Settle, NoMemory>
    requires workers { workers ≤ worker_limit }
    requires instances { instances ≡ length course.old.world.lanes }
    requires going { is_ended course.old.world.run.phase ≡ false }
    requires few { AreFew course.old.replies }
    requires room { course.old.replies.events + 225 ≤ 2 ^ 30 }
    ensures { IfOk result (λ to. MakesRound workers course.old to course.new) }
{
    course.world.facts();
    let (world, replies) = (&mut course.world, &mut course.replies);
    publish_all(alloc, instances, world, replies)?;
    let_workers_act(alloc, workers, instances, &mut course.draw, world, replies)?;
    serve_all(alloc, instances, world, replies)?;
    settle(alloc, world, replies)
}

/// Goes on from a row by a round, and by a second one where a redo is due. Returns whether there is a next row.
pub(crate) fn advance(
    alloc: Global,
    workers: u32,
    instances: u32,
    course: &mut ReplayState,
) -> Result<bool, NoMemory>
    requires workers { workers ≤ worker_limit }
    requires instances { instances ≡ length course.old.world.lanes }
    requires fresh { IsFresh course.old.world.run }
    requires few { AreFew course.old.replies }
    requires room { course.old.replies.events + 450 ≤ 2 ^ 30 }
    ensures { IfOk result (Advances workers course.old course.new) }
{
    course.world.facts();
    if let Phase::Ended(_) = course.world.run().phase() {
        return Ok(false);
    }
    match make_round(alloc, workers, instances, course)? {
        Settle::Row => Ok(true),
        Settle::Ended => Ok(false),
        Settle::Redo => {
            course.world.facts();
            let second = make_round(alloc, workers, instances, course)?;
            Ok(matches!(second, Settle::Row))
        }
    }
}
