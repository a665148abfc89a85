//! Worlds: what may happen to them, and what is refused.
use crate::guesses::policy_of;
use crate::script::{numbers_of, words_of};
use guess_board::{LaneCounts, Policy};
use spec_core::{Event, World};
use std::alloc::Global;
use std::sync::Arc;
use std::test::Fail;
use trace_core::Plan;

/// Returns the event of a name and numbers, if there is one.
fn event_of(name: &str, numbers: &[u32]) -> Option<Event> {
    match (name, numbers) {
        ("publish", [instance]) => Some(Event::Publish {
            instance: *instance,
        }),
        ("take", [worker, instance]) => Some(Event::Take {
            worker: *worker,
            instance: *instance,
        }),
        ("steal", [worker, from]) => Some(Event::Steal {
            worker: *worker,
            from: *from,
        }),
        ("post", [worker, cells]) => Some(Event::Post {
            worker: *worker,
            cells: *cells,
        }),
        ("back", [worker]) => Some(Event::Back { worker: *worker }),
        ("find", [instance]) => Some(Event::Find {
            instance: *instance,
        }),
        ("compute", [instance]) => Some(Event::Compute {
            instance: *instance,
        }),
        ("settle", []) => Some(Event::Settle),
        _ => None,
    }
}

/// Returns the counts of the first lane. Each world has one.
fn first_counts(world: &World) -> LaneCounts {
    world.facts();
    world.lane(0).counts()
}

/// Makes a call that is not an event.
fn ask(rt: &HostRuntime, world: &mut World, call: &str) -> Result<(), Fail> {
    match call {
        "drain" => println!(rt; "{call}: {}", world.drain())?,
        "counts" => println!(rt; "{call}: {:?}", first_counts(world))?,
        "steps" => {
            println!(rt;
                "{call}: found {}, own {}",
                world.run().found(),
                world.run().own()
            )?
        }
        _ => Err("no such call of a world")?,
    }
    Ok(())
}

/// Returns the event of these words, if there is one.
fn event_in(alloc: Global, words: &[&str]) -> Result<Option<Event>, Fail> {
    let [name, given @ ..] = words else {
        return Ok(None);
    };
    let numbers = numbers_of(alloc, given)?;
    let event = event_of(name, &numbers);
    drop(numbers);
    Ok(event)
}

/// Makes a call of a world, which is an event or not.
fn make_call(
    rt: &HostRuntime,
    world: &mut World,
    event: Option<Event>,
    call: &str,
) -> Result<(), Fail> {
    match event {
        Some(event) => {
            let reply = world.apply(rt.alloc(), &event)?;
            println!(rt; "{call}: {reply:?}")?;
            Ok(())
        }
        None => ask(rt, world, call),
    }
}

fn make_each(rt: &HostRuntime, world: &mut World, calls: &str) -> Result<(), Fail> {
    for call in calls.lines() {
        let words = words_of(rt.alloc(), call)?;
        let event = event_in(rt.alloc(), &words);
        drop(words);
        make_call(rt, world, event?, call)?;
    }
    Ok(())
}

/// Returns the world of a plan, by a policy, a number of workers and a window.
fn world_of(
    alloc: Global,
    plan: Arc<Plan>,
    policy: Policy,
    numbers: &[u32],
) -> Result<World, Fail> {
    match numbers {
        [workers, window] if *workers <= 16 && *window <= 16 => {
            Ok(World::open(alloc, plan, *workers, *window, policy)?)
        }
        _ => Err("a world has at most 16 workers, and a window at most 16 rows")?,
    }
}

/// Makes calls of the world of a plan, by a policy and the words of a number of workers and a window.
pub(crate) fn make_calls(
    rt: &HostRuntime,
    plan: Arc<Plan>,
    policy: &str,
    given: &[&str],
    calls: &str,
) -> Result<(), Fail> {
    let numbers = numbers_of(rt.alloc(), given)?;
    let mut world = world_of(rt.alloc(), plan, policy_of(policy), &numbers)?;
    let made = make_each(rt, &mut world, calls);
    drop(world);
    made
}
