//! Answers that a run accepts or refuses.
use crate::answering::{answer_to, want_of};
use crate::script::{numbers_of, words_of};
use std::alloc::{AllocError, Global};
use std::sync::Arc;
use std::test::Fail;
use test_plans::settle;
use trace_core::{Plan, Run};
use unit_answers::{Proven, same_key};
use unit_exec::Want;

/// How a step differs from the required one: in a part of it, by its number or its words.
#[derive(Drop)]
struct Change<'a> {
    part: &'a str,
    number: u32,
    words: Vec<i64>,
}

/// Returns the change that words describe. Without words there is no change.
fn change_of<'a>(alloc: Global, given: &[&'a str]) -> Result<Change<'a>, Fail> {
    let mut change = Change {
        part: "",
        number: 0,
        words: Vec::new(alloc),
    };
    let [part, numbers @ ..] = given else {
        return Ok(change);
    };
    change.part = *part;
    for number in &numbers_of(alloc, numbers)? {
        change.number = *number;
        change.words.push(i64::from(*number))?;
    }
    Ok(change)
}

/// Returns the required step of an instance, after a change.
fn changed<'a>(run: &'a Run, instance: u32, change: &'a Change<'_>) -> Result<Want<'a>, Fail> {
    let want = want_of(run, instance)?;
    let number = u64::from(change.number);
    match change.part {
        "" => Ok(want),
        "row" => Ok(Want {
            row: number,
            ..want
        }),
        "state" => Ok(Want {
            state: &change.words,
            ..want
        }),
        "inputs" => Ok(Want {
            inputs: &change.words,
            ..want
        }),
        "code" => Ok(Want {
            image: want_of(run, change.number)?.image,
            ..want
        }),
        "time" => Ok(Want {
            time: number,
            ..want
        }),
        "step" => Ok(Want {
            step: number,
            ..want
        }),
        _ => Err("a step has no such part")?,
    }
}

/// Returns the answer that was made last.
fn last_of(answers: &[Proven]) -> Result<&Proven, Fail> {
    match answers.last() {
        Some(answer) => Ok(answer),
        None => Err("no answer was made")?,
    }
}

/// Prints an answer, with its row and its time.
fn print_answer(rt: &HostRuntime, made: &Proven) -> Result<(), Fail> {
    println!(rt;
        "row {}, time {}: {:?}",
        made.row(),
        made.key().time,
        made.answer()
    )?;
    Ok(())
}

/// Makes the answer to a step, which becomes the last one.
fn answer(
    rt: &HostRuntime,
    run: &Run,
    answers: &mut Vec<Proven>,
    instance: &str,
    change: &[&str],
) -> Result<(), Fail> {
    let number = instance.parse::<u32>()?;
    let change = change_of(rt.alloc(), change)?;
    let made = answer_to(rt.alloc(), changed(run, number, &change)?)?;
    let printed = print_answer(rt, &made);
    let kept = answers.push(made).map_err(AllocError::from);
    printed?;
    Ok(kept?)
}

/// Returns whether the last answer is that of a step.
fn is_same(
    rt: &HostRuntime,
    run: &Run,
    answers: &[Proven],
    instance: &str,
    change: &[&str],
) -> Result<bool, Fail> {
    let (number, last) = (instance.parse::<u32>()?, last_of(answers)?);
    let change = change_of(rt.alloc(), change)?;
    Ok(same_key(last, changed(run, number, &change)?))
}

/// Makes a call of a run with these words, with its answers.
fn make_call(
    rt: &HostRuntime,
    run: &mut Run,
    answers: &mut Vec<Proven>,
    words: &[&str],
) -> Result<(), Fail> {
    match words {
        ["answer", instance, change @ ..] => answer(rt, run, answers, instance, change)?,
        ["same", instance, change @ ..] => {
            let same = is_same(rt, run, answers, instance, change)?;
            println!(rt; "{same}")?
        }
        ["accept", instance] => {
            let number = instance.parse::<u32>()?;
            let taken = run.accept(number, last_of(answers)?);
            println!(rt; "{taken}")?
        }
        ["settle"] => {
            let settled = settle(run, false)?;
            println!(rt; "{settled:?}")?
        }
        ["state", instance] => {
            let state = want_of(run, instance.parse::<u32>()?)?.state;
            println!(rt; "{state:?}")?
        }
        ["phase"] => println!(rt; "{:?}", run.phase())?,
        ["steps"] => println!(rt; "found {}, own {}", run.found(), run.own())?,
        _ => Err("no such call of a run")?,
    }
    Ok(())
}

/// Prints and makes each call.
fn make_each(
    rt: &HostRuntime,
    run: &mut Run,
    answers: &mut Vec<Proven>,
    calls: &str,
) -> Result<(), Fail> {
    for call in calls.lines() {
        print!(rt; "{call}: ")?;
        let words = words_of(rt.alloc(), call)?;
        let made = make_call(rt, run, answers, &words);
        drop(words);
        made?;
    }
    Ok(())
}

/// Makes calls of the run of a plan.
pub(crate) fn make_calls(rt: &HostRuntime, plan: Arc<Plan>, calls: &str) -> Result<(), Fail> {
    let mut run = Run::open(rt.alloc(), plan)?;
    let mut answers = Vec::new(rt.alloc());
    let made = make_each(rt, &mut run, &mut answers, calls);
    drop(answers);
    drop(run);
    made
}
