//! Guessed lines.
ghost use Rattle.std.specs.Prelude.{◌≤◌};

use crate::script::{numbers_of, words_of};
use guess_board::{Cell, Outlook, Policy, guess_line};
use std::alloc::Global;
use std::test::Fail;

/// The only component here has one input, from 0 to 9, which was 4 and is 7. The run stops at 29.
const STOP: u64 = 29;

/// Returns the policy of a word.
pub(crate) fn policy_of(word: &str) -> Policy {
    if word == "linear" {
        Policy::Linear
    } else {
        Policy::Hold
    }
}

/// Returns the line that is guessed from row 5 on at a time, by steps, for a component with a factor.
fn guessed(
    alloc: Global,
    policy: Policy,
    window: u32,
    t: u64,
    step: u64,
    factor: u64,
) -> Result<Vec<Cell>, Fail>
    requires window { window ≤ 16 }
    requires start { t ≤ 29 }
    requires step { step ≤ 8 }
    requires factor { 1 ≤ factor }
{
    let seen = Outlook {
        row: 5,
        t,
        step,
        stop: STOP,
        factor,
        last: &[7],
        before: &[4],
        low: &[0],
        high: &[9],
    };
    Ok(guess_line(alloc, policy, window, seen)?)
}

/// Returns the line that is guessed by a policy and numbers: the window, the time, the step and the factor.
fn guessed_by(alloc: Global, policy: Policy, numbers: &[u32]) -> Result<Vec<Cell>, Fail> {
    match numbers {
        [window, t, step, factor] if *window <= 16 && *t <= 29 && *step <= 8 && 1 <= *factor => {
            guessed(
                alloc,
                policy,
                *window,
                u64::from(*t),
                u64::from(*step),
                u64::from(*factor),
            )
        }
        _ => Err("nothing can be guessed by these numbers")?,
    }
}

/// Returns the line that is guessed by a policy and numbers in words.
fn guessed_in(alloc: Global, words: &[&str]) -> Result<Vec<Cell>, Fail> {
    let [policy, given @ ..] = words else {
        return Ok(Vec::new(alloc));
    };
    let numbers = numbers_of(alloc, given)?;
    let line = guessed_by(alloc, policy_of(policy), &numbers);
    drop(numbers);
    line
}

/// Prints the cells of a line: for each the row, the time, the step and the inputs.
fn print_line(rt: &HostRuntime, call: &str, line: &[Cell]) -> Result<(), Fail> {
    print!(rt; "{call}:")?;
    for cell in line {
        print!(rt;
            " {} {} {} {:?}",
            cell.row,
            cell.time,
            cell.step,
            cell.inputs.as_slice()
        )?;
    }
    println!(rt; "")?;
    Ok(())
}

/// Guesses a line, and prints it.
fn guess(rt: &HostRuntime, call: &str) -> Result<(), Fail> {
    let words = words_of(rt.alloc(), call)?;
    let line = guessed_in(rt.alloc(), &words);
    drop(words);
    let line = line?;
    let printed = print_line(rt, call, &line);
    drop(line);
    printed
}

/// Guesses a line by each call: a policy, the window, the time, the step and the factor.
pub(crate) fn make_calls(rt: &HostRuntime, calls: &str) -> Result<(), Fail> {
    for call in calls.lines() {
        guess(rt, call)?;
    }
    Ok(())
}
