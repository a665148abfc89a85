//! A program that tries, by a script, what no command reaches: worlds, lanes and their tickets, answers that a run accepts or refuses,
//! and guessed lines.
//!
//! The script is the standard input. A blank line separates its sections. The first line of a section is a comment (`#`), or the name
//! of a text (`text NAME`) whose lines follow, or the kind of the calls that follow (`world`, `lanes`, `run`, `guesses`). The program
//! prints that line, and each call with its answer.
//!
//! The file `stdout` has the answers as they were worked out by hand. So it also shows that each call succeeds that may fail for want of
//! memory. No crate depends on this one.
#![tactic(auto)]

mod answering;
mod fronts;
mod guesses;
mod lanes;
mod runs;
mod script;
mod worlds;

use script::{plan_in, words_of};
use std::io;
use std::test::Fail;

/// Makes the calls of a section, whose first line has these words.
fn make_calls(rt: &HostRuntime, script: &str, words: &[&str], calls: &str) -> Result<(), Fail> {
    match words {
        ["world", text, policy, given @ ..] => {
            let plan = plan_in(rt.alloc(), script, text)?;
            worlds::make_calls(rt, plan, policy, given, calls)
        }
        ["lanes", text] => lanes::make_calls(rt, plan_in(rt.alloc(), script, text)?, calls),
        ["run", text] => runs::make_calls(rt, plan_in(rt.alloc(), script, text)?, calls),
        ["guesses"] => guesses::make_calls(rt, calls),
        _ => Ok(()),
    }
}

/// Prints the first line of a section, and makes its calls.
fn serve(rt: &HostRuntime, script: &str, section: &str) -> Result<(), Fail> {
    let (first, calls) = section.split_once('\n').unwrap_or((section, ""));
    println!(rt; "{first}")?;
    let words = words_of(rt.alloc(), first)?;
    make_calls(rt, script, &words, calls)
}

fn main(rt: HostRuntime) -> Result<(), Fail> {
    let script = io::read_to_string(rt.alloc(), rt.reader())?;
    for section in script.split("\n\n") {
        serve(&rt, &script, section)?;
    }
    Ok(())
}
