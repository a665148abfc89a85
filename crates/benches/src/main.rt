//! Times the kernel that compares lists of words by lanes, and a plain loop, and prints whether both find the same. Each time is that of
//! the shortest of several rounds.
//!
//! - `benches COMPARISONS WORDS`: so many comparisons of equal lists of so many words.
//! - `benches`: a few comparisons, without times, so that what it prints is the same each time.
#![tactic(auto)]

mod lanes;
mod times;

use lanes::Output;
use std::process::ExitCode;
use std::{env, io};

const USAGE: &str = "benches: give nothing, or COMPARISONS WORDS";

/// The status where the words have no form.
const MISUSED: u8 = 2;

/// The request of the words of the call.
#[derive(Clone, Copy)]
struct Request {
    output: Output,
    comparisons: u32,
    words: u32,
}

/// A short one. The lists don't fill the last vector of lanes.
const SMALL: Request = Request {
    output: Output::Answer,
    comparisons: 10,
    words: 100_003,
};

/// Returns the request of some words, or `None` where they have no form.
fn request_of(words: &[String]) -> Option<Request> {
    match words {
        [] => Some(SMALL),
        [comparisons, words] => Some(Request {
            output: Output::Times,
            comparisons: comparisons.parse().ok()?,
            words: words.parse().ok()?,
        }),
        _ => None,
    }
}

/// Returns the words of the call after the program's name.
fn arguments(rt: &HostRuntime) -> io::Result<Vec<String>> {
    let mut arguments = Vec::new(rt.alloc());
    for argument in env::args(rt)?.skip(1) {
        arguments.push(argument)?;
    }
    Ok(arguments)
}

fn main(rt: HostRuntime) -> io::Result<ExitCode> {
    let arguments = arguments(&rt)?;
    let Some(request) = request_of(&arguments) else {
        eprintln!(rt; "{USAGE}")?;
        return Ok(ExitCode::from(MISUSED));
    };
    lanes::run(&rt, request.output, request.comparisons, request.words)?;
    Ok(ExitCode::SUCCESS)
}
