//! Compares two equal lists of words, by the kernel of lanes and by a plain loop.
ghost use Rattle.std.specs.Prelude.{◌≡◌, ◌<◌, length};

use crate::times::Shortest;
use std::io;
use std::time::Instant;
use word_lanes::first_mismatch;

/// How many times the comparisons are made: the shortest time counts.
const ROUNDS: u32 = 5;

/// What a bench prints.
#[derive(Clone, Copy)]
pub(crate) enum Output {
    /// Whether both methods find the same. A run prints the same each time.
    Answer,
    /// Also how long each method took.
    Times,
}

#[derive(Clone, Copy)]
enum Method {
    Kernel,
    Plain,
}

fn plain_mismatch(a: &[i64], b: &[i64]) -> Option<usize>
    requires { length a.now ≡ length b.now }
{
    for place in 0..a.len() {
        if a[place] != b[place] {
            return Some(place);
        }
    }
    None
}

/// Returns how many of so many comparisons find the lists equal. Before each, one place of both lists gets the comparison's number, so that
/// no comparison can be left out.
fn equal_comparisons(method: Method, comparisons: u32, a: &mut [i64], b: &mut [i64]) -> u32
    requires same_length { length a.old ≡ length b.old }
    requires some { 0 < length a.old }
{
    let mut equal = 0u32;
    for comparison in 0..comparisons {
        let place = comparison as usize % a.len();
        a[place] = i64::from(comparison);
        b[place] = i64::from(comparison);
        let difference = match method {
            Method::Kernel => first_mismatch(a, b),
            Method::Plain => plain_mismatch(a, b),
        };
        if difference.is_none() {
            equal = equal.saturating_add(1);
        }
    }
    equal
}

/// Returns whether all comparisons of lists of so many words, at least one, find them equal, and the time of the shortest round.
fn timed(
    rt: &HostRuntime,
    method: Method,
    comparisons: u32,
    words: u32,
) -> io::Result<(bool, Shortest)> {
    let mut a = vec![in rt.alloc(); 7; words.max(1) as usize]?;
    let mut b = vec![in rt.alloc(); 7; words.max(1) as usize]?;
    let mut are_equal = true;
    let mut shortest = Shortest::new();
    for _ in 0..ROUNDS {
        let start = Instant::now(rt)?;
        let equal = equal_comparisons(method, comparisons, &mut a, &mut b);
        shortest.end_round(rt, start)?;
        are_equal &= equal == comparisons;
    }
    Ok((are_equal, shortest))
}

/// Prints the result of so many comparisons of lists of so many words.
pub(crate) fn run(
    rt: &HostRuntime,
    output: Output,
    comparisons: u32,
    words: u32,
) -> io::Result<()> {
    let (is_equal, time) = timed(rt, Method::Kernel, comparisons, words)?;
    let (is_other_equal, other_time) = timed(rt, Method::Plain, comparisons, words)?;
    let answer = if is_equal && is_other_equal {
        "the same"
    } else {
        "not the same"
    };
    let compared = u64::from(comparisons) * u64::from(words);
    match output {
        Output::Answer => println!(rt; "lanes: {answer}"),
        Output::Times => println!(rt;
            "lanes: {} a word, by a plain loop {}, {answer}",
            time.each(compared),
            other_time.each(compared)
        ),
    }
}
