//! Calls whose runs wait for their workers, and a call with the gate that never waits.

use cosim_commands::{Status, cosim, cosim_gated};
use cosim_io::{MemSink, MemSource};
use std::alloc::Global;
use std::cell::Cell;
use std::sync::Wait;
use std::test::Fail;
use std::thread::Threads;
use work_crew::Gate;

/// The input of each instance is its own output, which rises by 1 at each row.
const RISING: &[u8] =
    b"cosim 1\nunit Counter\nstate n : Int64 = 0\ninput u : Int64 = 0\noutput y : Int64 = n\nstep\nn := n + 1\nend\nend\ninstance a : Counter\nend\ninstance b : Counter\nend\nconnect a.y -> a.u\nconnect b.y -> b.u\nstop 20\nlongest 1\n";

/// The same, but the input of the second instance is constant.
const MIXED: &[u8] =
    b"cosim 1\nunit Counter\nstate n : Int64 = 0\ninput u : Int64 = 0\noutput y : Int64 = n\nstep\nn := n + 1\nend\nend\ninstance a : Counter\nend\ninstance b : Counter\nend\nconnect a.y -> a.u\nstop 20\nlongest 1\n";

const ROWS: &[u8] =
    b"time,index,a.y,b.y\n0,0,0,0\n1,0,1,1\n2,0,2,2\n3,0,3,3\n4,0,4,4\n5,0,5,5\n6,0,6,6\n7,0,7,7\n8,0,8,8\n9,0,9,9\n10,0,10,10\n11,0,11,11\n12,0,12,12\n13,0,13,13\n14,0,14,14\n15,0,15,15\n16,0,16,16\n17,0,17,17\n18,0,18,18\n19,0,19,19\n20,0,20,20\n";

const RUN: &[&str] = &["run", "--workers", "1"];

/// The text of a command that reads none.
const NOTHING: &[u8] = b"";

/// A system whose figures are those of `tests/generated.txt`.
const BENCH: &[&str] = &["bench", "--seed", "0", "--instances", "2", "--rows", "3"];

const FIGURES: &[u8] = b"instances 2\nrows 3\nlast 2,0\nsum 2138\n";

/// The last turn for which a gate is called.
const LAST_TURN: u64 = 19_999_999;

/// Waits until the workers have answered, and records whether it was called, and whether it waited without success.
#[derive(Drop)]
struct Waits {
    asked: Cell<bool>,
    in_vain: Cell<bool>,
}

impl Waits {
    fn new() -> Waits {
        Waits {
            asked: Cell::new(false),
            in_vain: Cell::new(false),
        }
    }
}

impl Gate for Waits {
    fn again(&self, _row: u64, _instance: u32, turn: u64) -> bool {
        self.asked.set(true);
        if turn == LAST_TURN {
            self.in_vain.set(true);
        }
        true
    }
}

/// Returns words as a call gets them.
fn owned(alloc: Global, words: &[&str]) -> Result<Vec<String>, Fail> {
    let mut line = Vec::new(alloc);
    for word in words {
        line.push(String::from_str(alloc, word)?)?;
    }
    Ok(line)
}

/// What a call gets and gives.
#[derive(Drop)]
struct Streams {
    words: Vec<String>,
    source: MemSource,
    out: MemSink,
    notes: MemSink,
}

/// Returns the streams of a call with these words and this text, with space for the output and the notes.
fn streams_of(alloc: Global, words: &[&str], text: &[u8]) -> Result<Streams, Fail> {
    let words = owned(alloc, words)?;
    let text = Vec::from_slice(alloc, text)?;
    Ok(Streams {
        words,
        source: MemSource::new(text, Vec::new(alloc)),
        out: MemSink::new(alloc, 256, Vec::new(alloc))?,
        notes: MemSink::new(alloc, 256, Vec::new(alloc))?,
    })
}

/// Returns the numbers of a line of counts, and 0 where it has fewer.
fn numbers(note: &[u8]) -> [u64; 7] {
    let mut numbers = [0u64; 7];
    let mut place: usize = 0;
    let mut is_within = false;
    for byte in note {
        if byte.is_ascii_digit() {
            is_within = true;
            if place < 7 {
                let front = numbers[place].wrapping_mul(10);
                numbers[place] = front.wrapping_add(u64::from(byte.wrapping_sub(b'0')));
            }
        } else if is_within {
            is_within = false;
            place = place.saturating_add(1);
        }
    }
    numbers
}

/// Makes a call. Returns the counts of its note if it ends with status 0 and this output.
fn call<R: Threads + Wait + Copy + Send + Drop + 'static, G: Gate>(
    rt: R,
    alloc: Global,
    streams: &mut Streams,
    output: &[u8],
    gate: &G,
) -> Option<[u64; 7]> {
    let Streams {
        words,
        source,
        out,
        notes,
    } = streams;
    let status = cosim_gated(rt, alloc, words, source, out, notes, gate);
    if status == Status::Done && out.bytes() == output {
        Some(numbers(notes.bytes()))
    } else {
        None
    }
}

/// Makes a call with these words and this text.
fn counts_of<R: Threads + Wait + Copy + Send + Drop + 'static, G: Gate>(
    rt: R,
    alloc: Global,
    words: &[&str],
    text: &[u8],
    output: &[u8],
    gate: &G,
) -> Result<[u64; 7], Fail> {
    let mut streams = streams_of(alloc, words, text)?;
    let counts = call(rt, alloc, &mut streams, output, gate);
    drop(streams);
    match counts {
        Some(counts) => Ok(counts),
        None => Err("another status or output")?,
    }
}

/// While the run waits for each answer, a window of one row takes a ticket for each step, and so does any other window where each guess
/// is wrong. Where lines are guessed, the answers of some tickets are those of several rows. The counts are sums over both lanes: one
/// alone has at most 20 tickets.
#[test]
fn answers_are_taken_of_as_many_rows_as_are_guessed_right(rt: HostRuntime) -> Result<(), Fail> {
    for (window, guess, is_ahead) in [
        ("16", "linear", true),
        ("16", "hold", false),
        ("1", "linear", false),
    ] {
        let words = [
            "run",
            "--workers",
            "1",
            "--window",
            window,
            "--guess",
            guess,
            "--report",
        ];
        let gate = Waits::new();
        let [rows, found, own, _, posted, _, _] = counts_of(
            rt,
            rt.alloc(),
            &words,
            RISING,
            ROWS,
            &gate,
        )?;
        assert_eq!(rt; (rows, found.checked_add(own)), (21, Some(40)));
        assert!(rt; found >= 30);
        assert_eq!(rt; posted < found, is_ahead, "{window} {guess}");
    }
    Ok(())
}

/// A lane whose guesses are all wrong has a ticket for each of its 20 steps. One whose guesses are all right has 8 to 13, by how soon
/// the worker takes them. So the sum is neither that of one lane nor twice that of one.
#[test]
fn tickets_of_different_lanes_are_added(rt: HostRuntime) -> Result<(), Fail> {
    let words = [
        "run",
        "--workers",
        "1",
        "--window",
        "16",
        "--guess",
        "hold",
        "--report",
    ];
    let gate = Waits::new();
    let [_, _, _, _, posted, _, _] = counts_of(rt, rt.alloc(), &words, MIXED, ROWS, &gate)?;
    assert!(rt; posted > 26 && posted < 40, "{posted}");
    Ok(())
}

/// With a window of one row each answer is found, so no ticket lapses, unless the run waited in vain for one.
#[test]
fn no_ticket_lapses_where_each_answer_is_found(rt: HostRuntime) -> Result<(), Fail> {
    let words = ["run", "--workers", "1", "--window", "1", "--report"];
    let gate = Waits::new();
    let [_, _, _, _, _, _, lapsed] = counts_of(rt, rt.alloc(), &words, RISING, ROWS, &gate)?;
    let in_vain = gate.in_vain.get();
    assert!(rt; in_vain || lapsed == 0);
    Ok(())
}

/// Returns whether `bench` called a gate, and each wait had success.
fn bench_waits<R: Threads + Wait + Copy + Send + Drop + 'static>(
    rt: R,
    alloc: Global,
) -> Result<bool, Fail> {
    let gate = Waits::new();
    let counts = counts_of(rt, alloc, BENCH, NOTHING, FIGURES, &gate);
    let (asked, in_vain) = (gate.asked.get(), gate.in_vain.get());
    counts?;
    if in_vain {
        Err("a wait in vain")?;
    }
    Ok(asked)
}

#[test]
fn bench_has_workers(rt: HostRuntime) -> Result<(), Fail> {
    // Where a worker answers before the run looks, the gate isn't called. It is very unlikely that this happens each time.
    for _ in 0..100 {
        if bench_waits(rt, rt.alloc())? {
            return Ok(());
        }
    }
    Err("the gate was never asked")?
}

/// Returns whether the call without a gate has status 0, this output and no notes.
fn ends_without_a_gate<R: Threads + Wait + Copy + Send + Drop + 'static>(
    rt: R,
    alloc: Global,
    streams: &mut Streams,
    output: &[u8],
) -> bool {
    let Streams {
        words,
        source,
        out,
        notes,
    } = streams;
    let status = cosim(rt, alloc, words, source, out, notes);
    status == Status::Done && out.bytes() == output && notes.bytes().is_empty()
}

#[test]
fn a_call_without_a_gate_prints_the_same(rt: HostRuntime) -> Result<(), Fail> {
    for (words, text, output) in [(RUN, RISING, ROWS), (BENCH, NOTHING, FIGURES)] {
        let mut streams = streams_of(rt.alloc(), words, text)?;
        let ends = ends_without_a_gate(rt, rt.alloc(), &mut streams, output);
        drop(streams);
        assert!(rt; ends, "{words:?}");
    }
    Ok(())
}
