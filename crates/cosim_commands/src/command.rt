//! The call of the program.
ghost use Rattle.std.specs.Prelude.{◌≡◌, true};
ghost use Rattle.cosim_call.specs.Calls.{Promises, stream, streams};
ghost use Rattle.cosim_call.specs.Coming.{Comes, Serves};
ghost use Rattle.cosim_answers.specs.Answer.{Answers, IsAnswer};
ghost use Rattle.command_line.specs.Commands.{IsReadable, command_of, has_workers, input_of, input_of_words};
ghost use Rattle.cosim_answers.specs.Usage.{UsageClause};
ghost use Rattle.command_line.specs.Words.{bytes_of};

use crate::commands::{
    bench, check, flatten, generate, nodes, print, replay, resume, run, save, stimulus, upgrade,
    verify,
};
use command_line::{Command, command_of};
use cosim_call::{Served, Status, Stopped, finish, put_made, read_input, tell};
use cosim_io::{Sink, Source};
use std::alloc::Global;
use std::sync::Wait;
use std::thread::Threads;
use work_crew::{Gate, OpenGate};

/// Serves a command on its whole text, in the calling thread.
#[tactic(auto, using(cosim_call::proofs::ComingLaws::serves_made))]
fn serve<O: Sink>(
    alloc: Global,
    command: &Command,
    text: &[u8],
    out: &mut O,
) -> Result<Served, Stopped>
    requires { IsReadable command.now text.now }
    ensures { Serves (Answers command.now text.now) (stream (O.held out.old) (O.faults out.old)) (stream (O.held out.new) (O.faults out.new)) result }
{
    match command {
        Command::Run(asked) => run::serve(alloc, asked, text, out),
        Command::Check => put_made(alloc, check::make(alloc, text), out),
        Command::Print => put_made(alloc, print::make(alloc, text), out),
        Command::Upgrade => put_made(alloc, upgrade::make(alloc, text), out),
        Command::Replay(asked) => replay::serve(alloc, *asked, text, out),
        Command::Gen(asked) => put_made(alloc, generate::make(alloc, asked), out),
        Command::Bench(asked) => put_made(alloc, bench::make(alloc, asked), out),
        Command::Save(asked) => put_made(alloc, save::make(alloc, *asked, text), out),
        Command::Resume => resume::serve(alloc, text, out),
        Command::Verify => put_made(alloc, verify::make(alloc, text), out),
        Command::Stimulus => put_made(alloc, stimulus::make(alloc, text), out),
        Command::Flatten => put_made(alloc, flatten::make(alloc, text), out),
        Command::Nodes(asked) => nodes::serve(alloc, *asked, text, out),
    }
}

/// Serves a command that has workers on its whole text, with these workers.
#[tactic(auto, using(cosim_call::proofs::ComingLaws::serves_made))]
fn serve_crewed<R: Threads + Wait + Copy + Send + Drop + 'static, O: Sink, G: Gate>(
    rt: R,
    alloc: Global,
    command: &Command,
    text: &[u8],
    out: &mut O,
    gate: &G,
) -> Result<Served, Stopped>
    requires { has_workers command.now ≡ true }
    ensures { Serves (Answers command.now text.now) (stream (O.held out.old) (O.faults out.old)) (stream (O.held out.new) (O.faults out.new)) result }
{
    match command {
        Command::Run(asked) => run::serve_crewed(rt, alloc, asked, text, out, gate),
        Command::Bench(asked) => put_made(alloc, bench::make_crewed(rt, alloc, asked, gate), out),
        Command::Check
        | Command::Print
        | Command::Upgrade
        | Command::Replay(_)
        | Command::Gen(_)
        | Command::Save(_)
        | Command::Resume
        | Command::Verify
        | Command::Stimulus
        | Command::Flatten
        | Command::Nodes(_) => unreachable!(),
    }
}

/// Serves a command on what is left in the source, as far as it reads it, in the calling thread.
fn come<S: Source, O: Sink>(
    alloc: Global,
    command: &Command,
    source: &mut S,
    out: &mut O,
) -> Result<Served, Stopped>
    ensures { Comes (input_of command.now) (Answers command.now)
        (stream (S.left source.old) (S.faults source.old)) (stream (S.left source.new) (S.faults source.new))
        (stream (O.held out.old) (O.faults out.old)) (stream (O.held out.new) (O.faults out.new))
        result }
{
    let text = read_input(alloc, source, command.input())?;
    serve(alloc, command, &text, out)
}

/// The same for a command that has workers, with these workers.
fn come_crewed<R: Threads + Wait + Copy + Send + Drop + 'static, S: Source, O: Sink, G: Gate>(
    rt: R,
    alloc: Global,
    command: &Command,
    source: &mut S,
    out: &mut O,
    gate: &G,
) -> Result<Served, Stopped>
    requires { has_workers command.now ≡ true }
    ensures { Comes (input_of command.now) (Answers command.now)
        (stream (S.left source.old) (S.faults source.old)) (stream (S.left source.new) (S.faults source.new))
        (stream (O.held out.old) (O.faults out.old)) (stream (O.held out.new) (O.faults out.new))
        result }
{
    let text = read_input(alloc, source, command.input())?;
    serve_crewed(rt, alloc, command, &text, out, gate)
}

/// Serves every form of words in the calling thread, and returns.
///
/// `words` are those after the program's name. The bytes of the command go to the output, and its lines to the notes. Returns the
/// status of the call.
pub fn cosim_alone<S: Source, O: Sink, N: Sink>(
    alloc: Global,
    words: &[String],
    source: &mut S,
    out: &mut O,
    notes: &mut N,
) -> Status
    ensures headline { Promises (input_of_words (command_of (bytes_of words.now))) (IsAnswer (bytes_of words.now))
        (streams (S.left source.old) (S.faults source.old) (O.held out.old) (O.faults out.old) (N.held notes.old) (N.faults notes.old))
        (streams (S.left source.new) (S.faults source.new) (O.held out.new) (O.faults out.new) (N.held notes.new) (N.faults notes.new))
        result }
    ensures usage { UsageClause (bytes_of words.now) result }
{
    match command_of(words) {
        Some(command) => {
            let came = come(alloc, &command, source, out);
            finish(alloc, notes, came)
        }
        None => tell(notes, b"cosim: usage\n", Status::Usage),
    }
}

/// The program: serves every form of words, with workers where these ask for some. `rt` is the permission to start threads and to
/// wait. The gate says how long a run waits for its workers; no promise depends on it. Where no workers are asked for, the call is
/// [`cosim_alone`].
pub fn cosim_gated<
    R: Threads + Wait + Copy + Send + Drop + 'static,
    S: Source,
    O: Sink,
    N: Sink,
    G: Gate,
>(
    rt: R,
    alloc: Global,
    words: &[String],
    source: &mut S,
    out: &mut O,
    notes: &mut N,
    gate: &G,
) -> Status
    ensures headline { Promises (input_of_words (command_of (bytes_of words.now))) (IsAnswer (bytes_of words.now))
        (streams (S.left source.old) (S.faults source.old) (O.held out.old) (O.faults out.old) (N.held notes.old) (N.faults notes.old))
        (streams (S.left source.new) (S.faults source.new) (O.held out.new) (O.faults out.new) (N.held notes.new) (N.faults notes.new))
        result }
    ensures usage { UsageClause (bytes_of words.now) result }
{
    match command_of(words) {
        Some(command) if command.has_workers() => {
            let came = come_crewed(rt, alloc, &command, source, out, gate);
            finish(alloc, notes, came)
        }
        _ => cosim_alone(alloc, words, source, out, notes),
    }
}

/// The program with the gate that never waits.
pub fn cosim<R: Threads + Wait + Copy + Send + Drop + 'static, S: Source, O: Sink, N: Sink>(
    rt: R,
    alloc: Global,
    words: &[String],
    source: &mut S,
    out: &mut O,
    notes: &mut N,
) -> Status
    ensures headline { Promises (input_of_words (command_of (bytes_of words.now))) (IsAnswer (bytes_of words.now))
        (streams (S.left source.old) (S.faults source.old) (O.held out.old) (O.faults out.old) (N.held notes.old) (N.faults notes.old))
        (streams (S.left source.new) (S.faults source.new) (O.held out.new) (O.faults out.new) (N.held notes.new) (N.faults notes.new))
        result }
    ensures usage { UsageClause (bytes_of words.now) result }
{
    cosim_gated(rt, alloc, words, source, out, notes, &OpenGate)
}
