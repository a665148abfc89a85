//! Reporting the result of a call.
ghost use Rattle.std.specs.Prelude.{◌≡◌, [], IfOk, IsOk, OnOk, OnErr};
ghost use Rattle.std.specs.Io.KnownBytes.{Appends};
ghost use Rattle.cosim_io.specs.Faults.{HasCause};
ghost use Rattle.cosim_io.specs.Pieces.{AppendsPrefix};
ghost use Rattle.cosim_call.specs.Calls.{stream};
ghost use Rattle.cosim_call.specs.Notes.{whole};
ghost use Rattle.cosim_call.specs.Telling.{Tells, TellsEnd, TellsStop};

use crate::coming::{Served, Stopped};
use crate::note::refusal;
use crate::status::Status;
use cosim_io::{Failed, Sink};
use fixed_words::List;
use std::alloc::Global;

/// Writes one line to the notes. Returns the status that belongs to it, or a write fault.
#[tactic(auto, unfolding(crate::specs::Telling::Tells))]
pub fn tell<N: Sink>(notes: &mut N, line: &[u8], status: Status) -> Status
    ensures { Tells line.now status (stream (N.held notes.old) (N.faults notes.old)) (stream (N.held notes.new) (N.faults notes.new)) result }
{
    match notes.put(line) {
        Ok(()) => status,
        Err(_) => Status::WriteFault,
    }
}

/// Writes each line in one piece, up to the first write that fails.
#[tactic(auto, using(cosim_io::proofs::PieceLemmas::piece_laws))]
fn put_lines<N: Sink>(notes: &mut N, lines: &[List<u8>]) -> Result<(), Failed>
    ensures whole { OnOk result (Appends (N.held notes.old) (N.held notes.new) (whole lines.now)) }
    ensures none { lines.now ≡ [] → (notes.new ≡ notes.old) × IsOk result }
    ensures front { OnErr result (AppendsPrefix (N.held notes.old) (N.held notes.new) (whole lines.now)) }
    ensures cause { HasCause (N.faults notes.old) (N.faults notes.new) result }
{
    match lines {
        [] => Ok(()),
        [first, rest @ ..] => {
            notes.put(first.as_slice())?;
            put_lines(notes, rest)
        }
    }
}

/// Reports the lines of a command that did its work.
#[tactic(auto, unfolding(crate::specs::Telling::Tells))]
fn tell_served<N: Sink>(notes: &mut N, served: &Served) -> Status
    ensures told { Tells (whole served.now.notes) served.now.status (stream (N.held notes.old) (N.faults notes.old)) (stream (N.held notes.new) (N.faults notes.new)) result }
    ensures none { served.now.notes ≡ [] → (notes.new ≡ notes.old) × (result ≡ served.now.status) }
{
    match put_lines(notes, served.notes.as_slice()) {
        Ok(()) => served.status,
        Err(_) => Status::WriteFault,
    }
}

/// Reports why a command did not end by a status of its own.
fn tell_stopped<N: Sink>(alloc: Global, notes: &mut N, why: Stopped) -> Status
    ensures { TellsStop why (stream (N.held notes.old) (N.faults notes.old)) (stream (N.held notes.new) (N.faults notes.new)) result }
{
    match why {
        Stopped::Refused { line, rule } => match refusal(alloc, line, rule) {
            Ok(note) => tell(notes, &note, Status::Refused),
            Err(_) => tell(notes, b"cosim: no memory\n", Status::NoMemory),
        },
        Stopped::ReadFault => tell(notes, b"cosim: read fault\n", Status::ReadFault),
        Stopped::WriteFault => tell(notes, b"cosim: write fault\n", Status::WriteFault),
        Stopped::NoMemory => tell(notes, b"cosim: no memory\n", Status::NoMemory),
    }
}

/// Reports the result of a command: writes its notes and returns its status. Without notes nothing is written, so the notes stay as
/// they are and can't fail.
pub fn finish<N: Sink>(alloc: Global, notes: &mut N, came: Result<Served, Stopped>) -> Status
    ensures told { TellsEnd came (stream (N.held notes.old) (N.faults notes.old)) (stream (N.held notes.new) (N.faults notes.new)) result }
    ensures none { IfOk came (λ served. served.notes ≡ [] → (notes.new ≡ notes.old) × (result ≡ served.status)) }
{
    match came {
        Ok(served) => tell_served(notes, &served),
        Err(why) => tell_stopped(alloc, notes, why),
    }
}
