//! The result of a command, before it is reported.
ghost use Rattle.std.specs.Prelude.{◌≡◌};
ghost use Rattle.cosim_call.specs.Calls.{TakesAtMost, stream};
ghost use Rattle.cosim_call.specs.Coming.{ReadsInput, IsInLimit, PutsPiece, PutsMade};

use crate::status::Status;
use cosim_io::{ReadEnd, Sink, Source, read_all};
use fixed_words::{List, NoMemory};
use model_rules::Rule;
use std::alloc::{AllocFailed, Global};

/// A command did its work, and wrote the bytes of its answer: its status, and the lines of its notes, which are still to be written.
#[derive(Debug, Drop)]
pub struct Served {
    pub status: Status,
    pub notes: List<List<u8>>,
}

/// Why a command did not end by a status of its own.
#[derive(Clone, Copy, Debug, PartialEq, Eq)]
pub enum Stopped {
    /// The text breaks a rule. Nothing was written.
    Refused { line: u32, rule: u8 },
    ReadFault,
    WriteFault,
    NoMemory,
}

impl From<NoMemory> for Stopped {
    ghost use Rattle.cosim_call.specs.declared.coming.Stopped.TheVariants.{NoMemory};

    ghost from_gives = { λ _ why. why ≡ NoMemory };

    fn from(_: NoMemory) -> Stopped {
        Stopped::NoMemory
    }
}

impl<T: Drop> From<AllocFailed<T>> for Stopped {
    ghost use Rattle.cosim_call.specs.declared.coming.Stopped.TheVariants.{NoMemory};

    ghost from_gives = { λ _ why. why ≡ NoMemory };

    fn from(_: AllocFailed<T>) -> Stopped {
        Stopped::NoMemory
    }
}

/// Reads the whole input of a command that takes at most `input` bytes. A command without input, `None`, gets no bytes.
pub fn read_input<S: Source>(
    alloc: Global,
    source: &mut S,
    input: Option<usize>,
) -> Result<Vec<u8>, Stopped>
    ensures reads { ReadsInput input (stream (S.left source.old) (S.faults source.old)) (stream (S.left source.new) (S.faults source.new)) result }
    ensures within { IsInLimit input result }
    ensures taken { TakesAtMost input (stream (S.left source.old) (S.faults source.old)) (stream (S.left source.new) (S.faults source.new)) }
{
    let Some(limit) = input else {
        return Ok(Vec::new(alloc));
    };
    match read_all(alloc, source, limit) {
        Ok(text) => Ok(text),
        Err(ReadEnd::TooLong) => Err(Stopped::Refused {
            line: 1,
            rule: Rule::TextFits.number(),
        }),
        Err(ReadEnd::Fault) => Err(Stopped::ReadFault),
        Err(ReadEnd::NoMemory) => Err(Stopped::NoMemory),
    }
}

/// Writes the one piece of a command that did its work and has no notes.
fn put_piece<O: Sink>(alloc: Global, bytes: &[u8], out: &mut O) -> Result<Served, Stopped>
    ensures { PutsPiece bytes.now (stream (O.held out.old) (O.faults out.old)) (stream (O.held out.new) (O.faults out.new)) result }
{
    out.put(bytes).map_err(|_| Stopped::WriteFault)?;
    Ok(Served {
        status: Status::Done,
        notes: List::new(alloc),
    })
}

/// Writes the one piece of a command that makes one, if it made it.
pub fn put_made<O: Sink>(
    alloc: Global,
    made: Result<Vec<u8>, Stopped>,
    out: &mut O,
) -> Result<Served, Stopped>
    ensures { PutsMade made (stream (O.held out.old) (O.faults out.old)) (stream (O.held out.new) (O.faults out.new)) result }
{
    put_piece(alloc, &made?, out)
}
