// A source and a sink over memory, for tests: they fail at the calls that are listed.
ghost use Rattle.std.specs.Prelude.{◌≡◌, ◌≤◌, ◌↔◌, [], ◌++◌, length, min, take, drop, Contains, IsTrue, Some, IfOk, OnOk, OnErr, IsErr, vec_len, vec_capacity};
ghost use Rattle.std.specs.Io.{ReadsAtMost};
ghost use Rattle.std.specs.Io.KnownBytes.{Appends, ReadConsumes};
ghost use Rattle.cosim_io.specs.Faults.{HasCause};
ghost use Rattle.cosim_io.specs.Pieces.{AppendsPrefix};
ghost use Rattle.cosim_io.specs.Scripted.{ScriptedSource, ReadFails, after_read, after_failed_read, ScriptedSink, PutFails, after_put, after_failed_put};

use crate::{Failed, Sink, Source};
use std::alloc::{AllocError, Global};
use std::marker::Model;

/// A source of given bytes, which fails at the calls whose numbers are listed.
///
/// Calls of `read` are counted from 1. A call whose number is listed returns `Failed` and takes nothing; any other
/// takes as many bytes as fit. The number of a call and the count of faults stay at 2^64 - 1 once they reach it.
#[derive(Drop)]
pub struct MemSource {
    bytes: Vec<u8>,
    taken: usize,
    failing: Vec<u64>,
    calls: u64,
    faults: u64,
}

impl Model for MemSource {
    ghost Value = { ScriptedSource };

    ghost view = { λ s. record { left = drop s.taken s.bytes.items; failing = s.failing.items; calls = s.calls; faults = s.faults } };

    ghost invariant = { λ s. s.taken ≤ vec_len s.bytes };
}

impl MemSource {
    /// Returns the source of these bytes, which fails at the calls with these numbers. It takes no memory.
    pub fn new(bytes: Vec<u8>, failing: Vec<u64>) -> Self
        ensures { result ≡ record { left = bytes.items; failing = failing.items; calls = 0; faults = 0 } }
    {
        MemSource {
            bytes,
            taken: 0,
            failing,
            calls: 0,
            faults: 0,
        }
    }
}

impl Source for MemSource {
    ghost left = { λ source. Some source.left };

    ghost faults = { λ source. source.faults };

    fn read(&mut self, into: &mut [u8]) -> Result<usize, Failed>
        ensures within { ReadsAtMost result into.new }
        ensures taken { ReadConsumes (Some self.old.left) (Some self.new.left) result into.new }
        ensures cause { HasCause self.old.faults self.new.faults result }

        // What it ensures in addition to every source:
        ensures exactly { IsErr result ↔ ReadFails self.old }
        ensures fits { IfOk result (λ count. count ≡ min (length into.old) (length self.old.left)) }
        ensures given { IfOk result (λ count. into.new ≡ take count self.old.left ++ drop count into.old) }
        ensures after { IfOk result (λ count. self.new ≡ after_read self.old count) }
        ensures failed { OnErr result (self.new ≡ after_failed_read self.old) }
    {
        self.calls = self.calls.saturating_add(1);
        if is_listed(self.calls, &self.failing) {
            self.faults = self.faults.saturating_add(1);
            return Err(Failed);
        }
        let count = copy_front(&self.bytes[self.taken..], into);
        self.taken += count;
        Ok(count)
    }
}

// Whether the call with this number fails.
fn is_listed(number: u64, failing: &[u64]) -> bool
    ensures { IsTrue result ↔ Contains failing.now number }
{
    failing.contains(&number)
}

// Copies as many bytes as fit into the first places of `into`, and returns how many.
fn copy_front(from: &[u8], into: &mut [u8]) -> usize
    ensures count { result ≡ min (length from.now) (length into.old) }
    ensures copied { into.new ≡ take result from.now ++ drop result into.old }
{
    let count = from.len().min(into.len());
    into[..count].copy_from_slice(&from[..count]);
    count
}

/// A sink with room for a given number of bytes, which fails at the calls whose numbers are listed.
///
/// Calls of `put` are counted from 1. A call fails where its number is listed, and where the piece is longer than the
/// room that is left. It then appends the first half of the piece, rounded down, as far as there is room. The number of
/// a call and the count of faults stay at 2^64 - 1 once they reach it.
#[derive(Drop)]
pub struct MemSink {
    held: Vec<u8>,
    room: usize,
    failing: Vec<u64>,
    calls: u64,
    faults: u64,
}

impl Model for MemSink {
    ghost Value = { ScriptedSink };

    ghost view = { λ s. record { held = s.held.items; room = s.room; failing = s.failing.items; calls = s.calls; faults = s.faults } };

    ghost invariant = { λ s. (vec_len s.held ≤ s.room) × (s.room ≤ vec_capacity s.held) };
}

impl MemSink {
    /// Returns a sink that holds nothing. It takes the memory for `room` bytes here, and none later.
    pub fn new(alloc: Global, room: usize, failing: Vec<u64>) -> Result<Self, AllocError>
        ensures { IfOk result (λ sink. sink ≡ record { held = []; room = room; failing = failing.items; calls = 0; faults = 0 }) }
    {
        Ok(MemSink {
            held: Vec::with_capacity(alloc, room)?,
            room,
            failing,
            calls: 0,
            faults: 0,
        })
    }

    /// All the bytes that the sink holds, in the order in which they were appended.
    pub fn bytes(&self) -> &[u8]
        ensures { result.now ≡ self.now.held }
    {
        &self.held
    }
}

impl Sink for MemSink {
    ghost held = { λ sink. Some sink.held };

    ghost faults = { λ sink. sink.faults };

    fn put(&mut self, piece: &[u8]) -> Result<(), Failed>
        ensures whole { OnOk result (Appends (Some self.old.held) (Some self.new.held) piece.now) }
        ensures front { OnErr result (AppendsPrefix (Some self.old.held) (Some self.new.held) piece.now) }
        ensures cause { HasCause self.old.faults self.new.faults result }

        // What it ensures in addition to every sink:
        ensures exactly { IsErr result ↔ PutFails self.old piece.now }
        ensures after { OnOk result (self.new ≡ after_put self.old piece.now) }
        ensures failed { OnErr result (self.new ≡ after_failed_put self.old piece.now) }
    {
        self.calls = self.calls.saturating_add(1);
        let room_left = self.room - self.held.len();
        if is_listed(self.calls, &self.failing) || piece.len() > room_left {
            let half = (piece.len() / 2).min(room_left);
            self.held.extend_from_slice(&piece[..half]).unwrap();
            self.faults = self.faults.saturating_add(1);
            return Err(Failed);
        }
        self.held.extend_from_slice(piece).unwrap();
        Ok(())
    }
}
