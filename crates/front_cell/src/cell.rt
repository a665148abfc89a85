// The cell and its calls.
ghost use Rattle.std.specs.Prelude.{◌≡◌, ◌+◌, ◌≤◌, false, IfOk};
ghost use Rattle.front_cell.specs.Front.{opening, open_at, closed_at, IsBehind};

use crate::front::Front;
use crate::reader::Reader;
use crate::view::{Begin, End, HandOn, InStep, Load, Store, View};
use crate::writer::Writer;
use crossbeam_utils::atomic::seq_cell::RuledSeqCell;
use std::alloc::{AllocError, Global};
use std::marker::Model;
use std::sync::Wait;

/// A cell of two words: the number of committed rows, and whether the run is closed.
///
/// Contracts see a cell as its identity.
#[derive(Drop)]
pub struct FrontCell {
    words: RuledSeqCell<Front, View, InStep, 2>,
}

impl Model for FrontCell {
    ghost use Rattle.front_cell.specs.Ends.{CellId};

    ghost Value = { CellId };

    ghost use Rattle.front_cell.specs.CellFields.{cell_id};

    ghost view = { cell_id };
}

impl FrontCell {
    /// Returns a cell with no rows, of an open run, and its writer.
    ///
    /// Fails with `AllocError` where there is no memory for it.
    pub fn new(alloc: Global) -> Result<(FrontCell, Writer), AllocError>
        ensures { IfOk result (λ made. made.1 ≡ record { cell = made.0; front = opening; stores = 0; joined = 0 }) }
    {
        let front = Front::open_at(0);
        let (words, pass) = RuledSeqCell::ruled(alloc, front)?;
        Ok((FrontCell { words }, Writer { pass, front }))
    }

    /// Stores a number of rows, while the run is open. The number must be at least the last one. It is one store: no reader sees
    /// a number in between.
    pub fn advance<R: Wait>(&self, rt: &R, writer: &mut Writer, rows: u64)
        requires own { writer.old.cell ≡ self.now }
        requires forward { writer.old.front.rows ≤ rows }
        requires still_open { writer.old.front.closed ≡ false }
        ensures { writer.new ≡ record writer.old { front = open_at rows; stores = writer.old.stores + 1 } }
    {
        self.store(rt, writer, Front::open_at(rows));
    }

    /// Closes the run, by one store. Another close leaves the cell's contents as they are, by at most one store.
    pub fn close<R: Wait>(&self, rt: &R, writer: &mut Writer)
        requires { writer.old.cell ≡ self.now }
        ensures closed { writer.new ≡ record writer.old { front = closed_at writer.old.front; stores = writer.new.stores } }
        ensures one_store { writer.old.front.closed ≡ false → writer.new.stores ≡ writer.old.stores + 1 }
        ensures no_fewer { writer.old.stores ≤ writer.new.stores }
        ensures at_most_one { writer.new.stores ≤ writer.old.stores + 1 }
    {
        let next = writer.front.to_closed();
        self.store(rt, writer, next);
    }

    // Makes a store. The writer makes no other kind of step.
    fn store<R: Wait>(&self, rt: &R, writer: &mut Writer, next: Front)
        requires own { writer.old.cell ≡ self.now }
        requires forward { IsBehind writer.old.front next }
        ensures { writer.new ≡ record writer.old { front = next; stores = writer.old.stores + 1 } }
    {
        self.words.swap_as::<Store, R>(rt, &mut writer.pass, next);
        writer.front = next;
    }

    /// Returns a new reader, which has seen what the writer stored last, and has made no load.
    pub fn split<R: Wait>(&self, _rt: &R, writer: &mut Writer) -> Reader
        requires { writer.old.cell ≡ self.now }
        ensures same { writer.new ≡ writer.old }
        ensures new { result ≡ record { cell = writer.old.cell; seen = writer.old.front; loads = 0 } }
    {
        Reader {
            pass: self.words.split_pass::<Begin>(&mut writer.pass),
        }
    }

    /// Makes one load of the cell. Returns what the cell had at some moment of this call.
    pub fn read<R: Wait>(&self, rt: &R, reader: &mut Reader) -> Front
        requires { reader.old.cell ≡ self.now }
        ensures loaded { reader.new ≡ record { cell = reader.old.cell; seen = result; loads = reader.old.loads + 1 } }
        ensures not_behind { IsBehind reader.old.seen result }
    {
        self.words.load_as::<Load, R>(rt, &mut reader.pass)
    }

    /// Ends a reader; the writer counts its loads from now on. The writer's last store and the cell stay.
    pub fn join<R: Wait>(&self, _rt: &R, writer: &mut Writer, reader: Reader)
        requires own_writer { writer.old.cell ≡ self.now }
        requires own_reader { reader.cell ≡ self.now }
        ensures { writer.new ≡ record writer.old { joined = writer.old.joined + reader.loads } }
    {
        let mut used = reader.pass;
        let fresh = self.words.split_pass::<HandOn>(&mut used);
        self.words.join_pass::<End>(&mut writer.pass, fresh);
    }
}
