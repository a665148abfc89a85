//! A cell of two words with the progress of a run: the number of committed rows, and whether the run is closed.
//!
//! [`FrontCell::new`] returns the cell and its one [`Writer`], which stores by [`FrontCell::advance`] and
//! [`FrontCell::close`]. [`FrontCell::split`] makes a [`Reader`], which may go to another thread and loads the cell by
//! [`FrontCell::read`]. [`FrontCell::join`] ends a reader. The cell is a ruled cell of `crossbeam_utils`.
//!
//! # What the layer above may use
//!
//! Contracts see a cell as its identity. A writer has its cell, the contents that it stored last, the number of its
//! stores, and the number of loads of the readers that it joined. A reader has its cell, the contents that it saw last, and the
//! number of its loads (`specs/Ends.antt`). An advance is one more store, so no reader sees a number that the writer did not
//! store. A close is one more store where the run is open, and at most one where it is closed. A split and a join store
//! nothing.
//!
//! A reader begins with the writer's contents and no load. A read is one more load and returns what the reader has then seen.
//! It is not older than what the reader saw before: its number is no smaller, and closed stays closed (`specs/Front.antt`). So it
//! is not older than the writer's contents at the split. Nothing else is known of what another thread stores.
//!
//! Each call requires that its writer or reader is of this cell. Only [`FrontCell::new`] takes memory. The other calls may wait
//! for a store that is under way: their clauses hold if they return. (A split and a join also take the handle, though the ruled
//! cell waits only at loads and stores.)
//!
//! # The rule
//!
//! A cell has four kinds of step: a store by the writer, a load by a reader, a split and a join. Between any two steps the cell
//! has what the writer stored last, no reader has seen more rows than the cell has, and none has seen closed unless the cell is
//! closed (`specs/Rule.antt`). `specs/Steps.antt` defines what a step does to the view of its end. A reader's view changes by its own
//! loads. A join ends it and leaves the view of a spent end, for which the rule requires nothing. Views exist only in proofs, so
//! stores and loads are counted without bound.
//!
//! [`writer_never_goes_back`] states what follows for all stores from the opening, and [`reader_never_goes_back`] for all reads from
//! a split (`specs/Laws.antt`).
//!
//! A pass is the token of an end. The ruled cell joins a pass only where it has just come from a split. So a join first moves
//! the reader's whole view to a new pass, and then joins that one to the writer's.
//!
//! # What no clause says
//!
//! No clause says that a call returns, that a thread runs, that memory is there, or that a read finds the latest store of
//! another thread. The rule relates the cell and the views at one moment. So it can't refuse a load after which the reader keeps
//! older contents: it might have loaded them before the store. The outcome under which [`FrontCell::read`] loads, `Loads` of
//! `specs/Steps.antt`, says that the loaded contents are those in the view.
//!
//! A test shows that a read after a store by the same thread returns what was stored. Another test has a writer and a reader in
//! two threads: its reads never go back, and at last see that the run is closed.
#![tactic(auto)]

mod cell;
mod front;
mod laws;
mod reader;
mod view;
mod writer;

pub use cell::FrontCell;
pub use front::Front;
pub use laws::{reader_never_goes_back, writer_never_goes_back};
pub use reader::Reader;
pub use writer::Writer;
