// The reader of a cell.
use crate::view::EndPass;
use std::marker::Model;

/// A reader of a cell, in any thread.
///
/// Contracts see it as `ReaderState`: its cell, what its last load returned, and how many loads it made. Before the first load,
/// it has what the writer had at the split.
#[derive(Drop)]
pub struct Reader {
    pub(crate) pass: EndPass,
}

impl Model for Reader {
    ghost use Rattle.front_cell.specs.Ends.{ReaderState};

    ghost Value = { ReaderState };

    ghost use Rattle.front_cell.specs.ReaderFields.{reader_state, IsReader};

    ghost view = { reader_state };

    ghost invariant = { IsReader };
}
