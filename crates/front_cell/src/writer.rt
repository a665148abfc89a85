// The writer of a cell.
use crate::front::Front;
use crate::view::EndPass;
use std::marker::Model;

/// The one writer of a cell.
///
/// Contracts see it as `WriterState`: its cell, the contents that it stored last, which the cell has, how many stores it made, and
/// how many loads the readers that it joined had made.
#[derive(Drop)]
pub struct Writer {
    pub(crate) pass: EndPass,
    pub(crate) front: Front,
}

impl Model for Writer {
    ghost use Rattle.front_cell.specs.Ends.{WriterState};

    ghost Value = { WriterState };

    ghost use Rattle.front_cell.specs.WriterFields.{writer_state, IsWriter};

    ghost view = { writer_state };

    ghost invariant = { IsWriter };
}
