ghost use Rattle.std.specs.Prelude.{◌≡◌};
ghost use Rattle.guess_board.specs.Lanes.{IsTicket};

use crate::cell::Cell;
use std::marker::Model;

/// A ticket of a lane: its cells from a state on are to be answered. It is posted or given back once.
#[derive(Drop)]
pub struct Ticket {
    pub(crate) instance: u32,
    pub(crate) number: u64,
    pub(crate) start: Vec<i64>,
    pub(crate) cells: Vec<Cell>,
}

impl Model for Ticket {
    ghost use Rattle.guess_board.specs.Lanes.{TicketState};

    ghost Value = { TicketState };

    ghost use Rattle.guess_board.specs.Keeping.{ticket_state};
    ghost use Rattle.guess_board.specs.Lanes.{IsTicket};

    ghost view = { ticket_state };

    ghost invariant = { λ one. IsTicket (ticket_state one) };
}

impl Ticket {
    /// Returns the instance of its lane.
    pub fn instance(&self) -> u32
        ensures { result ≡ self.now.instance }
    {
        self.instance
    }

    /// Returns its number in that lane, from 0.
    pub fn number(&self) -> u64
        ensures { result ≡ self.now.number }
    {
        self.number
    }

    /// Returns the state before the first of its cells.
    pub fn start(&self) -> &[i64]
        ensures { result.now ≡ self.now.start }
    {
        &self.start
    }

    /// Returns its cells: at least one, each with as many words of inputs.
    pub fn cells(&self) -> &[Cell]
        ensures value { result.now ≡ self.now.cells }
        ensures kept { IsTicket self.now }
    {
        &self.cells
    }
}
