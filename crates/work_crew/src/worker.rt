//! A worker: it takes tickets, steps components ahead from guessed inputs, and posts the answers.
ghost use Rattle.std.specs.Prelude.{◌≡◌, true};
ghost use Rattle.std.specs.Option.{ForSome};
ghost use Rattle.std.specs.Arc.{arc_value};
ghost use Rattle.guess_board.specs.Lanes.{FitsImage};

use crew_lanes::Desk;
use crossbeam_utils::Backoff;
use fixed_words::NoMemory;
use front_cell::{Front, FrontCell, Reader};
use guess_board::{Ticket, work_off};
use std::alloc::Global;
use std::sync::{Arc, Wait};
use ticket_deque::{Hand, Reach};
use unit_answers::Proven;
use unit_exec::{Image, Unit};

/// A worker's view of the progress cell.
#[derive(Drop)]
pub(crate) struct Watch {
    pub(crate) front: Arc<FrontCell>,
    pub(crate) reader: Reader,
    ghost same_cell: { reader.cell ≡ arc_value front },
}

impl Watch {
    /// Returns how far the run has come.
    fn look<R: Wait>(&mut self, rt: &R) -> Front {
        self.front.read(rt, &mut self.reader)
    }
}

/// Where a worker makes the answers of an instance: its image, and a unit of the worker's own, once it has answered a ticket.
#[derive(Drop)]
pub(crate) struct Workplace {
    image: Arc<Image>,
    unit: Option<Unit>,
    ghost own: { ForSome unit (λ made. made.image ≡ image.value) },
}

impl Workplace {
    /// Returns a workplace without a unit.
    pub(crate) fn new(image: Arc<Image>) -> Workplace {
        Workplace { image, unit: None }
    }

    /// Appends the answers to a ticket that fits. Where memory is refused, these are the answers to its first cells.
    fn answer(
        &mut self,
        alloc: Global,
        ticket: &Ticket,
        answers: &mut Vec<Proven>,
    ) -> Result<(), NoMemory>
        requires fits { FitsImage self.old.image.value ticket.now }
    {
        let mut unit = match self.unit.take() {
            Some(unit) => unit,
            None => Unit::new(alloc, Arc::clone(&self.image)?)?,
        };
        let cells = ticket.cells().len() as u32;
        let answered = work_off(alloc, &mut unit, &self.image, ticket, cells, answers);
        self.unit = Some(unit);
        answered
    }
}

/// Returns whether a ticket fits an image: its start has a word for each state, and each of its cells one for each input.
fn fits(image: &Image, ticket: &Ticket) -> bool
    ensures { result ≡ true → FitsImage image.now ticket.now }
{
    let [first, ..] = ticket.cells() else {
        return false;
    };
    ticket.start().len() == image.states() as usize
        && first.inputs.as_slice().len() == image.inputs() as usize
}

/// Returns whether a ticket begins before the row of a run that has written so many.
fn is_behind(ticket: &Ticket, rows: u64) -> bool {
    match ticket.cells() {
        [first, ..] => first.row.saturating_add(1) < rows,
        [] => false,
    }
}

/// The lanes from which a worker takes tickets first: those whose number has the worker's number as remainder by that of workers.
#[derive(Clone, Copy)]
pub(crate) struct Home {
    pub(crate) number: u32,
    pub(crate) workers: u32,
}

impl Home {
    /// Returns whether the lane of an instance is one of them.
    fn has(self, instance: u32) -> bool {
        instance % self.workers.max(1) == self.number
    }
}

/// What a worker sees of the run, and its home lanes.
#[derive(Drop)]
pub(crate) struct WorkerView {
    pub(crate) watch: Watch,
    pub(crate) desk: Arc<Desk>,
    pub(crate) home: Home,
    pub(crate) alloc: Global,
}

/// The tickets that a worker may take: those of its hand, and by reaches those of the others, in rising order after its own number.
#[derive(Drop)]
pub(crate) struct Tickets {
    pub(crate) hand: Hand<Ticket>,
    pub(crate) others: Vec<Reach<Ticket>>,
}

impl Tickets {
    /// Returns the next ticket of the hand, or one of another's, or `None` where all are empty.
    fn next<R: Wait>(&mut self, rt: &R) -> Option<Ticket> {
        if let Some(ticket) = self.hand.next() {
            return Some(ticket);
        }
        for other in self.others.iter_mut() {
            if let Some(ticket) = other.steal(rt) {
                return Some(ticket);
            }
        }
        None
    }

    /// Gives back the tickets of the hand.
    fn give_back<R: Wait>(&mut self, rt: &R, desk: &Desk) {
        while let Some(ticket) = self.hand.next() {
            desk.back(rt, ticket);
        }
    }
}

/// What a worker has.
#[derive(Drop)]
pub(crate) struct Worker {
    pub(crate) seat: WorkerView,
    pub(crate) tickets: Tickets,
    /// One for each instance.
    pub(crate) workplaces: Vec<Workplace>,
}

/// The work of a thread, from a worker's parts. The parts are separate, so that each of them is known to be sendable to a thread.
pub(crate) trait Works<T, P> {
    /// Does the work.
    fn work<R: Wait>(self, tickets: T, workplaces: P, rt: &R);
}

impl Works<Tickets, Vec<Workplace>> for WorkerView {
    fn work<R: Wait>(self, tickets: Tickets, workplaces: Vec<Workplace>, rt: &R) {
        let worker = Worker {
            seat: self,
            tickets,
            workplaces,
        };
        worker.work(rt);
    }
}

impl Worker {
    /// Works turn by turn, until the cell is closed or memory is refused. Then it gives back all its tickets. The longer it finds
    /// nothing, the less often it looks, however fast the run is: a worker that looks often slows the run down.
    fn work<R: Wait>(mut self, rt: &R) {
        let backoff = Backoff::new();
        for _ in rt.forever() {
            let front = self.seat.watch.look(rt);
            if front.closed {
                break;
            }
            match self.turn(rt, front.rows) {
                Ok(true) => backoff.reset(),
                Ok(false) => backoff.snooze(),
                Err(_) => break,
            }
        }
        self.tickets.give_back(rt, &self.seat.desk);
    }

    /// Makes one turn, when so many rows were written. Returns whether it found a ticket. A ticket for a row which the run has left is
    /// given back: from its present row, the run needs another one. So is one of a lane that the run withdrew, since it makes that
    /// step itself.
    fn turn<R: Wait>(&mut self, rt: &R, rows: u64) -> Result<bool, NoMemory> {
        let served = self.take_home(rt)?;
        match self.tickets.next(rt) {
            Some(ticket)
                if is_behind(&ticket, rows) || !self.seat.desk.is_offered(ticket.instance()) => {
                self.seat.desk.back(rt, ticket);
                Ok(true)
            }
            Some(ticket) => {
                self.serve(rt, ticket)?;
                Ok(true)
            }
            None => Ok(served),
        }
    }

    /// Takes a ticket of each home lane that makes one, the last lane first, since the run begins with the first one. A ticket for which
    /// the hand has no space is answered at once. Returns whether there was such a ticket.
    fn take_home<R: Wait>(&mut self, rt: &R) -> Result<bool, NoMemory> {
        let mut served = false;
        for instance in (0..self.seat.desk.len() as u32).rev() {
            if !self.seat.home.has(instance) {
                continue;
            }
            let Ok(Some(ticket)) = self.seat.desk.take(rt, self.seat.alloc, instance) else {
                continue;
            };
            if let Err(ticket) = self.tickets.hand.put(ticket) {
                self.serve(rt, ticket)?;
                served = true;
            }
        }
        Ok(served)
    }

    /// Answers a ticket, and posts the answers. A ticket that fits no workplace is given back.
    fn serve<R: Wait>(&mut self, rt: &R, ticket: Ticket) -> Result<(), NoMemory> {
        let Some(workplace) = self.workplaces.get_mut(ticket.instance() as usize) else {
            self.seat.desk.back(rt, ticket);
            return Ok(());
        };
        if !fits(&workplace.image, &ticket) {
            self.seat.desk.back(rt, ticket);
            return Ok(());
        }
        let mut answers = Vec::new(self.seat.alloc);
        let answered = workplace.answer(self.seat.alloc, &ticket, &mut answers);
        self.seat.desk.post(rt, ticket, answers);
        answered
    }
}
