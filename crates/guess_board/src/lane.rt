ghost use Rattle.std.specs.Prelude.{◌≡◌, ◌+◌, ◌*◌, ◌^◌, ◌≤◌, ◌<◌, ◌↔◌, length, IsTrue, IfOk, IfErr, OnOk, OnErr, is_ok, false};
ghost use Rattle.std.specs.Option.{option_copied};
ghost use Rattle.guess_board.specs.Cells.{FitsLine};
ghost use Rattle.guess_board.specs.Events.{backed, found, is_full, is_of, opened, posted, published, taken, ticket_of};
ghost use Rattle.guess_board.specs.Journals.{counts_of, replay_of};
ghost use Rattle.guess_board.specs.Lanes.{IsLane};
ghost use Rattle.guess_board.specs.declared.fault.LaneFault.TheVariants as fault;
ghost use Rattle.unit_answers.specs.Keys.{key_of};

use crate::cell::Cell;
use crate::counts::LaneCounts;
use crate::fault::LaneFault;
use crate::journal::Journal;
use crate::needs::{is_same_need, matching, need, passed};
use crate::slots::{Slots, copied, empty_slots, find, move_answers, put_all};
use crate::ticket::Ticket;
use fixed_words::NoMemory;
use indexmap::IndexMap;
use std::alloc::Global;
use std::marker::Model;
use std::sync::Arc;
use unit_answers::Proven;
use unit_exec::{Image, Want};

/// The planned steps of one instance, and the answers to the first of them.
///
/// A lane is published with the state of its instance at a row and with the steps that are planned from there on
/// ([`Lane::publish`]). It gives out the steps without an answer as a [`Ticket`] ([`Lane::take`]). The answers to a ticket are
/// posted ([`Lane::post`]), or the ticket is given back ([`Lane::back`]). [`Lane::find`] looks at the first answer. When it is
/// published again, a lane keeps those answers that fit the new plan.
#[derive(Drop)]
pub struct Lane {
    image: Arc<Image>,
    instance: u32,
    row: u64,
    state: Vec<i64>,
    line: Vec<Cell>,
    slots: Slots,
    journal: Journal,
}

impl Model for Lane {
    ghost use Rattle.guess_board.specs.Lanes.{LaneState};

    ghost Value = { LaneState };

    ghost use Rattle.guess_board.specs.Keeping.{lane_state, IsKept};

    ghost view = { lane_state };

    ghost invariant = { IsKept };
}

impl Lane {
    /// Opens a lane of an instance with its image, at the start state and without planned steps.
    pub fn open(alloc: Global, image: Arc<Image>, instance: u32) -> Result<Lane, NoMemory>
        ensures { IfOk result (λ lane. lane ≡ opened image.value instance) }
    {
        let state = Vec::from_slice(alloc, image.start())?;
        Ok(Lane {
            image,
            instance,
            row: 0,
            state,
            line: Vec::new(alloc),
            slots: IndexMap::new(alloc),
            journal: Journal::new(alloc),
        })
    }

    /// Returns the image with which it was opened.
    pub fn image(&self) -> &Arc<Image>
        ensures { result.now.value ≡ self.now.image }
    {
        &self.image
    }

    /// States the invariant of every lane.
    pub fn facts(&self)
        ensures { IsLane self.now }
    {
        self.journal.facts();
    }

    /// Returns how many tickets were made, were posted and were given back, and how many answers were appended.
    pub fn counts(&self) -> LaneCounts
        ensures counts { result ≡ counts_of (replay_of self.now.journal.records) }
        ensures tickets { result.tickets < 2 ^ 32 }
        ensures ended { result.posted + result.back ≤ result.tickets }
        ensures appended { result.appended ≤ 16 * result.posted }
    {
        self.journal.facts();
        self.journal.counts()
    }

    /// Returns whether it has no space for another ticket.
    fn is_full(&self) -> bool
        ensures { result ≡ is_full self.now }
    {
        self.journal.is_full()
    }

    /// Returns the first answer, where it is that of the required step. Takes no memory.
    pub fn find(&self, want: Want<'_>) -> Option<&Proven>
        ensures { option_copied result ≡ found self.now (key_of want.entry) }
    {
        find(self.slots.values().as_slice(), want)
    }

    /// Sets the row and the state of the lane, and the line of planned steps from there on. Of the answers at or above the first
    /// planned row, the lane keeps the longest run that is a prefix of the chain of the new state and line, matched in sequence.
    /// Returns how many these are. Where the next needed step changed, there is no current ticket from now on.
    ///
    /// # Errors
    ///
    /// [`LaneFault::Full`] exactly where the lane is full. The lane is as before.
    pub fn publish(
        &mut self,
        alloc: Global,
        row: u64,
        state: &[i64],
        line: Vec<Cell>,
    ) -> Result<u32, LaneFault>
        requires { FitsLine self.old.image row state.now line.items }
        ensures published { OnOk result (self.new ≡ published self.old row state.now line.items) }
        ensures kept { IfOk result (λ kept. kept ≡ length self.new.answers) }
        ensures room { OnOk result (is_full self.old ≡ false) }
        ensures full { IfErr result (λ why. (why ≡ fault.Full) ↔ IsTrue (is_full self.old)) }
        ensures refused { OnErr result (self.new ≡ self.old) }
    {
        if self.is_full() {
            return Err(LaneFault::Full);
        }
        let mut slots = empty_slots(alloc, &line)?;
        let answers = self.slots.values().as_slice();
        let first = passed(&line, answers);
        let (_, left) = answers.split_at(first);
        let kept = matching(&self.image, state, &line, left);
        let (staying, _) = left.split_at(kept);
        let needed = need(&self.state, &self.line, answers);
        let cut = !is_same_need(needed, need(state, &line, staying));
        self.journal.publish(kept as u32, cut)?;
        move_answers(&mut self.slots, first, kept, &mut slots);
        self.row = row;
        self.state.copy_from_slice(state);
        self.line = line;
        self.slots = slots;
        Ok(kept as u32)
    }

    /// Makes a ticket for the planned steps without an answer. Returns `None` where no step is needed, where a ticket is current, and
    /// where the lane is full.
    ///
    /// # Errors
    ///
    /// [`NoMemory`]. The lane is as before.
    pub fn take(&mut self, alloc: Global) -> Result<Option<Ticket>, NoMemory>
        ensures ticket { IfOk result (λ ticket. ticket ≡ ticket_of self.old) }
        ensures taken { OnOk result (self.new ≡ taken self.old) }
        ensures refused { OnErr result (self.new ≡ self.old) }
    {
        if self.is_full() || self.journal.current().is_some() {
            return Ok(None);
        }
        let Some(needed) = need(&self.state, &self.line, self.slots.values().as_slice()) else {
            return Ok(None);
        };
        let start = Vec::from_slice(alloc, needed.state)?;
        let cells = copied(alloc, needed.cells)?;
        let number = self.journal.take()?;
        Ok(Some(Ticket {
            instance: self.instance,
            number,
            start,
            cells,
        }))
    }

    /// Returns whether a ticket is of this lane: of its instance, and outstanding.
    fn is_of(&self, ticket: &Ticket) -> bool
        ensures { result ≡ is_of self.now ticket.now }
    {
        ticket.instance() == self.instance && self.journal.is_outstanding(ticket.number())
    }

    /// Ends a ticket with answers. Goes through them in order, and appends each that answers the next needed step at that moment.
    /// Returns how many these are. Takes no memory.
    ///
    /// # Errors
    ///
    /// Returns the ticket, exactly where it is not of this lane. The lane is as before.
    pub fn post(&mut self, ticket: Ticket, answers: Vec<Proven>) -> Result<u32, Ticket>
        ensures own { is_ok result ≡ is_of self.old ticket }
        ensures posted { OnOk result (self.new ≡ posted self.old ticket.number answers.items) }
        ensures appended { IfOk result (λ appended. appended + length self.old.answers ≡ length self.new.answers) }
        ensures back { IfErr result (λ back. back ≡ ticket) }
        ensures refused { OnErr result (self.new ≡ self.old) }
    {
        if !self.is_of(&ticket) {
            return Err(ticket);
        }
        let appended = put_all(
            &self.image,
            &self.state,
            &self.line,
            &mut self.slots,
            answers,
        );
        self.journal.post(ticket.number(), appended);
        Ok(appended)
    }

    /// Ends a ticket without an answer. Takes no memory.
    ///
    /// # Errors
    ///
    /// Returns the ticket, exactly where it is not of this lane. The lane is as before.
    pub fn back(&mut self, ticket: Ticket) -> Result<(), Ticket>
        ensures own { is_ok result ≡ is_of self.old ticket }
        ensures backed { OnOk result (self.new ≡ backed self.old ticket.number) }
        ensures back { IfErr result (λ back. back ≡ ticket) }
        ensures refused { OnErr result (self.new ≡ self.old) }
    {
        if !self.is_of(&ticket) {
            return Err(ticket);
        }
        self.journal.give_back(ticket.number());
        Ok(())
    }
}
