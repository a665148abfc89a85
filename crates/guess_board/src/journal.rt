//! The journal of a lane: a record of each event, and the counts that follow from the records.
ghost use Rattle.std.specs.Prelude.{◌≡◌, ◌<◌, ◌≤◌, ◌++◌, ◌∷◌, [], false, true, IfOk, OnOk, OnErr, None, vec_len};
ghost use Rattle.std.specs.Vec.{vec_capacity};
ghost use Rattle.guess_board.specs.Journals.{counts_of, current_after, is_listed, is_full_journal, next_ticket, no_records, replay_of};
ghost use Rattle.guess_board.specs.Journals.{unless_ended, with_back, with_post, with_publish, with_ticket, without, IsBooked};

use crate::counts::LaneCounts;
use fixed_words::NoMemory;
use std::alloc::Global;
use std::marker::Model;

/// What happened to a lane.
#[derive(Clone, Copy, Debug)]
pub enum Record {
    /// It was published, and kept so many answers. `cut` says whether the next needed step changed by that.
    Published { kept: u32, cut: bool },
    /// It made a ticket.
    Taken { ticket: u64 },
    /// A ticket was posted, and so many answers were appended.
    Posted { ticket: u64, appended: u32 },
    /// A ticket was given back.
    Back { ticket: u64 },
}

/// A journal is full where its records and outstanding tickets together are more than this. So there are never more than 2^32 - 1
/// records: a ticket adds its own record and, as long as it is outstanding, reserves the place for the record of its end.
const LIMIT: usize = (1 << 32) - 3;

/// The records of a lane, and the counts that follow from them.
#[derive(Drop)]
pub(crate) struct Journal {
    records: Vec<Record>,
    /// The numbers of the tickets that were neither posted nor given back.
    outstanding: Vec<u64>,
    /// The number of the current ticket, which answers what the lane needs next, where there is one.
    current: Option<u64>,
    counts: LaneCounts,
}

impl Model for Journal {
    ghost use Rattle.guess_board.specs.Journals.{JournalState};

    ghost Value = { JournalState };

    ghost use Rattle.guess_board.specs.Booking.{journal_state, IsJournal};

    ghost view = { journal_state };

    ghost invariant = { IsJournal };
}

/// Adds a record where there is space for it.
fn note(records: &mut Vec<Record>, one: Record)
    requires { vec_len records.old < vec_capacity records.old }
    ensures items { records.new.items ≡ records.old.items ++ one ∷ [] }
    ensures room { vec_capacity records.old ≤ vec_capacity records.new }
{
    let _ = records.push(one);
}

/// Removes a number from some, where it is among them.
fn remove(outstanding: &mut Vec<u64>, ticket: u64)
    ensures { outstanding.new.items ≡ without ticket outstanding.old.items }
{
    for place in 0..outstanding.len() {
        if outstanding[place] == ticket {
            outstanding.remove(place);
            return;
        }
    }
}

/// Returns the current ticket after a ticket ended: `None`, where it was this one.
fn unless_ended(current: Option<u64>, ended: u64) -> Option<u64>
    ensures { result ≡ unless_ended ended current }
{
    match current {
        Some(ticket) if ticket == ended => None,
        _ => current,
    }
}

/// Returns the current ticket after a publish: `None`, where the publish cut.
fn current_after(current: Option<u64>, cut: bool) -> Option<u64>
    ensures { result ≡ current_after cut current }
{
    if cut { None } else { current }
}

impl Journal {
    /// Returns a journal without records.
    pub(crate) fn new(alloc: Global) -> Journal
        ensures { result ≡ no_records }
    {
        Journal {
            records: Vec::new(alloc),
            outstanding: Vec::new(alloc),
            current: None,
            counts: LaneCounts::NONE,
        }
    }

    /// States the invariant of every journal.
    pub(crate) fn facts(&self)
        ensures { IsBooked self.now }
    {
        let _ = &self.counts;
    }

    /// Returns whether it has no space for another ticket.
    pub(crate) fn is_full(&self) -> bool
        ensures { result ≡ is_full_journal self.now }
    {
        self.records.len() + self.outstanding.len() > LIMIT
    }

    /// Returns the number of the current ticket, if there is one.
    pub(crate) fn current(&self) -> Option<u64>
        ensures { result ≡ self.now.current }
    {
        self.current
    }

    /// Returns whether a ticket is outstanding.
    pub(crate) fn is_outstanding(&self, ticket: u64) -> bool
        ensures { result ≡ is_listed ticket self.now.outstanding }
    {
        self.outstanding.contains(&ticket)
    }

    /// Returns the counts of its records.
    pub(crate) fn counts(&self) -> LaneCounts
        ensures { result ≡ counts_of (replay_of self.now.records) }
    {
        self.counts
    }

    /// Records a publish.
    pub(crate) fn publish(&mut self, kept_answers: u32, cut: bool) -> Result<(), NoMemory>
        requires room { is_full_journal self.old ≡ false }
        ensures noted { OnOk result (self.new ≡ with_publish self.old kept_answers cut) }
        ensures refused { OnErr result (self.new ≡ self.old) }
    {
        self.records.reserve(self.outstanding.len() + 1)?;
        note(
            &mut self.records,
            Record::Published {
                kept: kept_answers,
                cut,
            },
        );
        self.current = current_after(self.current, cut);
        Ok(())
    }

    /// Records a new ticket, which is the current one from now on. Returns its number.
    pub(crate) fn take(&mut self) -> Result<u64, NoMemory>
        requires room { is_full_journal self.old ≡ false }
        requires free { self.old.current ≡ None }
        ensures number { IfOk result (λ ticket. ticket ≡ next_ticket self.old) }
        ensures noted { OnOk result (self.new ≡ with_ticket self.old (next_ticket self.old)) }
        ensures refused { OnErr result (self.new ≡ self.old) }
    {
        let ticket = self.counts.tickets;
        self.records.reserve(self.outstanding.len() + 2)?;
        self.outstanding.push(ticket)?;
        note(&mut self.records, Record::Taken { ticket });
        self.current = Some(ticket);
        self.counts.tickets += 1;
        Ok(ticket)
    }

    /// Ends a ticket that was posted. Takes no memory.
    pub(crate) fn post(&mut self, ticket: u64, appended: u32)
        requires outstanding { is_listed ticket self.old.outstanding ≡ true }
        requires few { appended ≤ 16 }
        ensures { self.new ≡ with_post self.old ticket appended }
    {
        remove(&mut self.outstanding, ticket);
        self.current = unless_ended(self.current, ticket);
        note(&mut self.records, Record::Posted { ticket, appended });
        self.counts.posted += 1;
        self.counts.appended += u64::from(appended);
    }

    /// Ends a ticket that was given back. Takes no memory.
    pub(crate) fn give_back(&mut self, ticket: u64)
        requires outstanding { is_listed ticket self.old.outstanding ≡ true }
        ensures { self.new ≡ with_back self.old ticket }
    {
        remove(&mut self.outstanding, ticket);
        self.current = unless_ended(self.current, ticket);
        note(&mut self.records, Record::Back { ticket });
        self.counts.back += 1;
    }
}
