//! The places of the facts of each row in a growing list of facts.
ghost use Rattle.std.specs.Prelude.{◌≡◌, ◌≤◌, ◌<◌, ◌++◌, ◌∷◌, ◌^◌, [], List, length, take, OnOk};
ghost use Rattle.link_laws.specs.Boards.{row_of};
ghost use Rattle.link_laws.specs.declared.fact.Fact.{Fact as TheFact};
ghost use Rattle.link_nodes.specs.ShownRows.{AreNoted, AreOfOtherRows};

use fixed_words::NoMemory;
use link_core::Fact;
use std::alloc::Global;

/// The places from `first` on and before `end`.
#[derive(Clone, Copy, Debug)]
pub(crate) struct Span {
    pub(crate) first: usize,
    pub(crate) end: usize,
}

/// A span for each row, with the places of its facts among the first `noted` of a list.
#[derive(Drop)]
pub(crate) struct Spans {
    pub(crate) rows: Vec<Span>,
    pub(crate) noted: usize,
}

/// Adds empty spans, until there is one for the row.
fn grow(rows: &mut Vec<Span>, row: usize, place: usize) -> Result<(), NoMemory>
    ensures long { OnOk result (row < length rows.new.items) }
    ensures noted { OnOk result ((facts : List TheFact) → length facts ≡ place → AreNoted rows.old.items facts → AreNoted rows.new.items facts) }
{
    while rows.len() <= row {
        rows.push(Span {
            first: place,
            end: place,
        })?;
    }
    Ok(())
}

/// Notes one more fact of a row, at a place after all that were noted.
fn note_one(rows: &mut Vec<Span>, place: usize, row: u64) -> Result<(), NoMemory>
    requires place { place < 2 ^ 63 }
    ensures { OnOk result ((facts : List TheFact) (fact : TheFact) → length facts ≡ place → row_of fact ≡ row → AreNoted rows.old.items facts
        → AreNoted rows.new.items (facts ++ fact ∷ [])) }
{
    grow(rows, row as usize, place)?;
    rows[row as usize].end = place + 1;
    Ok(())
}

impl Spans {
    /// Returns the spans of no facts.
    pub(crate) fn new(alloc: Global) -> Spans
        ensures rows { result.rows.items ≡ [] }
        ensures noted { result.noted ≡ 0 }
    {
        Spans {
            rows: Vec::new(alloc),
            noted: 0,
        }
    }

    /// Notes the facts that the list has got since the last call.
    pub(crate) fn note(&mut self, facts: &[Fact]) -> Result<(), NoMemory>
        requires noted { AreNoted self.old.rows.items (take self.old.noted facts.now) }
        requires within { self.old.noted ≤ length facts.now }
        ensures noted { OnOk result (AreNoted self.new.rows.items facts.now) }
        ensures all { OnOk result (self.new.noted ≡ length facts.now) }
    {
        for place in self.noted..facts.len() {
            note_one(&mut self.rows, place, facts[place].row())?;
        }
        self.noted = facts.len();
        Ok(())
    }

    /// Returns the span of a row. Outside of it there is no fact of the row.
    pub(crate) fn span(&self, row: u64) -> Span
        ensures others { (facts : List TheFact) → AreNoted self.now.rows.items facts → AreOfOtherRows facts row result.first result.end }
        ensures end { (facts : List TheFact) → AreNoted self.now.rows.items facts → result.end ≤ length facts }
    {
        match self.rows.get(row as usize) {
            Some(span) => *span,
            None => Span { first: 0, end: 0 },
        }
    }
}
