//! A sink that compares written bytes with a table.
ghost use Rattle.std.specs.Prelude.{◌≡◌, ◌≤◌, [], true, false, List, drop, length, IfOk, IsErr, Some};
ghost use Rattle.std.specs.List.{AllByRecursion, prefix_len};
ghost use Rattle.std.specs.Option.{option_map};
ghost use Rattle.csv.specs.Records.{fields_of};
ghost use Rattle.cosim_io.specs.Faults.{HasCause};
ghost use Rattle.trace_verify.specs.Comparing.{Begins, IsJudged, PutsByte, all_held, begun, goes_on, text_put};
ghost use Rattle.stimulus_tables.specs.Reading.{Gives};
ghost use Rattle.trace_verify.specs.TraceLines.{IsTraceLine, fields_between, first_field, is_inside, is_next, lines_text, other_fields};
ghost use Rattle.trace_verify.specs.Verdicts.{column_from, verdict_of};
ghost use Rattle.stimulus_tables.specs.Records.{Fields, records_of};

use crate::verdict::Verdict;
use cosim_io::{Failed, Sink};
use csv::{ByteRecord, Reader};
use fixed_words::NoMemory;
use std::alloc::{AllocError, Global};
use std::marker::Model;
use stimulus_tables::{read_table, take_record};

/// The state of a comparison.
#[derive(Clone, Copy)]
pub(crate) enum ComparisonState {
    /// All lines so far were the records of the table.
    Same,
    /// A line differs from its record, or the table has no record for it.
    Differs {
        /// The number of the first field that differs, from 1.
        column: u64,
    },
    /// Memory was refused.
    NoMemory,
}

/// Returns how many bytes come before the first comma.
fn field_length(line: &[u8]) -> usize
    ensures length { result ≡ prefix_len is_inside line.now }
    ensures within { result ≤ length line.now }
{
    line.iter().take_while(|byte| **byte != b',').count()
}

/// Returns the bytes before the first comma and, where there is one, those after it.
fn cut_field(line: &[u8]) -> (&[u8], Option<&[u8]>)
    ensures first { result.0.now ≡ first_field line.now }
    ensures others { option_map (λ others. others.now) result.1 ≡ other_fields line.now }
{
    let (field, behind) = line.split_at(field_length(line));
    match behind {
        [] => (field, None),
        [_, others @ ..] => (field, Some(others)),
    }
}

/// Returns whether the field of a record at a place, from 0, has these bytes.
fn is_field(fields: &ByteRecord, place: usize, piece: &[u8]) -> bool
    ensures { result ≡ is_next piece.now (drop place (fields_of fields.now)) }
{
    match fields.get(place) {
        Some(field) => piece == field,
        None => false,
    }
}

/// Returns the number of the first field, from 1, in which a line and a record differ, or `None` where they are equal.
fn column_apart(line: &[u8], fields: &ByteRecord) -> Option<u64>
    ensures { result ≡ column_from 1 (fields_between line.now) (fields_of fields.now) }
{
    let mut place = 0;
    let mut rest = Some(line);
    while let Some(bytes) = rest {
        let (piece, others) = cut_field(bytes);
        if !is_field(fields, place, piece) {
            return Some(place as u64 + 1);
        }
        place += 1;
        rest = others;
    }
    if place < fields.len() {
        Some(place as u64 + 1)
    } else {
        None
    }
}

/// Compares a whole line with the next record, which replaces the contents of `fields`.
fn judge(reader: &mut Reader<&[u8]>, fields: &mut ByteRecord, line: &[u8]) -> ComparisonState
    ensures { (rest : List Fields) → Gives reader.old rest → IsJudged rest line.now reader.new result }
{
    match take_record(reader, fields) {
        Ok(true) => match column_apart(line, fields) {
            Some(column) => ComparisonState::Differs { column },
            None => ComparisonState::Same,
        },
        Ok(false) => ComparisonState::Differs { column: 1 },
        Err(_) => ComparisonState::NoMemory,
    }
}

/// A sink that compares the written lines with the records of a table, one after the other. It keeps one line and one record.
/// At the first line that differs from its record it fails, so that no more is written.
#[derive(Drop)]
pub(crate) struct Comparison<'t> {
    table: &'t [u8],
    reader: Reader<&'t [u8]>,
    fields: ByteRecord,
    /// The number of the next record, from 1.
    number: u64,
    /// What was written so far of the line that is compared with this record, without its end.
    line: Vec<u8>,
    course: ComparisonState,
    faults: u64,
}

impl<'t> Model for Comparison<'t> {
    ghost use Rattle.trace_verify.specs.Comparing.{Compared, IsComparison, compared};

    ghost Value = { Compared };

    ghost view = { compared };

    ghost invariant = { IsComparison };
}

impl<'t> Comparison<'t> {
    /// Returns a comparison with a table, to which nothing was written yet.
    pub(crate) fn new(alloc: Global, table: &'t [u8]) -> Comparison<'t>
        ensures { result ≡ begun table.now }
    {
        Comparison {
            table,
            reader: read_table(alloc, table),
            fields: ByteRecord::new(alloc),
            number: 1,
            line: Vec::new(alloc),
            course: ComparisonState::Same,
            faults: 0,
        }
    }

    /// Compares the complete line with the next record.
    fn end_line(&mut self)
        requires { self.old.course ≡ ComparisonState.Same }
        ensures { PutsByte self.old self.new 10 (goes_on self.new.course) }
    {
        self.course = judge(&mut self.reader, &mut self.fields, self.line.as_slice());
        if let ComparisonState::Same = self.course {
            match self.number.checked_add(1) {
                Some(number) => {
                    self.number = number;
                    self.line.clear();
                }
                None => self.course = ComparisonState::NoMemory,
            }
        }
    }
    /// Takes the next written byte. Returns whether all is the same so far.
    fn take_byte(&mut self, byte: u8) -> bool
        ensures { PutsByte self.old self.new byte result }
    {
        if !self.is_same() {
            return false;
        }
        if byte == b'\n' {
            self.end_line();
        } else if self.line.push(byte).is_err() {
            self.course = ComparisonState::NoMemory;
        }
        self.is_same()
    }

    /// Returns whether all that was written is the same as the table so far.
    fn is_same(&self) -> bool
        ensures { result ≡ goes_on self.now.course }
    {
        matches!(self.course, ComparisonState::Same)
    }

    /// Counts a write that failed.
    fn fail(&mut self) -> Result<(), Failed>
        ensures failed { IsErr result }
        ensures same { all_held self.new ≡ all_held self.old }
        ensures cause { HasCause self.old.faults self.new.faults result }
    {
        self.faults = self.faults.saturating_add(1);
        Err(Failed)
    }
    /// Returns the verdict after a whole trace that is the same: whether the table has no further records.
    fn at_end(self) -> Result<Verdict, NoMemory>
        requires { self.course ≡ ComparisonState.Same }
        ensures { (lines : List Fields) → AllByRecursion IsTraceLine lines → text_put self.entry ≡ lines_text lines
            → IfOk result (λ verdict. verdict ≡ verdict_of lines (records_of self.entry.table)) }
    {
        let Comparison {
            mut reader,
            mut fields,
            number,
            ..
        } = self;
        if take_record(&mut reader, &mut fields)? {
            Ok(Verdict::No { number, column: 1 })
        } else {
            Ok(Verdict::Yes)
        }
    }

    /// Returns the verdict on the written lines of a trace. `whole` says whether all lines were written or only a prefix of their text.
    pub(crate) fn verdict(self, whole: bool) -> Result<Verdict, NoMemory>
        ensures { (lines : List Fields) → AllByRecursion IsTraceLine lines → Begins whole (text_put self.entry) (lines_text lines)
            → IfOk result (λ verdict. verdict ≡ verdict_of lines (records_of self.entry.table)) }
    {
        match self.course {
            ComparisonState::Differs { column } => Ok(Verdict::No {
                number: self.number,
                column,
            }),
            ComparisonState::Same if whole => self.at_end(),
            _ => Err(AllocError),
        }
    }
}

impl<'t> Sink for Comparison<'t> {
    ghost held = { λ comparison. Some (all_held comparison) };

    ghost faults = { λ comparison. comparison.faults };

    fn put(&mut self, piece: &[u8]) -> Result<(), Failed> {
        for byte in piece {
            if !self.take_byte(*byte) {
                return self.fail();
            }
        }
        Ok(())
    }
}
