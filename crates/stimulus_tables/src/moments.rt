//! The moments of a table.
ghost use Rattle.std.specs.Prelude.{◌<◌, [], List, drop, IfOk};
ghost use Rattle.csv.specs.Records.{fields_of};
ghost use Rattle.stimulus_tables.specs.Tables.{IsNextTime, MayFollow};
ghost use Rattle.stimulus_tables.specs.TableFields.{AreEntries, IsMomentOf};
ghost use Rattle.text_tokens.specs.Results.{Decides, Tells};

use crate::fields::{entry_in, time_in};
use crate::moment::Moment;
use csv::ByteRecord;
use fixed_words::{List, NoMemory};
use std::alloc::Global;
use unit_tree::Name;

/// The greatest number of moments of a table.
const MOST_MOMENTS: usize = 20;

/// Returns the words of a record after its first field.
fn words_in(alloc: Global, fields: &ByteRecord) -> Result<Option<List<i64>>, NoMemory>
    ensures { IfOk result (λ told. Tells told (AreEntries (drop 1 (fields_of fields.now)))) }
{
    let mut words = List::new(alloc);
    let mut place = 1;
    while let Some(field) = fields.get(place) {
        let Some(word) = entry_in(field) else {
            return Ok(None);
        };
        words.push(word)?;
        place += 1;
    }
    Ok(Some(words))
}

/// Returns the moment of a record, with so many words.
fn moment_in(alloc: Global, fields: &ByteRecord, count: usize) -> Result<Option<Moment>, NoMemory>
    ensures { IfOk result (λ told. Tells told (IsMomentOf count (fields_of fields.now))) }
{
    let Some(first) = fields.get(0) else {
        return Ok(None);
    };
    let Some(time) = time_in(first) else {
        return Ok(None);
    };
    let Some(words) = words_in(alloc, fields)? else {
        return Ok(None);
    };
    if words.len() == count {
        Ok(Some(Moment { time, words }))
    } else {
        Ok(None)
    }
}

/// Returns whether a time may follow those of some moments.
fn is_next_time(before: &[Moment], time: u64) -> bool
    ensures { Decides result (IsNextTime before.now time) }
{
    match before {
        [] => time == 0,
        [.., last] => last.time < time,
    }
}

/// Returns the moment of a record, where it may follow some moments.
pub(crate) fn next_moment(
    alloc: Global,
    fields: &ByteRecord,
    names: &[Name],
    before: &[Moment],
) -> Result<Option<Moment>, NoMemory>
    ensures { IfOk result (λ told. Tells told (MayFollow names.now before.now (fields_of fields.now))) }
{
    if before.len() >= MOST_MOMENTS {
        return Ok(None);
    }
    let Some(moment) = moment_in(alloc, fields, names.len())? else {
        return Ok(None);
    };
    if is_next_time(before, moment.time) {
        Ok(Some(moment))
    } else {
        Ok(None)
    }
}
