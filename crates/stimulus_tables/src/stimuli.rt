//! The system that plays a table.
ghost use Rattle.std.specs.Prelude.{[], List};
ghost use Rattle.std.specs.List.{AllByRecursion};
ghost use Rattle.stimulus_tables.specs.Tables.{BeginsTable, IsWritable};
ghost use Rattle.stimulus_tables.specs.Reading.{Gives};
ghost use Rattle.stimulus_tables.specs.Stimuli.{BeganTable, MakesSystem, ReadsHead, ReadsMoments};
ghost use Rattle.stimulus_tables.specs.Records.{Fields, records_of};

use crate::fault::TableFault;
use crate::moment::Moment;
use crate::moments::next_moment;
use crate::names::names_in;
use crate::records::{read_table, take_record};
use crate::system::table_system;
use csv::{ByteRecord, Reader};
use fixed_words::List;
use std::alloc::Global;
use unit_tree::{Name, System};

/// Reads the names of the head.
fn read_head(
    alloc: Global,
    reader: &mut Reader<&[u8]>,
    fields: &mut ByteRecord,
) -> Result<List<Name>, TableFault>
    ensures { (records : List Fields) → Gives reader.old records → ReadsHead records result reader.new }
{
    if !take_record(reader, fields)? {
        return Err(TableFault::Form { number: 1 });
    }
    match names_in(alloc, fields)? {
        Some(names) => Ok(names),
        None => Err(TableFault::Form { number: 1 }),
    }
}

/// Reads the moments of the records after the head.
fn read_moments(
    alloc: Global,
    reader: &mut Reader<&[u8]>,
    fields: &mut ByteRecord,
    names: &[Name],
) -> Result<List<Moment>, TableFault>
    ensures { (records : List Fields) → BeganTable records names.now [] reader.old → ReadsMoments records names.now result }
{
    let mut moments = List::new(alloc);
    while take_record(reader, fields)? {
        let Some(moment) = next_moment(alloc, fields, names, moments.as_slice())? else {
            return Err(TableFault::Form {
                number: moments.len() as u64 + 2,
            });
        };
        moments.push(moment)?;
    }
    Ok(moments)
}

/// Returns the system of names and moments.
fn system_of(alloc: Global, names: &[Name], moments: &[Moment]) -> Result<System, TableFault>
    requires { AllByRecursion IsWritable moments.now }
    ensures { (records : List Fields) → BeginsTable records names.now moments.now [] → MakesSystem records result }
{
    match moments {
        [] => Err(TableFault::Form { number: 2 }),
        [first, later @ ..] => Ok(table_system(alloc, names, first, later)?),
    }
}

/// Returns the system of a table: a component with an output for each column, which has the words of each record from its time
/// on. The table has a head, `time` and one to 16 names, and one to 20 records of a time in seconds and a word for each name.
///
/// # Errors
///
/// [`TableFault::Form`] exactly where the table doesn't have this form. The call may fail for lack of memory at any time.
// It is not inlined, so that the stack of a caller that prints the system has no space for a reader of records.
#[inline(never)]
pub fn stimulus(alloc: Global, table: &[u8]) -> Result<System, TableFault>
    ensures { MakesSystem (records_of table.now) result }
{
    let mut reader = read_table(alloc, table);
    let mut fields = ByteRecord::new(alloc);
    let names = read_head(alloc, &mut reader, &mut fields)?;
    let moments = read_moments(alloc, &mut reader, &mut fields, names.as_slice())?;
    system_of(alloc, names.as_slice(), moments.as_slice())
}
