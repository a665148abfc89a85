//! The records of a table, one after the other.
ghost use Rattle.std.specs.Prelude.{List, IfOk};
ghost use Rattle.csv.specs.Records.{fields_of};
ghost use Rattle.stimulus_tables.specs.Reading.{Gives, Took};
ghost use Rattle.stimulus_tables.specs.Records.{Fields, records_of};

use csv::{ByteRecord, Reader, ReaderBuilder};
use fixed_words::NoMemory;
use std::alloc::{AllocError, Global};

/// Returns a reader of a table's records, which may have any numbers of fields.
pub fn read_table(alloc: Global, table: &[u8]) -> Reader<&[u8]>
    ensures { Gives result (records_of table.now) }
{
    ReaderBuilder::new()
        .has_headers(false)
        .flexible(true)
        .from_reader(alloc, table)
}

/// Replaces the contents of `fields` by the next record. Returns whether there is one.
pub fn take_record(reader: &mut Reader<&[u8]>, fields: &mut ByteRecord) -> Result<bool, NoMemory>
    ensures { (rest : List Fields) → Gives reader.old rest → IfOk result (λ found. Took rest found (fields_of fields.new) reader.new) }
{
    match reader.read_byte_record(fields) {
        Ok(found) => Ok(found),
        Err(_) => Err(AllocError),
    }
}
