//! Tables of stimulus: their form, the system that plays one, and the reader of tables.
//!
//! A table has a head, `time` and names, and records of moments: a time, and a word for each name from then on. Its system is one
//! component with an output for each name. [`stimulus`] returns the system of a table, or the first record that doesn't have the
//! form. `csv` reads the records, after a byte order mark at the beginning of a table. [`read_table`] and [`take_record`] read the
//! records of any table.
//!
//! `specs/Records.antt` defines the records of a table. `specs/Tables.antt` defines which records are a table of stimulus, and at which
//! one others leave the form. `specs/TableSystems.antt` defines the system, and `specs/Stimuli.antt` the result of [`stimulus`].
//!
//! The laws of `specs/Laws.antt`: records are one table or leave the form at one number. The system of a table is well-formed, can
//! be printed and has no cycle. Its trace has a row at each time of the table, with the words that the table has for this time.
//! `specs/Reading.antt` and `specs/TableFields.antt` describe how records and fields are read; no promise depends on them.
#![tactic(auto)]

mod fault;
mod fields;
mod laws;
mod moment;
mod moments;
mod names;
mod records;
mod stimuli;
mod system;

pub use fault::TableFault;
pub use laws::{
    records_are_judged_once, tables_are_played, tables_are_printable, tables_are_stimuli,
    tables_are_well_formed, tables_have_no_cycle,
};
pub use moment::Moment;
pub use records::{read_table, take_record};
pub use stimuli::stimulus;
