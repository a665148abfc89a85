//! The trace as CSV: its header, and a line for each row.
//!
//! [`header_text`] and [`row_text`] each replace the contents of a buffer by one line, which `csv` makes. The header names the
//! columns as `instance.output`. A row has the time and the index of its point, and the words of the columns. Names, numbers
//! and truth values have no byte that CSV would quote, so no field is quoted. Where no event occurs at an event output, its
//! field is empty. A [`RowWriter`] makes many rows with one writer of `csv`.
//!
//! The layer above uses these calls and writes the lines. The definitions are in `specs/`: `Columns` (which outputs the
//! trace of a system shows, and their titles), `Lines` (a line of fields) and `TraceText` (the header, a row, and the text of
//! a whole trace). `Writers` defines what a writer of `csv` holds.
#![tactic(auto)]

mod header;
mod line;
mod row;

pub use header::header_text;
pub use row::{RowWriter, row_text};
