/// The verdict on a table that should have the records of a trace.
#[derive(Clone, Copy, Debug, PartialEq, Eq)]
pub enum Verdict {
    /// Its records are those of the trace.
    Yes,
    /// It has a record that differs, or a record is missing in one of the two.
    No {
        /// The number of the first such record, from 1.
        number: u64,
        /// The number of its first field that differs, from 1. It is 1 where one of the two records is missing.
        column: u64,
    },
}
