use fixed_words::List;

/// A record of a table after its head: a time, and the word of each column from then on.
#[derive(Debug, Drop)]
pub struct Moment {
    /// The time, in seconds.
    pub time: u64,
    /// One for each name, in the order of the head.
    pub words: List<i64>,
}
