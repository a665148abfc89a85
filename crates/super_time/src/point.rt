/// A point of superdense time: a time, and how many steps of length zero were made at it before.
#[derive(Clone, Copy, Debug, PartialEq, Eq)]
pub struct Point {
    /// In ticks of the system.
    pub t: u64,
    pub n: u64,
}
