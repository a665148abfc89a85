/// The result of a call of a node.
#[derive(Clone, Copy, Debug, PartialEq, Eq)]
pub enum Taken {
    /// Nothing changed.
    Dropped,
    /// Facts of the row are still missing.
    Kept,
    /// No fact was missing: the node went on to the next row.
    Row,
    /// The trace has ended.
    Ended,
}
