/// An event of node 0 or 1 of a pair.
#[derive(Clone, Copy, Debug, PartialEq, Eq)]
pub enum PairEvent {
    /// The node works.
    Work { node: u32 },
    /// The fact at a place of the other node's list, from 0, arrives at the node. It may have arrived before, and may be late.
    Deliver { node: u32, place: u32 },
    /// The node saves its position.
    Keep { node: u32 },
    /// The node starts again from the saved position.
    Restart { node: u32 },
}
