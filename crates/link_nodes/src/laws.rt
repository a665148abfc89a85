//! Laws of rounds.
ghost use Rattle.link_nodes.specs.Rounds.{RoundsKeepToTheTrace};
ghost use Rattle.link_nodes.specs.Settled.{RoundsSettle};

/// A law: over all rounds each fact is the true one of its row, and each node is at the place of its number.
pub fn rounds_keep()
    ensures { RoundsKeepToTheTrace }
{}

/// A law: once node 0 has ended, and node 1 and its saved position are at the same row, further rounds leave node 0 as it is and change
/// nothing that is returned.
pub fn rounds_settle()
    ensures { RoundsSettle }
{}
