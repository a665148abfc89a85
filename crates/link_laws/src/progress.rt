//! Laws of the progress of nodes.
ghost use Rattle.link_laws.specs.Progress.{CommitsAtOnce, CommitsExactly, FactsAreDroppedExactly, FactsAreMade, MadeFactsAreAll, NodesDontBlock, OwnFactsAreDropped};

/// A law: where what a node knows agrees with the facts of its row, it makes each fact of its own instances that depends on known facts
/// only, and lists exactly the new ones. Where all facts that can be made are known, none is missing. So two nodes at one row that know
/// the same of it don't wait for each other.
pub fn facts_are_made()
    ensures makes { FactsAreMade }
    ensures enough { MadeFactsAreAll }
    ensures two_nodes { NodesDontBlock }
{}

/// A law: a node drops a fact exactly where it has ended, the fact is of another row or not of an instance of the other node, or its item
/// is known. It is then unchanged. Otherwise it knows the fact and works. Facts of its own instances are dropped.
pub fn facts_are_dropped()
    ensures exactly { FactsAreDroppedExactly }
    ensures own { OwnFactsAreDropped }
{}

/// A law: over every list of events, a node commits a row, or ends there, exactly in the first event since it came to the row or
/// restarted in which it works, or takes a fact that isn't dropped, and then knows all facts of the row.
pub fn rows_are_committed()
    ensures commits { CommitsExactly }
    ensures at_once { CommitsAtOnce }
{}
