// The consequences of the rule of a deque.
ghost use Rattle.ticket_deque.specs.Laws.{IsEachItemOnce, IsEachPlaceTakenOnce};

/// A law: in every state that follows the rule, the items that all ends took and those in the queue are the items that were
/// added, each once.
pub fn each_item_once<T>()
    ensures { IsEachItemOnce T }
{}

/// A law: in every state that follows the rule, each place that has left the queue was taken once by one end, and by no other.
pub fn each_place_taken_once<T>()
    ensures { IsEachPlaceTakenOnce T }
{}
