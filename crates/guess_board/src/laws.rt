//! Laws of chains, of the answers that are kept for them, and of tickets.
ghost use Rattle.guess_board.specs.Laws.{ChainsAreShort, ChainsGoOn, KeptRunsAreLongest, NeedsAreAnsweredNext, TicketsFit};

/// A law: a chain continues where a prefix of it ends.
pub fn chains_go_on()
    ensures { ChainsGoOn }
{}

/// A law: after answers that are a prefix of a chain, the chain has the answer to the next needed step.
pub fn needs_are_answered_next()
    ensures { NeedsAreAnsweredNext }
{}

/// A law: a chain has at most one answer for each planned cell.
pub fn chains_are_short()
    ensures { ChainsAreShort }
{}

/// A law: the answers that are kept for a chain are their longest run that is a prefix of it, by rows and keys.
pub fn kept_runs_are_longest()
    ensures { KeptRunsAreLongest }
{}

/// A law: a ticket that a lane makes fits its image.
pub fn tickets_fit()
    ensures { TicketsFit }
{}
