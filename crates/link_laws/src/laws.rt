//! Laws of facts, stages, nodes and pairs.
ghost use Rattle.link_laws.specs.Laws.{FactsAreFunctional, StagesAreRight, PairsKeepToTheTrace, PassesAreEnough, RulesAreRight};
ghost use Rattle.link_laws.specs.Laws.{EventsKeep, FactsAreShort, HonestFactsKeep, TakeCommitsRightly, TrueFactsAreHonest, WorkCommitsRightly};

/// A law: an item has one fact.
pub fn facts_are_functional()
    ensures { FactsAreFunctional }
{}

/// A law: where what is known agrees with the facts of a stand, it determines the right stage. The row is committed, or ends the run,
/// exactly where no fact is missing, and the next position is that of the successor.
pub fn stages_are_right()
    ensures { StagesAreRight }
{}

/// A law: the facts that a node makes from what it knows are true, and it moves as the successor does.
pub fn rules_are_right()
    ensures { RulesAreRight }
{}

/// A law: over every list of events each fact is the true one of its row, and each node is at the place of its number. A node works, or
/// takes a fact that isn't dropped. Then it commits or ends exactly where it lacks no fact of its row: it goes on to its part of the
/// next position, has the run's end, or stays. The law holds for any right rule, and for that of a run.
pub fn events_keep()
    ensures keep { EventsKeep }
    ensures commit { WorkCommitsRightly }
    ensures take_commits { TakeCommitsRightly }
    ensures pairs { PairsKeepToTheTrace }
    ensures take { HonestFactsKeep }
    ensures honest { TrueFactsAreHonest }
{}

/// A law: as many passes over the outputs as there are outputs make all words that can be made.
pub fn passes_are_enough()
    ensures { PassesAreEnough }
{}

/// A law: take an ordered run with the bounds and types of a plan, whose words of parameters and numbers of each `max` fit 64 bits, as
/// in every node's plan. Each true fact of it has a row below 100,000, and no length in it is above the greatest word.
pub fn facts_are_short()
    ensures { FactsAreShort }
{}
