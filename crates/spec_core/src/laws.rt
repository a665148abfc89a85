//! Laws of lists of events, and of replays.
ghost use Rattle.spec_core.specs.Interleavings.{EveryInterleavingIsTold};
ghost use Rattle.spec_core.specs.Outcomes.{EffectsAreNotRefused, EventsHappenOnce};
ghost use Rattle.spec_core.specs.Replays.{EverySeedIsReplayed, ReplaysAreCountedOnce};
ghost use Rattle.spec_core.specs.Tickets.{AllTicketsAddUp, TicketsAddUp, TicketsAreOut};

/// A law: from an opened world, after any events in any order, the stands that the run has reached are a prefix of its one trace.
/// Each filled cell was filled by a find or a compute. The answer that a find accepted was posted before, with exactly the code,
/// the state, the inputs, the time and the step of the cell.
pub fn every_interleaving_is_told()
    ensures { EveryInterleavingIsTold }
{}

/// A law: take a plan whose run has an order, its members and images, and is bounded. It has a replay for every seed and any
/// number of workers, whatever the policy of guesses is and for every window up to 16. It has only one: there are counts of this
/// replay, and no others.
pub fn every_seed_has_one_replay()
    ensures some { EverySeedIsReplayed }
    ensures only { ReplaysAreCountedOnce }
{}

/// A law: in a world the outstanding tickets are exactly those in the hands. So no post and no back of one of them is refused.
/// Each ticket that was made was posted, was given back, or is in a hand. This holds of each lane, and of all.
pub fn tickets_are_in_hands()
    ensures out { TicketsAreOut }
    ensures lanes { TicketsAddUp }
    ensures sums { AllTicketsAddUp }
{}

/// A law: an event that happens to a world has one reply, and leaves one world. Where it has its effect it isn't refused.
pub fn events_have_one_outcome()
    ensures once { EventsHappenOnce }
    ensures not_both { EffectsAreNotRefused }
{}
