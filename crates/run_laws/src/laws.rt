//! Laws of the definitions of a run.
ghost use Rattle.run_laws.specs.RestLaws.{TailsGoOn, PositionsHaveOneRest, RestsEndTraces};
ghost use Rattle.run_laws.specs.RunLaws.{AssignmentsAreUnique, UndefinedOutputsFault, OutputsLookAtNeeds, OutputsAreWords, ProposalsAreGreatest, RepliesAreAtMost, AgreedStepsAreLeast, AgreedStepsAreAtMost, StepsKeepWords, SystemsHaveMembers, RunsKeepWords, StepsOfRunsAreRight, StandsOfTracesAreRight, FirstEndsAreJudgedInOrder, EndsAreJudgedInOrder, OrderedRunsHaveOneTrace, PlainFormsHaveNoEvents, SystemsHavePlaceOrders, SystemsHaveOneTrace, RunsHavePlaceOrders, RunsHaveOneTrace, SystemsHaveOneOutcome};

/// A law: where the outputs have an order, there is exactly one port assignment.
pub fn assignments_are_unique()
    ensures { AssignmentsAreUnique }
{}

/// A law: there is a port fault exactly where some output is undefined.
pub fn undefined_outputs_fault()
    ensures { UndefinedOutputsFault }
{}

/// A law: the result of get for an output depends only on the inputs in its needs, and is a word of its type or a
/// fault.
pub fn outputs_look_at_needs()
    ensures needs { OutputsLookAtNeeds }
    ensures words { OutputsAreWords }
{}

/// A law: the proposed step is the greatest length that is allowed, a reply is at most the step, and the agreed step is
/// the least reply, so at most the proposed step.
pub fn steps_are_negotiated()
    ensures proposal { ProposalsAreGreatest }
    ensures reply { RepliesAreAtMost }
    ensures agreed { AgreedStepsAreLeast }
    ensures at_most { AgreedStepsAreAtMost }
{}

/// A law: a step of a component keeps its words in their types, and accepts at most its whole length.
pub fn steps_keep_words()
    ensures { StepsKeepWords }
{}

/// A law: a run keeps one state for each member, with words of their types. Each step that it makes leads to the
/// position after the agreed step, and stays within the stop and the two budgets. So every stand of its trace has its
/// words, and is within the stop and the zero budget. Where there may be a row, it is within the row budget too.
pub fn runs_keep_words()
    ensures members { SystemsHaveMembers }
    ensures words { RunsKeepWords }
    ensures steps { StepsOfRunsAreRight }
    ensures traces { StandsOfTracesAreRight }
{}

/// A law: a run ends by a port fault, or else at its stop, with its last row, or by a fault of a `max`. Where none of
/// these is, the ending in the trial comes first, then that in the redo, then that by the zero budget. Where there is
/// none of them either, the run goes on.
pub fn ends_are_judged_in_order()
    ensures before_trial { FirstEndsAreJudgedInOrder }
    ensures from_trial { EndsAreJudgedInOrder }
{}

/// A law: a composition whose outputs have an order has exactly one trace.
pub fn ordered_runs_have_one_trace()
    ensures { OrderedRunsHaveOneTrace }
{}

/// A law: a system without event ports that is well-formed has no cycle exactly where it has an order of its places,
/// and then it has exactly one trace. The same is true, in either version, of the plain form of a system in range that
/// is well-formed, which is what is run. So where such a system has no cycle, it has one list of rows, one last point,
/// one ending, and one count of cells.
pub fn systems_have_one_trace()
    ensures order { SystemsHavePlaceOrders }
    ensures trace { SystemsHaveOneTrace }
    ensures run_order { RunsHavePlaceOrders }
    ensures run_trace { RunsHaveOneTrace }
    ensures outcome { SystemsHaveOneOutcome }
    ensures plain { PlainFormsHaveNoEvents }
{}

/// A law: from each stand of a trace the later stands go on, and the number of its row is its place in the trace.
pub fn tails_go_on()
    ensures { TailsGoOn }
{}

/// A law: a position with words, within the stop and the zero budget, has exactly one rest, if the places have an
/// order.
pub fn positions_have_one_rest()
    ensures { PositionsHaveOneRest }
{}

/// A law: a trace ends with the rest of each of its positions: with its rows, its last point and its ending.
pub fn rests_end_traces()
    ensures { RestsEndTraces }
{}
