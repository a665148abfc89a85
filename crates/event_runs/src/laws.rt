//! Laws of runs of systems with event ports.
ghost use Rattle.event_runs.specs.EventRests.{PositionsAreRead, RestsAreOnce, RestsAreRead, RestsHaveShape, StandsAreRead};
ghost use Rattle.event_runs.specs.Laws.{PlainExpressionsMeanTheSame, EventsAreTwo, NoEventsMeanTheSame, ComponentsHavePlainCalls, MembersGiveTheSame, FaultsAreRead, TracesAreRead, RowsAreRead, SourcesHaveOneTrace, MembersArePlain, SystemsHaveOneEventAssignment, PlainFormsTellTheTrace, RowsHaveShape, SourcesHaveOneOutcome, SuccessorsAreByOffers, SameOffersLeadOn, AssignmentsAreRead, EventAssignmentsAreRead, EventAssignmentsAreUnique};

/// A law: the plain form of an expression has its value; the two expressions that an event output's becomes give its
/// event; and where no event occurs, the value is that without events.
pub fn plain_expressions_mean_the_same()
    ensures values { PlainExpressionsMeanTheSame }
    ensures events { EventsAreTwo }
    ensures none { NoEventsMeanTheSame }
{}

/// A law: the calls of a component with event ports are those of its plain form.
pub fn components_have_plain_calls()
    ensures { ComponentsHavePlainCalls }
{}

/// A law: the port assignments of a source are those of its plain form, read as signals. So there is exactly one, if
/// the plain form's places have an order.
pub fn assignments_are_read()
    ensures read { AssignmentsAreRead }
    ensures all { EventAssignmentsAreRead }
    ensures one { EventAssignmentsAreUnique }
{}

/// A law: the successor of a position depends only on the results of the members' calls there.
pub fn successors_are_by_offers()
    ensures successor { SuccessorsAreByOffers }
    ensures same { SameOffersLeadOn }
{}

/// A law: where no output is undefined, the results of the members' calls in the source are those in the plain form.
pub fn members_give_the_same()
    ensures { MembersGiveTheSame }
{}

/// A law: the port fault of a source is that of its plain form, where the two ports of an event output count as one.
pub fn faults_are_read()
    ensures { FaultsAreRead }
{}

/// A law: the trace of a plain form, read as signals, is that of the source: the same positions, rows and ending. The
/// source has no other.
pub fn traces_are_read()
    ensures read { TracesAreRead }
    ensures rows { RowsAreRead }
    ensures one { SourcesHaveOneTrace }
{}

/// A law: what is run for a system in range that is well-formed are the plain forms of its members. They have the plain
/// forms of its units, and two sources for each event input.
pub fn members_are_plain()
    ensures { MembersArePlain }
{}

/// A law: a system in range that is well-formed and has no cycle has exactly one trace. It is that of its plain form,
/// read as signals: the same points, the same last point, and the same ending.
///
/// It has exactly one port assignment for any states, and each row of the plain form has at an event output 1 and its
/// word, or 0 and 0.
pub fn systems_have_one_event_trace()
    ensures ports { SystemsHaveOneEventAssignment }
    ensures tells { PlainFormsTellTheTrace }
    ensures rows { RowsHaveShape }
    ensures one { SourcesHaveOneOutcome }
{}

/// A law: the positions of a system in range that is well-formed and has no cycle are those of its plain form. The rest of its
/// trace from a position on is that of the plain form, read as signals, and there is no other. So are the rows of the first
/// stands of its trace.
pub fn rests_are_read()
    ensures positions { PositionsAreRead }
    ensures read { RestsAreRead }
    ensures once { RestsAreOnce }
    ensures rows { RestsHaveShape }
    ensures stands { StandsAreRead }
{}
