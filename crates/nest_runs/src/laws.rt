//! Laws of runs of nests.
ghost use Rattle.nest_runs.specs.Laws.{GroupsHaveWhatComponentsHave, GroupsShowComponents, NestedTextsRunFlat, NestsHaveOneOutcome, NestsRunAsTheyAreFlat};

/// A law: a nest that breaks no rule of groups, and whose flat system is well-formed, has the rows, the last point and
/// the ending of that system. So it has exactly one of each if the flat system has no cycle.
pub fn nests_run_as_they_are_flat()
    ensures same { NestsRunAsTheyAreFlat }
    ensures one { NestsHaveOneOutcome }
{}

/// A law: if its nest breaks no rule of groups, a nested text runs as the canonical text of its flat system does,
/// provided that text is accepted.
pub fn nested_texts_run_flat()
    ensures { NestedTextsRunFlat }
{}

/// A law: the values at ports of groups depend only on those of components, and an output of a group has the value of
/// the component's output that its `out` lines lead to.
pub fn groups_have_what_components_have()
    ensures determined { GroupsHaveWhatComponentsHave }
    ensures outputs { GroupsShowComponents }
{}
