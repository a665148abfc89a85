//! Laws of nests.
ghost use Rattle.sub_flat.specs.Laws.{NestsAreJudgedOnce};

/// A law: a nest breaks no rule of groups, or is refused at one line by one rule, and not both.
pub fn nests_are_judged_once()
    ensures { NestsAreJudgedOnce }
{}
