//! The laws that the definitions give what was worked out.
ghost use Rattle.worked_answers.specs.WorkedEventTexts.{EventTextsAreWorked};
ghost use Rattle.worked_answers.specs.WorkedEventRuns.{EventRunsAreWorked};
ghost use Rattle.worked_answers.specs.WorkedGroups.{GroupRulesAreWorked};
ghost use Rattle.worked_answers.specs.WorkedNests.{NestsAreFlat};
ghost use Rattle.worked_answers.specs.WorkedParts.{PartsAreWorked};
ghost use Rattle.worked_answers.specs.WorkedPositions.{SavedPositionsAreWorked};
ghost use Rattle.worked_answers.specs.WorkedSaved.{SavedFormsAreWorked, SavedTextsAreWorked};
ghost use Rattle.worked_answers.specs.WorkedTables.{TableFormsAreWorked, TablesAreWorked};
ghost use Rattle.worked_answers.specs.WorkedVerdicts.{VerdictsAreWorked};

/// A law: the flat systems of nests are those that were worked out by hand.
pub fn nests_are_worked()
    ensures { NestsAreFlat }
{}

/// A law: the texts of traces with events are those that were worked out by hand.
pub fn event_texts_are_worked()
    ensures { EventTextsAreWorked }
{}

/// A law: the trace of a system with events is the one that was worked out by hand.
pub fn event_runs_are_worked()
    ensures { EventRunsAreWorked }
{}

/// A law: lines of nested texts aren't allowed in their parts where that was worked out by hand.
pub fn parts_are_worked()
    ensures { PartsAreWorked }
{}

/// A law: nests break the rules of groups exactly where that was worked out by hand.
pub fn group_rules_are_worked()
    ensures { GroupRulesAreWorked }
{}

/// A law: verdicts on tables are those that were worked out by hand.
pub fn verdicts_are_worked()
    ensures { VerdictsAreWorked }
{}

/// A law: the texts of systems that play tables are those that were worked out by hand.
pub fn tables_are_worked()
    ensures { TablesAreWorked }
{}

/// A law: records leave the form of a table where that was worked out by hand.
pub fn table_forms_are_worked()
    ensures { TableFormsAreWorked }
{}

/// A law: texts are no saved texts from the line on that was worked out by hand.
pub fn saved_forms_are_worked()
    ensures { SavedFormsAreWorked }
{}

/// A law: the saved texts of positions are those that were worked out by hand.
#[tactic(auto, unfolding(save_point::specs::SavedTexts::saved_text))]
pub fn saved_texts_are_worked()
    ensures { SavedTextsAreWorked }
{}

/// A law: a saved position of a system with events and the rest of the trace from there are those that were worked out by hand.
/// Saved texts have a position that fits the system exactly where that was worked out too.
pub fn saved_positions_are_worked()
    ensures { SavedPositionsAreWorked }
{}
