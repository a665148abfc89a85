//! Laws of answers.
ghost use Rattle.cosim_answers.specs.Pipelines.{FlatRunsAreNested, GeneratedRunsHaveFigures, NodesPrintAPrefix, PrintsRunAlike, RunsAreVerified, TablesArePrinted, UpgradesRunAlike};
ghost use Rattle.cosim_answers.specs.Laws.{AnswersAgree, EndsAreServed, EveryCallIsAnswered, NoCallIsAnsweredTwice, NotesAgree, RefusalsAreOfRules, RunsAgree, SavedPositionsAreRead, SavedRunsGoOn};

/// A law: for each list of words and each input there is an answer. All answers write the same bytes and have the same status. There is
/// only one, except where workers are reported.
pub fn one_answer()
    ensures some { EveryCallIsAnswered }
    ensures agree { AnswersAgree }
    ensures only { NoCallIsAnsweredTwice }
{}

/// A law: a run writes the same and has the same status with any number of workers, over any window, by any guesses, and with a
/// report or without one. Its notes are the same too, except for the line of the report.
pub fn workers_change_nothing()
    ensures agree { RunsAgree }
    ensures notes { NotesAgree }
{}

/// A law: the status of an answer says where it comes from. An answer with `Refused` is a refusal of the text by the command of the
/// words. An answer with a status by which a command ends its work is for a text that this command serves.
pub fn statuses_have_causes()
    ensures refused { RefusalsAreOfRules }
    ensures served { EndsAreServed }
{}

/// A law: what `run` prints of a text is its header, the rows before a position that `save` saves, and then exactly what `resume`
/// prints of the saved text. The status is the same, and so are the notes except for the line of a report. `resume` refuses nothing
/// that `save` printed. The rows are those of the system as it is written, with or without event ports.
pub fn saved_runs_go_on()
    ensures { SavedRunsGoOn }
{}

/// A law: a saved position fits a system in range that is well-formed and has no cycle exactly where it fits its plain form, which is
/// what is run.
pub fn saved_positions_are_read()
    ensures { SavedPositionsAreRead }
{}

/// A law of pipelines, of what one command prints for the output of another one:
///
/// - `run` prints the same of a text, of what `print` prints of it and of what `upgrade` prints of it.
/// - `verify` prints `yes` for what `run` prints.
/// - `run` prints the trace of the nest for what `flatten` prints, and the rows of the table for what `stimulus` prints.
/// - `run` prints the rows for what `gen` prints; `bench` prints the figures of these rows.
/// - What `nodes` prints is a prefix of what `run` prints.
pub fn pipelines_agree()
    ensures print { PrintsRunAlike }
    ensures upgrade { UpgradesRunAlike }
    ensures verify { RunsAreVerified }
    ensures flatten { FlatRunsAreNested }
    ensures stimulus { TablesArePrinted }
    ensures generated { GeneratedRunsHaveFigures }
    ensures nodes { NodesPrintAPrefix }
{}
