//! Laws of saved texts.
ghost use Rattle.save_point.specs.Laws.{NumbersHaveOnePosition, PositionsAreSaved, RowsAreBefore, SavedFitOnce, TextsSaveOrBreak, TracesCanBeResumed};

/// A law: each text saves one position, or breaks at one line, and not both.
pub fn texts_save_or_break()
    ensures { TextsSaveOrBreak }
{}

/// A law: the saved text of a position saves it, and after it the text has the canonical text of the system.
pub fn positions_are_saved()
    ensures { PositionsAreSaved }
{}

/// A law: the saved text of a position of the trace of a judged system saves this position and no other. A run is opened at it by
/// what was saved.
pub fn traces_can_be_resumed()
    ensures { TracesCanBeResumed }
{}

/// A law: where a run has one trace, this has at most one position with a number.
pub fn numbers_have_one_position()
    ensures { NumbersHaveOnePosition }
{}

/// A law: at most one position of a plan's run fits what was saved.
pub fn saved_positions_fit_once()
    ensures { SavedFitOnce }
{}

/// A law: before the position with a number, a trace has so many rows.
pub fn rows_are_before()
    ensures { RowsAreBefore }
{}
