ghost use Rattle.trace_rows.specs.Bounds.{CellsAreBounded, TimesAreBounded};

/// A law: a trace has at most two cells for each instance and row, and at most one row more at one time than the zero budget.
pub fn work_is_bounded()
    ensures cells { CellsAreBounded }
    ensures times { TimesAreBounded }
{}
