//! Laws of positions that are given by words.
ghost use Rattle.trace_core.specs.OpenedAt.{PositionsFitOnce};

/// A law: a row, a point and words of states describe at most one position at which a run may be.
pub fn positions_fit_once()
    ensures { PositionsFitOnce }
{}
