ghost use Rattle.trace_verify.specs.Laws.{TextsArePartedOnce, VerdictsAreRight};

/// A law: a verdict says that the records are equal, or has the first record and field that differ.
pub fn verdicts_are_right()
    ensures { VerdictsAreRight }
{}

/// A law: an input has exactly one text and one table, or no line `trace`.
pub fn texts_are_parted_once()
    ensures { TextsArePartedOnce }
{}
