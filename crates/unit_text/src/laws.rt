ghost use Rattle.unit_text.specs.Laws.{EveryTextIsAnsweredOnce, NestingIsByParts};

/// A law: each text has one system, or is refused at one line by one rule, and not both.
pub fn texts_are_answered_once()
    ensures { EveryTextIsAnsweredOnce }
{}

/// A law: a header and lines that are allowed after it, with no block open at the end, are the lines of some parts.
/// Lines of parts leave no block open.
pub fn nesting_is_by_parts()
    ensures { NestingIsByParts }
{}
