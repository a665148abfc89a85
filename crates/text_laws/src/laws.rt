ghost use Rattle.text_laws.specs.Laws.{CanonicalLinesAreShortest, CanonicalTextIsReadBack, SourceLinesAreOneForOne, WhatIsReadIsPrintable};

/// A law: the system of a text has a canonical text, and is in range.
pub fn what_is_read_is_printable()
    ensures { WhatIsReadIsPrintable }
{}

/// A law: reading the canonical text of a system gives this system.
pub fn canonical_text_is_read_back()
    ensures { CanonicalTextIsReadBack }
{}

/// A law: a canonical line is never longer than a line that has its form, such as the line that it came from.
pub fn canonical_lines_are_shortest()
    ensures { CanonicalLinesAreShortest }
{}

/// A law: the system of a text has as many canonical lines as there are lines of the text that they came from. Which
/// line each came from is defined in `SourceLines` of `unit_tree`.
pub fn source_lines_are_one_for_one()
    ensures { SourceLinesAreOneForOne }
{}
