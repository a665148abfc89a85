ghost use Rattle.language_laws.specs.Language.{IsRefusedOnce, SystemsAreJudgedOnce, SitesAreCanonicalLines, PlainLinesAreThose, CanonicalPartsSayTheSystem, CanonicalPhrasesAreRight, CyclesHaveNoOrder, OutputsHaveLines, SourceLinesAreRight};

/// A law: a text is refused at most at one line and by one rule.
pub fn texts_are_refused_once()
    ensures { IsRefusedOnce }
{}

/// A law: each system is well-formed, or refused by one rule at one canonical line.
pub fn each_system_is_judged_once()
    ensures { SystemsAreJudgedOnce }
{}

/// A law: the rules of a system are stated for its canonical lines, one for one. Each is in its block, after the lines
/// before it there, and has the scope of the blocks that are open there.
pub fn sites_are_canonical_lines()
    ensures { SitesAreCanonicalLines }
{}

/// A law: for a system of version 2, the lines that its lines become in the plain form are the canonical lines of the
/// plain form. Sampled outputs are left as they were written.
pub fn plain_lines_are_those()
    ensures { PlainLinesAreThose }
{}

/// A law: the canonical parts of a system give this system.
pub fn canonical_parts_say_the_system()
    ensures { CanonicalPartsSayTheSystem }
{}

/// A law: the canonical phrase of an expression whose numbers are words from 0 up has this expression as its tree, and
/// each part of it has a level that the grammar allows.
pub fn canonical_phrases_are_right()
    ensures { CanonicalPhrasesAreRight }
{}

/// A law: each output of a well-formed system has its canonical line.
pub fn outputs_have_lines()
    ensures { OutputsHaveLines }
{}

/// A law: the lines of a text, in canonical order, are the canonical lines of its system, and each is there once.
pub fn source_lines_are_right()
    ensures { SourceLinesAreRight }
{}

/// A law: an output that depends on itself, or on one that does, is in no orderly list.
pub fn cycles_have_no_order()
    ensures { CyclesHaveNoOrder }
{}
