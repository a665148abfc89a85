//! Laws of nested texts.
ghost use Rattle.nest_text.specs.Laws.{NestsAreReadOnce};

/// A law: a nested text has one nest, or is refused at one line by one rule, and not both.
pub fn nests_are_read_once()
    ensures { NestsAreReadOnce }
{}
