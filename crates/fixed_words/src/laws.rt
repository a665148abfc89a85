ghost use Rattle.fixed_words.specs.Laws.{QuotientsAreFloors, TextsSpellOneLiteral, TextsAreReadBack};

/// A law: the remainder of `floor_quotient` is smaller in magnitude than the divisor, and is zero or has
/// the divisor's sign.
pub fn quotients_are_floors()
    ensures { QuotientsAreFloors }
{}

/// A law: no text spells two literals.
pub fn texts_spell_one_literal()
    ensures { TextsSpellOneLiteral }
{}

/// A law: the text of every word of every type spells a literal that has this word.
pub fn texts_are_read_back()
    ensures { TextsAreReadBack }
{}
