ghost use Rattle.worked_facts.specs.WorkedTexts.{TextsAreRead, TextsAreRefused};

/// A law: texts of the whole language, worked out by hand, are read and refused as its definitions say.
pub fn texts_are_worked()
    ensures read { TextsAreRead }
    ensures refused { TextsAreRefused }
{}
