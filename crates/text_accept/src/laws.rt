ghost use Rattle.text_accept.specs.Laws.{EveryTextIsJudgedOnce};

/// A law: each text is accepted as one system, whose canonical lines came from one list of its lines, or refused at one line by
/// one rule, and not both.
pub fn texts_are_judged_once()
    ensures { EveryTextIsJudgedOnce }
{}
