ghost use Rattle.steps_command.specs.Laws.{EveryCallIsAnswered, NoCallIsAnsweredTwice};

/// A law: for each list of words and each input there is exactly one answer.
pub fn one_answer()
    ensures some { EveryCallIsAnswered }
    ensures once { NoCallIsAnsweredTwice }
{}
