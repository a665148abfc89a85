ghost use Rattle.text_lines.specs.Laws.{HasOneForm};

/// A law: a line has at most one form.
pub fn lines_have_one_form()
    ensures { HasOneForm }
{}
