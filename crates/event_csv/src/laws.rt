//! Laws of the text of a trace.
ghost use Rattle.event_csv.specs.Laws.{HeadersAreRead, LinesAreRead, TextsAreRead};

/// A law: the header, the line of each row, and so the text of the trace of the plain form are those of the system's own trace.
pub fn trace_texts_are_read()
    ensures header { HeadersAreRead }
    ensures lines { LinesAreRead }
    ensures texts { TextsAreRead }
{}
