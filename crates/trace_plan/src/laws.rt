//! Laws of columns.
ghost use Rattle.trace_plan.specs.Laws.{HeadersCanBePrinted, RowsCanBePrinted};

/// A law: each column of a system that is in range and well-formed is one of its outputs. So the header of its trace can be
/// printed.
pub fn headers_can_be_printed()
    ensures { HeadersCanBePrinted }
{}

/// A law: each column of such a system has a word of its type, where the ports are right for some states and all have words.
/// So a row of its trace can be printed.
pub fn rows_can_be_printed()
    ensures { RowsCanBePrinted }
{}
