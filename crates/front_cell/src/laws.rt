// The consequences of the calls of a writer and of a reader.
ghost use Rattle.front_cell.specs.Laws.{IsWriterForward, IsReaderForward};

/// A law: over all stores from the opening, the number of rows never falls, and after the run is closed nothing changes.
pub fn writer_never_goes_back()
    ensures { IsWriterForward }
{}

/// A law: over all reads of a reader since its split, no read has fewer rows than an earlier one, or than the writer had at the
/// split. Once a read has seen that the run is closed, every later read does.
pub fn reader_never_goes_back()
    ensures { IsReaderForward }
{}
