ghost use Rattle.std.specs.Prelude.{◌≡◌, ◌≢◌, ◌≤◌, ◌++◌, ◌∷◌, [], List, ℕ, Some, length, OnOk};
ghost use Rattle.csv.specs.Writing.{writer_under};
ghost use Rattle.csv.specs.declared.writer.QuoteStyle.{QuoteStyle};
ghost use Rattle.csv.specs.declared.writer.QuoteStyle.TheVariants as style;
ghost use Rattle.trace_csv.specs.Lines.{line_of};
ghost use Rattle.trace_csv.specs.Writers.{IsBare, HasFields};

use csv::{QuoteStyle, Writer, WriterBuilder};
use fixed_words::NoMemory;
use std::alloc::{AllocError, Global};

/// A writer of lines, which keeps all that it has written.
pub(crate) type LineWriter = Writer<Vec<u8>>;

/// Returns a writer that has written nothing.
pub(crate) fn new_line(alloc: Global, quoting: QuoteStyle) -> LineWriter
    requires { quoting ≢ style.NonNumeric }
    ensures fresh { HasFields (λ v. Some v.items) quoting [] result [] }
    ensures under { (writer_under result).items ≡ [] }
{
    WriterBuilder::new()
        .quote_style(quoting)
        .flexible(true)
        .from_writer(Vec::new(alloc))
}

/// Adds a field, which is written without quotes.
pub(crate) fn put_field(line: &mut LineWriter, field: &[u8]) -> Result<(), NoMemory>
    ensures { (quoting : QuoteStyle) → (before : List ℕ) → (fields : List (List ℕ)) → HasFields (λ v. Some v.items) quoting before line.old fields
        → IsBare quoting field.now → OnOk result (HasFields (λ v. Some v.items) quoting before line.new (fields ++ field.now ∷ [])) }
{
    match line.write_field(field) {
        Ok(()) => Ok(()),
        Err(_) => Err(AllocError),
    }
}

/// Ends a line of two fields or more, and flushes its text to the vector below.
pub(crate) fn end_line(line: &mut LineWriter) -> Result<(), NoMemory>
    ensures { (quoting : QuoteStyle) → (before : List ℕ) → (fields : List (List ℕ)) → HasFields (λ v. Some v.items) quoting before line.old fields
        → 2 ≤ length fields → OnOk result (((writer_under line.new).items ≡ before ++ line_of fields) × HasFields (λ v. Some v.items) quoting (before ++ line_of fields) line.new []) }
{
    match line.end_record() {
        Ok(()) => {}
        Err(_) => return Err(AllocError),
    }
    match line.flush() {
        Ok(()) => Ok(()),
        Err(_) => Err(AllocError),
    }
}
