ghost use Rattle.std.specs.Prelude.{◌≡◌, ◌≤◌, ◌<◌, ◌++◌, ◌∷◌, [], List, ℕ, Some, OnOk, OnErr, true};
ghost use Rattle.csv.specs.Writing.{writer_under};
ghost use Rattle.std.specs.Fmt.{decimal};
ghost use Rattle.std.specs.List.{AllByRecursion};
ghost use Rattle.csv.specs.declared.writer.QuoteStyle.TheVariants as style;
ghost use Rattle.fixed_words.specs.Texts.{text_of};
ghost use Rattle.fixed_words.specs.Types.{is_word_of, AreDecimals};
ghost use Rattle.super_time.specs.Seconds.{seconds_text_of};
ghost use Rattle.trace_csv.specs.TraceText.{field_of, row_fields, row_line, HasWord};
ghost use Rattle.trace_csv.specs.Writers.{HasFields, IsBetweenRows};

use crate::line::{LineWriter, end_line, new_line, put_field};
use csv::QuoteStyle;
use fixed_words::{NoMemory, Ty, word_text};
use itoa::Buffer;
use std::alloc::Global;
use super_time::{Point, seconds_text};
use unit_tree::Column;

/// The length of kept rows, in bytes, above which a writer of rows starts afresh with the next row.
const KEPT: usize = 16_384;

/// Adds the time and the index of a point. `text` and `digits` are buffers for the text of a field.
fn put_point(
    line: &mut LineWriter,
    text: &mut Vec<u8>,
    digits: &mut Buffer,
    resolution: u8,
    point: Point,
) -> Result<(), NoMemory>
    requires { resolution ≤ 9 }
    ensures { (before : List ℕ) → HasFields (λ v. Some v.items) style.Necessary before line.old []
        → OnOk result (HasFields (λ v. Some v.items) style.Necessary before line.new (seconds_text_of resolution point.t ∷ decimal point.n ∷ [])) }
{
    text.clear();
    seconds_text(resolution, point.t, text)?;
    put_field(line, text.as_slice())?;
    put_field(line, digits.format(point.n).as_bytes())
}

/// Adds a word of the type. Integers are formatted in `digits` and take no memory.
fn put_word(
    line: &mut LineWriter,
    text: &mut Vec<u8>,
    digits: &mut Buffer,
    ty: Ty,
    word: i64,
) -> Result<(), NoMemory>
    requires is_word { is_word_of ty word ≡ true }
    requires decimals { AreDecimals ty }
    ensures { (before : List ℕ) → (fields : List (List ℕ)) → HasFields (λ v. Some v.items) style.Necessary before line.old fields
        → OnOk result (HasFields (λ v. Some v.items) style.Necessary before line.new (fields ++ text_of ty word ∷ [])) }
{
    match ty {
        Ty::Bool | Ty::Fixed(_) => {
            text.clear();
            word_text(ty, word, text)?;
            put_field(line, text.as_slice())
        }
        _ => put_field(line, digits.format(word).as_bytes()),
    }
}

/// Adds the field of a column, which is empty where no event occurs.
fn put_column(
    line: &mut LineWriter,
    text: &mut Vec<u8>,
    digits: &mut Buffer,
    column: Column,
    ports: &[i64],
) -> Result<(), NoMemory>
    requires { HasWord ports.now column }
    ensures { (before : List ℕ) → (fields : List (List ℕ)) → HasFields (λ v. Some v.items) style.Necessary before line.old fields
        → OnOk result (HasFields (λ v. Some v.items) style.Necessary before line.new (fields ++ field_of ports.now column ∷ [])) }
{
    let place = column.place as usize;
    if column.event && ports[place - 1] == 0 {
        return put_field(line, b"");
    }
    put_word(line, text, digits, column.ty, ports[place])
}

/// Adds the fields of a row. `text` is a buffer for the text of one field.
fn put_fields(
    line: &mut LineWriter,
    text: &mut Vec<u8>,
    resolution: u8,
    point: Point,
    columns: &[Column],
    ports: &[i64],
) -> Result<(), NoMemory>
    requires resolution { resolution ≤ 9 }
    requires words { AllByRecursion (HasWord ports.now) columns.now }
    ensures { (before : List ℕ) → HasFields (λ v. Some v.items) style.Necessary before line.old []
        → OnOk result (HasFields (λ v. Some v.items) style.Necessary before line.new (row_fields resolution columns.now point ports.now)) }
{
    // One buffer for all fields, since it is cleared when it is made.
    let mut digits = Buffer::new();
    put_point(line, text, &mut digits, resolution, point)?;
    for column in columns {
        put_column(line, text, &mut digits, *column, ports)?;
    }
    Ok(())
}

/// Writes a row after what the writer has written. `text` is a buffer for the text of one field.
fn put_row(
    line: &mut LineWriter,
    text: &mut Vec<u8>,
    resolution: u8,
    point: Point,
    columns: &[Column],
    ports: &[i64],
) -> Result<(), NoMemory>
    requires resolution { resolution ≤ 9 }
    requires words { AllByRecursion (HasWord ports.now) columns.now }
    requires ready { IsBetweenRows (λ v. v.items) line.old }
    ensures row { OnOk result ((writer_under line.new).items ≡ (writer_under line.old).items ++ row_line resolution columns.now point ports.now) }
    ensures ready { OnOk result (IsBetweenRows (λ v. v.items) line.new) }
{
    put_fields(line, text, resolution, point, columns, ports)?;
    end_line(line)
}

/// Replaces a writer by one that has written nothing. It is a function of its own, since a function clears the space of its
/// locals whenever it is called, and a writer has a buffer of 8,192 bytes.
#[cold]
#[inline(never)]
fn begin_anew(alloc: Global, line: &mut LineWriter)
    ensures ready { IsBetweenRows (λ v. v.items) line.new }
    ensures under { (writer_under line.new).items ≡ [] }
{
    *line = new_line(alloc, QuoteStyle::Necessary);
}

/// A writer of rows, which makes many rows with one writer of `csv`, since such a writer has a buffer of 8,192 bytes to clear.
/// The written text can't be taken out of the `csv` writer. So it keeps the rows until they are long, and then starts afresh.
#[derive(Drop)]
pub struct RowWriter {
    alloc: Global,
    line: LineWriter,
    ghost ready: { IsBetweenRows (λ v. v.items) line },
}

impl RowWriter {
    /// Returns a writer that has written nothing. It takes no memory yet: `alloc` is where its memory comes from later.
    pub fn new(alloc: Global) -> RowWriter {
        RowWriter {
            alloc,
            line: new_line(alloc, QuoteStyle::Necessary),
        }
    }

    /// Replaces the contents of `out` by a row of a trace, as [`row_text`] does. Where memory is refused `out` is empty, and the
    /// writer may be used again.
    pub fn row_text(
        &mut self,
        resolution: u8,
        point: Point,
        columns: &[Column],
        ports: &[i64],
        out: &mut Vec<u8>,
    ) -> Result<(), NoMemory>
        requires resolution { resolution ≤ 9 }
        requires words { AllByRecursion (HasWord ports.now) columns.now }
        ensures ok { OnOk result (out.new.items ≡ row_line resolution columns.now point ports.now) }
        ensures err { OnErr result (out.new.items ≡ []) }
    {
        if self.line.get_ref().len() > KEPT {
            begin_anew(self.alloc, &mut self.line);
        }
        let from = self.line.get_ref().len();
        // Until the row is complete, `out` is the buffer for the text of each field.
        let written = put_row(&mut self.line, out, resolution, point, columns, ports);
        out.clear();
        if written.is_err() {
            begin_anew(self.alloc, &mut self.line);
            return written;
        }
        out.extend_from_slice(&self.line.get_ref()[from..])
    }
}

/// Replaces the contents of `out` by a row of a trace: one line with the time of the point in seconds, its index and the words
/// of the columns. `ports` has the words of all outputs by their places. `resolution` is the number of decimals of a tick.
///
/// The field of an event output is empty where the word before its own is 0, which means that no event occurs. Where memory
/// is refused `out` is empty.
pub fn row_text(
    alloc: Global,
    resolution: u8,
    point: Point,
    columns: &[Column],
    ports: &[i64],
    out: &mut Vec<u8>,
) -> Result<(), NoMemory>
    requires resolution { resolution ≤ 9 }
    requires words { AllByRecursion (HasWord ports.now) columns.now }
    ensures ok { OnOk result (out.new.items ≡ row_line resolution columns.now point ports.now) }
    ensures err { OnErr result (out.new.items ≡ []) }
{
    RowWriter::new(alloc).row_text(resolution, point, columns, ports, out)
}
