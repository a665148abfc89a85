//! What is known of a line by its bytes, before its form is read.
ghost use Rattle.std.specs.Prelude.{◌≡◌, ◌≤◌, ◌==◌, not, length};
ghost use Rattle.std.specs.List.{list_all, prefix_len};
ghost use Rattle.unit_tree.specs.Lines.{code_of, without_return, is_code_byte, is_blank_line, has_forbidden_byte};
ghost use Rattle.unit_tree.specs.Tokens.{is_blank};
ghost use Rattle.text_lines.specs.LineClass.{TellsOf};

use model_rules::{LONGEST_LINE, Rule};

/// The byte that begins a comment.
const COMMENT: u8 = b'#';

/// The byte that may be before a line's end, and belongs to it.
const RETURN: u8 = b'\r';

/// What is known of a line by its bytes.
#[derive(Clone, Copy, Debug, PartialEq, Eq)]
pub enum LineClass {
    /// The line breaks a rule; this is the least that it breaks.
    Broken(u8),
    Blank,
    Written,
}

/// Returns how many bytes come before the comment.
fn code_length(line: &[u8]) -> usize
    ensures length { result ≡ prefix_len (λ byte. not (byte == 35)) line.now }
    ensures within { result ≤ length line.now }
{
    line.iter().take_while(|byte| **byte != COMMENT).count()
}

/// Returns the bytes of a line before its comment.
pub fn code(line: &[u8]) -> &[u8]
    ensures { result.now ≡ code_of line.now }
{
    line.split_at(code_length(line)).0
}

/// Returns a line without the carriage return that belongs to its end.
pub fn without_return(line: &[u8]) -> &[u8]
    ensures { result.now ≡ without_return line.now }
{
    match line.split_last() {
        Some((last, front)) if *last == RETURN => front,
        _ => line,
    }
}

/// Returns whether a byte is a space or a tab.
pub fn is_blank(byte: u8) -> bool
    ensures { result ≡ is_blank byte }
{
    byte == b' ' || byte == b'\t'
}

fn is_code_byte(byte: u8) -> bool
    ensures { result ≡ is_code_byte byte }
{
    (b' ' <= byte && byte <= b'~') || byte == b'\t'
}

/// Whether the line has only spaces, tabs and a comment.
pub fn is_blank_line(line: &[u8]) -> bool
    ensures { result ≡ is_blank_line line.now }
{
    code(line).iter().all(|byte| is_blank(*byte))
}

fn is_code(bytes: &[u8]) -> bool
    ensures { result ≡ list_all is_code_byte bytes.now }
{
    bytes.iter().all(|byte| is_code_byte(*byte))
}

fn has_forbidden_byte(line: &[u8]) -> bool
    ensures { result ≡ has_forbidden_byte line.now }
{
    !is_code(code(line))
}

/// What is known of a line by its bytes, without its end.
pub fn look_at(line: &[u8]) -> LineClass
    ensures { TellsOf line.now result }
{
    if has_forbidden_byte(line) {
        LineClass::Broken(Rule::BytesAreAllowed.number())
    } else if line.len() > LONGEST_LINE {
        LineClass::Broken(Rule::LineFits.number())
    } else if is_blank_line(line) {
        LineClass::Blank
    } else {
        LineClass::Written
    }
}
