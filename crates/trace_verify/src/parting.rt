//! The cut of an input into a text and a table.
ghost use Rattle.std.specs.Prelude.{◌≡◌, ◌≤◌, ℕ, List, ◌++◌, length, drop, codes};
ghost use Rattle.std.specs.List.{list_all, prefix_len};
ghost use Rattle.std.specs.Option.{MatchOption};
ghost use Rattle.trace_verify.specs.Parting.{IsParted, IsPartingLine, LacksTrace, trace_tokens};
ghost use Rattle.unit_tree.specs.Tokens.{Spells, is_blank};
ghost use Rattle.text_tokens.specs.Results.{Decides};

use text_lines::{code, is_blank, without_return};
use text_tokens::cut_line;

/// The word of the line between the parts.
const TRACE: &[u8] = b"trace";

/// The parts of an input.
#[derive(Clone, Copy, Debug)]
pub struct Parted<'i> {
    /// The lines before the line `trace`, with their ends: the text of a system.
    pub model: &'i [u8],
    /// The bytes after that line.
    pub table: &'i [u8],
}

/// Returns how many blanks come first.
fn blanks_length(bytes: &[u8]) -> usize
    ensures length { result ≡ prefix_len is_blank bytes.now }
    ensures within { result ≤ length bytes.now }
{
    bytes.iter().take_while(|byte| is_blank(**byte)).count()
}

/// Returns whether there are only blanks.
fn all_blank(bytes: &[u8]) -> bool
    ensures { result ≡ list_all is_blank bytes.now }
{
    bytes.iter().all(|byte| is_blank(*byte))
}

/// Returns the bytes after the first blanks.
fn behind_blanks(bytes: &[u8]) -> &[u8]
    ensures { result.now ≡ drop (prefix_len is_blank bytes.now) bytes.now }
{
    bytes.split_at(blanks_length(bytes)).1
}

/// Returns the bytes after the word `trace`, where it comes first.
fn behind_word(bytes: &[u8]) -> Option<&[u8]>
    ensures { MatchOption result ((rest : List ℕ) → bytes.now ≡ codes "trace" ++ rest → ⊥) (λ rest. bytes.now ≡ codes "trace" ++ rest.now) }
{
    bytes.strip_prefix(TRACE)
}

/// Returns whether code is this one word.
fn is_word(code: &[u8]) -> bool
    ensures { Decides result (Spells trace_tokens code.now) }
{
    match behind_word(behind_blanks(code)) {
        Some(rest) => all_blank(rest),
        None => false,
    }
}

/// Returns whether a line without its line feed is `trace`.
fn is_parting_line(line: &[u8]) -> bool
    ensures { Decides result (IsPartingLine line.now) }
{
    is_word(code(without_return(line)))
}

/// Returns the parts of an input: the bytes before its first line `trace`, and those after it. It reads only the lines up to that
/// one, and takes no memory.
///
/// Returns `None` exactly where the input has no such line.
pub fn part(input: &[u8]) -> Option<Parted<'_>>
    ensures { MatchOption result (LacksTrace input.now) (λ parts. IsParted input.now parts.model.now parts.table.now) }
{
    let mut rest = input;
    while !rest.is_empty() {
        let (line, table) = cut_line(rest);
        if is_parting_line(line) {
            let (model, _) = input.split_at(input.len() - rest.len());
            return Some(Parted { model, table });
        }
        rest = table;
    }
    None
}
