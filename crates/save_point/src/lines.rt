//! Lines at the beginning of a saved text.
ghost use Rattle.std.specs.Prelude.{◌≡◌, ℕ, ◌<◌, ◌≤◌, ◌++◌, List, [], length, codes, IfSome};
ghost use Rattle.std.specs.Option.{MatchOption};
ghost use Rattle.save_point.specs.Reading.{IsPointText};
ghost use Rattle.save_point.specs.SavedTexts.{BeginsState, IsFirstLine, IsPointLine, IsRowLine, IsTitleLine, IsWithin, LacksLine, number_limit, point_line, row_line, title_line};
ghost use Rattle.super_time.specs.declared.point.Point.{Point as Points};
ghost use Rattle.text_tokens.specs.Results.{Tells};

use crate::words::{cut_part, number_in};
use text_lines::without_return;
use text_tokens::cut_line;
use unit_tree::Point;

/// The first line of every saved text.
const TITLE: &[u8] = b"saved 1";

/// Returns the first line of a text, without its end, and the text after it. `None` where the text is empty.
fn next_line(text: &[u8]) -> Option<(&[u8], &[u8])>
    ensures line { MatchOption result (text.now ≡ []) (λ cut. IsFirstLine text.now cut.0.now cut.1.now) }
    ensures shorter { IfSome result (λ cut. length cut.1.now < length text.now) }
{
    if text.is_empty() {
        return None;
    }
    let (line, rest) = cut_line(text);
    Some((without_return(line), rest))
}

/// Returns the bytes of a line after a prefix, where it has the prefix.
fn behind<'l>(line: &'l [u8], front: &[u8]) -> Option<&'l [u8]>
    ensures { MatchOption result ((more : List ℕ) → line.now ≡ front.now ++ more → ⊥) (λ more. line.now ≡ front.now ++ more.now) }
{
    line.strip_prefix(front)
}

/// Returns the text after the title, or `None` where the first line is not the title.
pub(crate) fn behind_title(text: &[u8]) -> Option<&[u8]>
    ensures { MatchOption result (LacksLine IsTitleLine text.now) (λ rest. IsFirstLine text.now title_line rest.now) }
{
    let (line, rest) = next_line(text)?;
    if line == TITLE { Some(rest) } else { None }
}

/// Returns the row that a line has, or `None` where it is no such line.
fn row_in(line: &[u8]) -> Option<u64>
    ensures { Tells result (IsRowLine line.now) }
{
    match behind(line, b"row ") {
        Some(number) => number_in(number),
        None => None,
    }
}

/// Returns the row that the first line of a text has, and the text after it. `None` where it is no such line.
pub(crate) fn take_row(text: &[u8]) -> Option<(u64, &[u8])>
    ensures { MatchOption result (LacksLine (λ line. (row : ℕ) × IsRowLine line row) text.now)
        (λ told. (told.0 ≤ number_limit) × IsFirstLine text.now (row_line told.0) told.1.now) }
{
    let (line, rest) = next_line(text)?;
    let row = row_in(line)?;
    Some((row, rest))
}

/// Returns the point of two numbers with a space between them, or `None` for any other bytes.
fn point_of(numbers: &[u8]) -> Option<Point>
    ensures { Tells result (IsPointText numbers.now) }
{
    let (ticks, steps) = cut_part(numbers);
    let t = number_in(ticks)?;
    let n = number_in(steps?)?;
    Some(Point { t, n })
}

/// Returns the point that a line has, or `None` where it is no such line.
fn point_in(line: &[u8]) -> Option<Point>
    ensures { Tells result (IsPointLine line.now) }
{
    match behind(line, b"at ") {
        Some(numbers) => point_of(numbers),
        None => None,
    }
}

/// Returns the point that the first line of a text has, and the text after it. `None` where it is no such line.
pub(crate) fn take_point(text: &[u8]) -> Option<(Point, &[u8])>
    ensures { MatchOption result (LacksLine (λ line. (point : Points) × IsPointLine line point) text.now)
        (λ told. IsWithin told.0 × IsFirstLine text.now (point_line told.0) told.1.now) }
{
    let (line, rest) = next_line(text)?;
    let point = point_in(line)?;
    Some((point, rest))
}

/// Returns the bytes of the first line of a text after `state `, where the line begins so, and the text after the line.
pub(crate) fn take_state(text: &[u8]) -> Option<(&[u8], &[u8])>
    ensures line { MatchOption result (LacksLine BeginsState text.now)
        (λ told. IsFirstLine text.now (codes "state " ++ told.0.now) told.1.now) }
    ensures shorter { IfSome result (λ told. length told.1.now < length text.now) }
{
    let (line, rest) = next_line(text)?;
    let state = behind(line, b"state ")?;
    Some((state, rest))
}
