//! Reading of saved texts.
ghost use Rattle.std.specs.Prelude.{◌≡◌, [], IfOk, OnOk, Err, None};
ghost use Rattle.std.specs.Option.{option_map};
ghost use Rattle.save_point.specs.Reading.{PutsState, PutsWords, ReadsSaved, fault_at, parts_in, parts_of, state_in, words_in};
ghost use Rattle.save_point.specs.SavedTexts.{AreNumbers, BeginsWithLines, saved_lines};

use crate::fault::SavedFault;
use crate::lines::{behind_title, take_point, take_row, take_state};
use crate::words::{cut_part, word_in};
use fixed_words::{List, NoMemory};
use std::alloc::Global;
use text_tokens::Unread;
use unit_print::is_word;
use unit_tree::{Name, Point};

/// What a text saves: a position of a run, and the place where the text after it begins.
#[derive(Debug, Drop)]
pub struct Saved {
    /// The number of the row, from 0.
    pub row: u64,
    pub point: Point,
    /// The names of the instances, in their order.
    pub names: List<Name>,
    /// How many words the state of each instance has.
    pub counts: List<u32>,
    /// The words of all states, one after the other.
    pub states: List<i64>,
    /// How many bytes the lines of the position have: the rest of the text begins after them.
    pub rest: u64,
}

/// Appends the words that are written in the parts of bytes to others. Returns how many they are.
fn put_words(parts: Option<&[u8]>, words: &mut List<i64>) -> Result<u32, Unread>
    ensures put { IfOk result (λ count. PutsWords (parts_in (option_map (λ bytes. bytes.now) parts.entry)) words.old words.new count) }
    ensures none { result ≡ Err Unread.NoForm → words_in (parts_in (option_map (λ bytes. bytes.now) parts.entry)) ≡ None }
{
    let mut rest = parts;
    let mut count: u32 = 0;
    while let Some(bytes) = rest {
        let (part, others) = cut_part(bytes);
        let Some(word) = word_in(part) else {
            return Err(Unread::NoForm);
        };
        let Some(more) = count.checked_add(1) else {
            return Err(Unread::NoMemory);
        };
        words.push(word)?;
        count = more;
        rest = others;
    }
    Ok(count)
}

/// Appends a state, whose name and words are written in the parts of bytes, to others.
fn put_state(
    alloc: Global,
    bytes: &[u8],
    names: &mut List<Name>,
    counts: &mut List<u32>,
    words: &mut List<i64>,
) -> Result<(), Unread>
    ensures put { OnOk result (PutsState (parts_of bytes.now) names.old counts.old words.old names.new counts.new words.new) }
    ensures none { result ≡ Err Unread.NoForm → state_in (parts_of bytes.now) ≡ None }
{
    let (name, others) = cut_part(bytes);
    if !is_word(name) {
        return Err(Unread::NoForm);
    }
    let count = put_words(others, words)?;
    names.push(List::from_slice(alloc, name)?)?;
    counts.push(count)?;
    Ok(())
}

/// Returns the fault for a line that is not a state.
fn at_line(unread: Unread, line: u32) -> SavedFault
    ensures { result ≡ fault_at unread line }
{
    match unread {
        Unread::NoForm => SavedFault::Line { line },
        Unread::NoMemory => SavedFault::NoMemory,
    }
}

/// Returns what a text saves whose lines so far had the row and the point. Where a fault would need a greater number of a line
/// than it can have, it is reported as lack of memory.
fn read_states(
    alloc: Global,
    text: &[u8],
    row: u64,
    point: Point,
    lines: &[u8],
) -> Result<Saved, SavedFault>
    requires begins { BeginsWithLines text.now (saved_lines row point []) lines.now }
    requires numbers { AreNumbers row point }
    ensures { ReadsSaved text.now result }
{
    let mut names = List::new(alloc);
    let mut counts = List::new(alloc);
    let mut states = List::new(alloc);
    let mut number: u32 = 3;
    let mut rest = lines;
    while let Some((state, behind)) = take_state(rest) {
        let Some(next) = number.checked_add(1) else {
            return Err(SavedFault::NoMemory);
        };
        if let Err(unread) = put_state(alloc, state, &mut names, &mut counts, &mut states) {
            return Err(at_line(unread, next));
        }
        number = next;
        rest = behind;
    }
    Ok(Saved {
        row,
        point,
        names,
        counts,
        states,
        rest: (text.len() - rest.len()) as u64,
    })
}

/// Returns what a text saves: the position in its first lines, and the place of the text after them, which isn't read.
///
/// # Errors
///
/// [`SavedFault::Line`] exactly where one of the first three lines is missing or doesn't have its form, or where a later line
/// begins with `state ` and is no state. It has the number of the first such line. The call may fail for lack of memory at any
/// time.
pub fn read_saved(alloc: Global, text: &[u8]) -> Result<Saved, SavedFault>
    ensures { ReadsSaved text.now result }
{
    let Some(lines) = behind_title(text) else {
        return Err(SavedFault::Line { line: 1 });
    };
    let Some((row, lines)) = take_row(lines) else {
        return Err(SavedFault::Line { line: 2 });
    };
    let Some((point, lines)) = take_point(lines) else {
        return Err(SavedFault::Line { line: 3 });
    };
    read_states(alloc, text, row, point, lines)
}
