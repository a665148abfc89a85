//! Reading of a text line by line.
ghost use Rattle.std.specs.Prelude.{◌≡◌, ◌≤◌, true, false, IfOk};
ghost use Rattle.std.specs.List.{list_all};
ghost use Rattle.unit_tree.specs.Blocks.{no_lines, may_stand};
ghost use Rattle.unit_tree.specs.Lines.{source_lines, size_of, is_blank_line};
ghost use Rattle.unit_tree.specs.Printable.{IsPrintable};
ghost use Rattle.model_rules.specs.Limits.{text_limit};
ghost use Rattle.text_tokens.specs.Scanning.{Gives, ReadsAs};
ghost use Rattle.unit_text.specs.Reading.{IsWritten, headless_rule, TellsVersion, FirstGives, IsFormOf, FormIn, and_group, LineGives, WholeGives, fault_at, AnswersAt, blank_rule, HeaderGives, AnswersText};

use crate::draft::Draft;
use crate::fault::TextFault;
use crate::numbers::{BlockPlace, Group, Mark, note, numbers_in_order};
use fixed_words::List;
use model_rules::{LONGEST_LINE, LONGEST_TEXT, Rule};
use std::alloc::Global;
use text_lines::{
    LineClass, VERSION_2, form_of_line, is_blank_line, is_of_version_2, look_at, without_return,
};
use text_tokens::{Unread, cut_line, size};
use unit_tree::{LineForm, System};

/// Whether a line is allowed outside blocks before any other line.
fn may_begin(form: &LineForm) -> bool
    ensures { result ≡ may_stand no_lines form.now }
{
    match form {
        LineForm::Header(_)
        | LineForm::Unit(_)
        | LineForm::Instance { .. }
        | LineForm::Connect(_)
        | LineForm::Stop(_)
        | LineForm::Longest(_)
        | LineForm::Zero(_)
        | LineForm::Rows(_)
        | LineForm::Sample(_) => true,
        _ => false,
    }
}

/// The rule that a first line with this form breaks, where the form is not a header.
fn headless_rule(form: &LineForm) -> u8
    ensures { result ≡ headless_rule form.now }
{
    if is_of_version_2(form) {
        Rule::LineHasForm.number()
    } else if may_begin(form) {
        Rule::HeaderIsThere.number()
    } else {
        Rule::LineIsInPlace.number()
    }
}

/// The version of a header, or the rule that a first line with another form breaks.
fn version_told(form: &LineForm) -> Result<u8, u8>
    ensures { TellsVersion form.now result }
{
    match form {
        LineForm::Header(version) => Ok(*version),
        other => Err(headless_rule(other)),
    }
}

/// The same for an owned form.
fn version_in(form: LineForm) -> Result<u8, u8>
    ensures { TellsVersion form result }
{
    let told = version_told(&form);
    drop(form);
    told
}

/// The version that a text's first line which is not blank gives.
fn version_of(alloc: Global, line: &[u8], number: u32) -> Result<u8, TextFault>
    requires { IsWritten line.now }
    ensures { AnswersAt number (FirstGives line.now) result }
{
    let told = match form_of_line(alloc, line) {
        Ok(form) => version_in(form),
        Err(Unread::NoForm) => Err(Rule::LineHasForm.number()),
        Err(Unread::NoMemory) => return Err(TextFault::NoMemory),
    };
    match told {
        Ok(version) => Ok(version),
        Err(rule) => Err(TextFault::Line { line: number, rule }),
    }
}

/// Whether a text of the version may have the form.
fn is_form_of(version: u8, form: &LineForm) -> bool
    ensures holds { result ≡ true → IsFormOf version form.now }
    ensures fails { result ≡ false → IsFormOf version form.now → ⊥ }
{
    if is_of_version_2(form) {
        version == VERSION_2
    } else {
        true
    }
}

/// The form of a line in a text of the version. `NoForm` where it has none that the version allows.
fn form_in(alloc: Global, line: &[u8], version: u8) -> Result<LineForm, Unread>
    ensures { ReadsAs result (FormIn version line.now) }
{
    let form = form_of_line(alloc, line)?;
    if is_form_of(version, &form) {
        Ok(form)
    } else {
        drop(form);
        Err(Unread::NoForm)
    }
}

/// The fault for a line that could not be read: the rule, or that there is no memory.
fn at_line(unread: Unread, line: u32, rule: u8) -> TextFault
    ensures { result ≡ fault_at unread line rule }
{
    match unread {
        Unread::NoForm => TextFault::Line { line, rule },
        Unread::NoMemory => TextFault::NoMemory,
    }
}

/// The system of a text, and for each of its canonical lines the number, from 1, of the line of the text that it came
/// from.
#[derive(Debug, Drop)]
pub struct ReadText {
    pub system: System,
    pub lines: List<u32>,
}

/// The draft with one more line of the form, and the group of this line. `NoForm` where it is not allowed there.
fn and_group(alloc: Global, draft: Draft, form: LineForm) -> Result<(Draft, Option<Group>), Unread>
    ensures { Gives result (and_group draft form) }
{
    let group = Group::of(BlockPlace::of(&draft.block), &form);
    let next = draft.with_form(alloc, form)?;
    Ok((next, group))
}

/// The draft with one more line that is not blank, and the group of this line.
fn with_written(
    alloc: Global,
    draft: Draft,
    line: &[u8],
    number: u32,
) -> Result<(Draft, Option<Group>), TextFault>
    requires { IsWritten line.now }
    ensures { AnswersAt number (LineGives draft line.now) result }
{
    let form = match form_in(alloc, line, draft.system.version) {
        Ok(form) => form,
        Err(unread) => {
            drop(draft);
            return Err(at_line(unread, number, Rule::LineHasForm.number()));
        }
    };
    match and_group(alloc, draft, form) {
        Ok(next) => Ok(next),
        Err(unread) => Err(at_line(unread, number, Rule::LineIsInPlace.number())),
    }
}

/// The draft with one more line of any kind, and its group. A blank line has none.
fn with_line(
    alloc: Global,
    draft: Draft,
    line: &[u8],
    number: u32,
) -> Result<(Draft, Option<Group>), TextFault>
    ensures { AnswersAt number (LineGives draft line.now) result }
{
    match look_at(line) {
        LineClass::Broken(rule) => {
            drop(draft);
            Err(TextFault::Line { line: number, rule })
        }
        LineClass::Blank => Ok((draft, None)),
        LineClass::Written => with_written(alloc, draft, line, number),
    }
}

/// The system of all lines of a text, the last of which has this number. Rule 6 where a block is open.
fn whole_text(
    alloc: Global,
    draft: Draft,
    header: u32,
    marks: &[Mark],
    number: u32,
) -> Result<ReadText, TextFault>
    ensures { WholeGives draft header marks.now number result }
{
    match draft.whole_system() {
        Some(system) => match numbers_in_order(alloc, header, marks) {
            Ok(lines) => Ok(ReadText { system, lines }),
            Err(_) => {
                drop(system);
                Err(TextFault::NoMemory)
            }
        },
        None => Err(TextFault::Line {
            line: number,
            rule: Rule::BlocksAreClosed.number(),
        }),
    }
}

/// Whether all lines are blank.
#[tactic(auto, using(crate::proofs::ReadingLaws::blank_cut))]
fn is_blank_text(text: &[u8]) -> bool
    ensures { result ≡ list_all is_blank_line (source_lines text.now) }
{
    let mut rest = text;
    while !rest.is_empty() {
        let (line, behind) = cut_line(rest);
        if !is_blank_line(without_return(line)) {
            return false;
        }
        rest = behind;
    }
    true
}

/// The rule that a text of blank lines breaks at its first line.
fn blank_rule(text: &[u8]) -> u8
    ensures { result ≡ blank_rule (source_lines text.now) }
{
    if text.is_empty() {
        return Rule::HeaderIsThere.number();
    }
    let (line, _) = cut_line(text);
    if without_return(line).len() > LONGEST_LINE {
        Rule::LineFits.number()
    } else {
        Rule::HeaderIsThere.number()
    }
}

/// The version of a text's header, the number of its line, and the text after it.
#[tactic(auto, using(text_tokens::proofs::LineLemmas::length_le_size_of, crate::proofs::ReadingLaws::blank_none, crate::proofs::ReadingLaws::blank_next, crate::proofs::ReadingLaws::blank_end))]
fn header_of(alloc: Global, text: &[u8]) -> Result<(u8, u32, &[u8]), TextFault>
    requires { size_of text.now ≤ text_limit }
    ensures { HeaderGives text.now result }
{
    let mut rest = text;
    let mut number = 0;
    while !rest.is_empty() {
        let (line, behind) = cut_line(rest);
        let line = without_return(line);
        rest = behind;
        number += 1;
        match look_at(line) {
            LineClass::Broken(rule) => return Err(TextFault::Line { line: number, rule }),
            LineClass::Blank => {}
            LineClass::Written => {
                return match version_of(alloc, line, number) {
                    Ok(version) => Ok((version, number, rest)),
                    Err(fault) => Err(fault),
                };
            }
        }
    }
    Err(TextFault::Line {
        line: 1,
        rule: Rule::HeaderIsThere.number(),
    })
}

/// Reads a text whose lines are not all blank.
#[tactic(auto, using(text_tokens::proofs::LineLemmas::length_le_size_of))]
fn read_lines(alloc: Global, text: &[u8]) -> Result<ReadText, TextFault>
    requires short { size_of text.now ≤ text_limit }
    requires written { list_all is_blank_line (source_lines text.now) ≡ false }
    ensures { AnswersText text.now result }
{
    let (version, header, mut rest) = header_of(alloc, text)?;
    let mut number = header;
    let mut draft = Draft::new(alloc, version);
    let mut marks = Vec::new(alloc);
    while !rest.is_empty() {
        let (line, behind) = cut_line(rest);
        rest = behind;
        number += 1;
        let (next, group) = with_line(alloc, draft, without_return(line), number)?;
        draft = note(&mut marks, group, number).and(Ok(next))?;
    }
    whole_text(alloc, draft, header, marks.as_slice(), number)
}

/// The system of a text, with the lines that its canonical lines came from. It is in range, and printable.
///
/// Any other text is refused. A text that is too long is refused at line 1 by rule 2. Else it is refused at the first
/// line that breaks a rule, by the least rule that this line breaks. Where only the end of a block is missing, it is
/// refused at the last line by rule 6.
#[tactic(auto, using(crate::proofs::ReadingLaws::long_refused, crate::proofs::ReadingLaws::blank_refused, crate::proofs::AnswersPrinted::read_printable))]
pub fn read_system(alloc: Global, text: &[u8]) -> Result<ReadText, TextFault>
    ensures answer { AnswersText text.now result }
    ensures printable { IfOk result (λ read. IsPrintable read.system) }
{
    if size(text) > LONGEST_TEXT {
        return Err(TextFault::Line {
            line: 1,
            rule: Rule::TextFits.number(),
        });
    }
    if is_blank_text(text) {
        return Err(TextFault::Line {
            line: 1,
            rule: blank_rule(text),
        });
    }
    read_lines(alloc, text)
}
