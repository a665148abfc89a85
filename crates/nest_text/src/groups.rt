//! Groups of a nested text, collected and read in turn.
ghost use Rattle.std.specs.Prelude.{◌≡◌, ◌<◌, ◌≤◌, ◌+◌, ◌∷◌, ◌++◌, [], length, IfOk, OnOk};
ghost use Rattle.unit_tree.specs.Lines.{lines_of};
ghost use Rattle.model_rules.specs.Limits.{text_limit};
ghost use Rattle.nest_text.specs.Nests.{GroupLines, groups_of};
ghost use Rattle.nest_text.specs.Reading.{AddsLine, Gathers, GroupAnswers, GroupsAnswer, InsideAnswers, IsGathered, NextGroupIs, OfLines};

use crate::fault::NestFault;
use crate::kind::{LineKind, kind_of_line};
use crate::nest::{Bind, Group};
use fixed_words::{List, NoMemory};
use std::alloc::Global;
use text_lines::without_return;
use text_tokens::cut_line;
use unit_text::{ReadText, TextFault, read_system};
use unit_tree::{Instance, Name, System, Wire};

/// The line that the reader reads before those of a group. No line of a group is one that only version 2 has.
const HEADER: &[u8] = b"cosim 1\n";

/// What was collected of a group's lines.
#[derive(Debug, Drop)]
pub struct Body {
    pub ins: List<Bind>,
    pub outs: List<Bind>,
    /// The other lines, after a header, as the text that the reader reads.
    pub text: Vec<u8>,
    /// For each line of this text, the number of the line of the nested text from which it comes.
    pub numbers: List<u32>,
}

impl Body {
    /// Returns the collection before the lines of a group that begins at line `head`.
    fn new(alloc: Global, head: u32) -> Result<Body, NoMemory>
        ensures { IfOk result (λ body. IsGathered body (record { name = []; head = head; body = [] })) }
    {
        let text = Vec::from_slice(alloc, HEADER)?;
        let mut numbers = List::new(alloc);
        numbers.push(head)?;
        Ok(Body {
            ins: List::new(alloc),
            outs: List::new(alloc),
            text,
            numbers,
        })
    }

    /// Adds a line for the reader.
    fn keep(&mut self, line: &[u8], number: u32) -> Result<(), NoMemory>
        ensures ins { self.new.ins ≡ self.old.ins }
        ensures outs { self.new.outs ≡ self.old.outs }
        ensures text { OnOk result (self.new.text.items ≡ self.old.text.items ++ (line.now ++ 10 ∷ [])) }
        ensures numbers { OnOk result (self.new.numbers ≡ self.old.numbers ++ number ∷ []) }
    {
        self.text.extend_from_slice(line)?;
        self.text.push(b'\n')?;
        self.numbers.push(number)?;
        Ok(())
    }

    /// Adds a line of the kind.
    fn add(&mut self, kind: LineKind, line: &[u8], number: u32) -> Result<(), NoMemory>
        ensures { OnOk result (AddsLine self.old self.new (record { number = number; bytes = line.now; kind = kind })) }
    {
        match kind {
            LineKind::In(bind) => self.ins.push(bind)?,
            LineKind::Out(bind) => self.outs.push(bind)?,
            other => {
                drop(other);
                self.keep(line, number)?;
            }
        }
        Ok(())
    }
}

/// Collects the lines of a text up to the one that begins the next group. `before` is the number of the line before the
/// text. Returns the text after these lines, and the number of the last of them.
fn gather<'t>(
    alloc: Global,
    text: &'t [u8],
    before: u32,
    body: &mut Body,
) -> Result<(&'t [u8], u32), NoMemory>
    requires { before + length text.now ≤ text_limit }
    ensures lines { IfOk result (λ behind. OfLines (before + 1) text.now (λ lines. Gathers lines body.old body.new behind.0.now behind.1)) }
    ensures within { IfOk result (λ behind. behind.1 + length behind.0.now ≤ before + length text.now) }
    ensures shorter { IfOk result (λ behind. length behind.0.now ≤ length text.now) }
{
    let mut rest = text;
    let mut number = before;
    while !rest.is_empty() {
        let (line, behind) = cut_line(rest);
        let kind = kind_of_line(alloc, without_return(line))?;
        if kind.begins_group() {
            drop(kind);
            return Ok((rest, number));
        }
        number += 1;
        body.add(kind, line, number)?;
        rest = behind;
    }
    Ok((rest, number))
}

/// The parts of a system that a group has.
fn inside_of(system: System) -> (List<Instance>, List<Wire>)
    ensures instances { result.0 ≡ system.instances }
    ensures wires { result.1 ≡ system.wires }
{
    let System {
        instances,
        wires,
        ..
    } = system;
    (instances, wires)
}

/// Reads the text of a group, whose lines come from the lines with these numbers.
fn read_inside(
    alloc: Global,
    text: &[u8],
    numbers: &[u32],
) -> Result<(List<Instance>, List<Wire>), NestFault>
    requires some { 0 < length numbers.now }
    requires long { length numbers.now ≡ length (lines_of text.now) }
    ensures { InsideAnswers text.now numbers.now result }
{
    match read_system(alloc, text) {
        Ok(ReadText { system, .. }) => Ok(inside_of(system)),
        Err(TextFault::Line { line, rule }) => Err(NestFault::Line {
            line: numbers[line as usize - 1],
            rule,
        }),
        Err(TextFault::NoMemory) => Err(NestFault::NoMemory),
    }
}

/// Reads the group of this name from its collected lines.
fn read_group(alloc: Global, name: Name, body: Body) -> Result<Group, NestFault>
    requires some { 0 < length body.numbers }
    requires long { length body.numbers ≡ length (lines_of body.text.items) }
    ensures { (lines : GroupLines) → lines.name ≡ name → IsGathered body lines → GroupAnswers lines result }
{
    let inside = read_inside(alloc, body.text.as_slice(), body.numbers.as_slice());
    let (instances, wires) = inside?;
    Ok(Group {
        name,
        ins: body.ins,
        outs: body.outs,
        instances,
        wires,
    })
}

/// Reads the group that begins at the line with this number, from a text that begins with its lines. Returns it with
/// the text after it, and the number of the last of its lines.
fn next_group(
    alloc: Global,
    name: Name,
    head: u32,
    text: &[u8],
) -> Result<(Group, &[u8], u32), NestFault>
    requires { head + length text.now ≤ text_limit }
    ensures group { OfLines (head + 1) text.now (λ lines. NextGroupIs name head lines result) }
    ensures within { IfOk result (λ next. next.2 + length next.1.now ≤ head + length text.now) }
    ensures shorter { IfOk result (λ next. length next.1.now ≤ length text.now) }
{
    let mut body = Body::new(alloc, head)?;
    let (rest, number) = gather(alloc, text, head, &mut body)?;
    let group = read_group(alloc, name, body)?;
    Ok((group, rest, number))
}

/// Reads the groups of the lines before `main`, with the numbers of the lines at which they begin.
pub(crate) fn read_groups(alloc: Global, text: &[u8]) -> Result<(List<Group>, List<u32>), NestFault>
    requires { length text.now ≤ text_limit }
    ensures { OfLines 1 text.now (λ lines. GroupsAnswer (groups_of lines) result) }
{
    let mut groups = List::new(alloc);
    let mut heads = List::new(alloc);
    let mut rest = text;
    let mut number = 0;
    while !rest.is_empty() {
        let (line, behind) = cut_line(rest);
        rest = behind;
        number += 1;
        let kind = kind_of_line(alloc, without_return(line))?;
        if let Some(name) = kind.group_name() {
            heads.push(number)?;
            let (group, left, last) = next_group(alloc, name, number, rest)?;
            groups.push(group)?;
            rest = left;
            number = last;
        }
    }
    Ok((groups, heads))
}
