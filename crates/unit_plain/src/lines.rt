//! Step lines: copies, and their plain forms.
ghost use Rattle.std.specs.Prelude.{◌≡◌, map, IfOk};
ghost use Rattle.unit_tree.specs.Plain.{plain_line};

use crate::copies::Copied;
use crate::expressions::{copied_expression, plain_expression};
use fixed_words::{List, NoMemory};
use std::alloc::Global;
use unit_tree::Line;

/// A copy of a line, with the lines of its block.
#[cycle(copy)]
fn copied_line(alloc: Global, line: &Line) -> Result<Line, NoMemory>
    ensures { IfOk result (λ copy. copy ≡ line.now) }
{
    Ok(match line {
        Line::Assign { target, value } => Line::Assign {
            target: target.copied(alloc)?,
            value: copied_expression(alloc, value)?,
        },
        Line::If { cond, yes, no } => Line::If {
            cond: copied_expression(alloc, cond)?,
            yes: copied_lines(alloc, yes.as_slice())?,
            no: match no {
                None => None,
                Some(no) => Some(copied_lines(alloc, no.as_slice())?),
            },
        },
        Line::Repeat { count, body } => Line::Repeat {
            count: *count,
            body: copied_lines(alloc, body.as_slice())?,
        },
        Line::Accept { value } => Line::Accept {
            value: copied_expression(alloc, value)?,
        },
    })
}

/// A copy of lines.
#[cycle(copy)]
pub(crate) fn copied_lines(alloc: Global, lines: &[Line]) -> Result<List<Line>, NoMemory>
    ensures { IfOk result (λ copy. copy ≡ lines.now) }
{
    let mut copies = List::new(alloc);
    for line in lines {
        copies.push(copied_line(alloc, line)?)?;
    }
    Ok(copies)
}

/// The plain form of a line, with the lines of its block.
#[cycle(plain)]
fn plain_line(alloc: Global, line: &Line) -> Result<Line, NoMemory>
    ensures { IfOk result (λ plain. plain ≡ plain_line line.now) }
{
    Ok(match line {
        Line::Assign { target, value } => Line::Assign {
            target: target.copied(alloc)?,
            value: plain_expression(alloc, value)?,
        },
        Line::If { cond, yes, no } => Line::If {
            cond: plain_expression(alloc, cond)?,
            yes: plain_lines(alloc, yes.as_slice())?,
            no: match no {
                None => None,
                Some(no) => Some(plain_lines(alloc, no.as_slice())?),
            },
        },
        Line::Repeat { count, body } => Line::Repeat {
            count: *count,
            body: plain_lines(alloc, body.as_slice())?,
        },
        Line::Accept { value } => Line::Accept {
            value: plain_expression(alloc, value)?,
        },
    })
}

/// The plain form of lines.
#[cycle(plain)]
pub(crate) fn plain_lines(alloc: Global, lines: &[Line]) -> Result<List<Line>, NoMemory>
    ensures { IfOk result (λ plain. plain ≡ map plain_line lines.now) }
{
    let mut plain = List::new(alloc);
    for line in lines {
        plain.push(plain_line(alloc, line)?)?;
    }
    Ok(plain)
}
