//! Which systems have a canonical text.
ghost use Rattle.std.specs.Prelude.{◌≡◌, ◌↔◌, ◌&&◌, nat_le, length, IsTrue, IfOk};
ghost use Rattle.std.specs.List.{list_all};
ghost use Rattle.unit_tree.specs.Canonical.{canonical_forms};
ghost use Rattle.unit_tree.specs.Printable.{IsPrintable, line_depth, step_depth};
ghost use Rattle.unit_print.specs.Fitting.{are_short, line_fits};
ghost use Rattle.model_rules.specs.Limits.{block_limit, text_limit};

use crate::fitting::system_fits;
use crate::printing::print_system;
use fixed_words::{List, NoMemory};
use model_rules::{DEEPEST_BLOCK, LONGEST_LINE, LONGEST_TEXT};
use std::alloc::Global;
use unit_tree::{Line, System, Unit};

/// Whether blocks are nested at most `depth` deep in a line.
#[cycle(depth)]
fn line_is_within(line: &Line, depth: u32) -> bool
    ensures { result ≡ nat_le (line_depth line.now) depth }
{
    match line {
        Line::If { cond: _, yes, no } => match no {
            None => depth > 0 && lines_are_within(yes.as_slice(), depth - 1),
            Some(no) => {
                depth > 0
                    && lines_are_within(yes.as_slice(), depth - 1)
                    && lines_are_within(no.as_slice(), depth - 1)
            }
        },
        Line::Repeat { count: _, body } => {
            depth > 0 && lines_are_within(body.as_slice(), depth - 1)
        }
        Line::Assign { .. } | Line::Accept { .. } => true,
    }
}

/// Whether blocks are nested at most `depth` deep in each line.
#[cycle(depth)]
fn lines_are_within(lines: &[Line], depth: u32) -> bool
    ensures { result ≡ list_all (λ line. nat_le (line_depth line) depth) lines.now }
{
    for line in lines {
        if !line_is_within(line, depth) {
            return false;
        }
    }
    true
}

#[tactic(auto, using(crate::proofs::BlockDepths::deepest_within))]
fn step_is_within(step: &Option<List<Line>>, depth: u32) -> bool
    ensures { result ≡ nat_le (step_depth step.now) depth }
{
    match step {
        None => true,
        Some(lines) => lines_are_within(lines.as_slice(), depth),
    }
}

fn steps_are_within(units: &[Unit]) -> bool
    ensures { result ≡ list_all (λ unit. nat_le (step_depth unit.step) block_limit) units.now }
{
    units
        .iter()
        .all(|unit| step_is_within(&unit.step, DEEPEST_BLOCK))
}

/// Whether no line of a text in which each line ends with LF is too long.
fn has_short_lines(text: &[u8]) -> bool
    ensures { result ≡ are_short 0 text.now }
{
    let mut length = 0;
    for byte in text {
        if *byte == b'\n' {
            length = 0;
        } else if length < LONGEST_LINE {
            length += 1;
        } else {
            return false;
        }
    }
    true
}

/// Whether a text and its lines are short enough.
fn text_fits(text: &[u8]) -> bool
    ensures { result ≡ (nat_le (length text.now) text_limit && are_short 0 text.now) }
{
    text.len() <= LONGEST_TEXT && has_short_lines(text)
}

/// Whether the lines of a system, apart from their lengths, and its blocks are within the limits of the language.
fn parts_fit(system: &System) -> bool
    ensures { result ≡ (list_all (line_fits system.now.version) (canonical_forms system.now)
        && list_all (λ unit. nat_le (step_depth unit.step) block_limit) system.now.units) }
{
    system_fits(system) && steps_are_within(system.units.as_slice())
}

/// Whether a system has a canonical text that is read back as the system: its names, its numbers, the nesting of its
/// expressions and blocks, its lines and the whole text are as the language requires.
///
/// The only error is that there is no memory: the text is made if all other conditions hold.
pub fn is_printable(alloc: Global, system: &System) -> Result<bool, NoMemory>
    ensures { IfOk result (λ told. IsTrue told ↔ IsPrintable system.now) }
{
    if !parts_fit(system) {
        return Ok(false);
    }
    let mut text = Vec::new(alloc);
    print_system(alloc, system, &mut text)?;
    Ok(text_fits(text.as_slice()))
}
