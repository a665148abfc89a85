//! The lines of a unit's step, with the lines of their blocks.
ghost use Rattle.std.specs.Prelude.{◌≡◌, ◌∷◌, map, OnOk};
ghost use Rattle.unit_tree.specs.Parts.{joined, line_forms};
ghost use Rattle.unit_tree.specs.declared.line_form.LineForm.TheVariants as form;
ghost use Rattle.unit_print.specs.Growing.{with_lines, with_step_lines};

use crate::lines::{accept, assign, end, head_of_else, head_of_if, repeat};
use fixed_words::NoMemory;
use unit_tree::Line;

/// Appends a line of a step, with the lines of its block.
#[cycle(step)]
#[tactic(auto, using(crate::proofs::GrowingTexts::lines_append, crate::proofs::GrowingTexts::joined_are))]
fn step_line(text: &mut Vec<u8>, line: &Line) -> Result<(), NoMemory>
    ensures { OnOk result (text.new.items ≡ with_lines text.old.items (line_forms line.now)) }
{
    match line {
        Line::Assign { target, value } => assign(text, target, value),
        Line::If { cond, yes, no } => {
            head_of_if(text, cond)?;
            step_lines(text, yes.as_slice())?;
            match no {
                None => end(text),
                Some(no) => {
                    otherwise(text, no.as_slice())?;
                    end(text)
                }
            }
        }
        Line::Repeat { count, body } => {
            repeat(text, *count)?;
            step_lines(text, body.as_slice())?;
            end(text)
        }
        Line::Accept { value } => accept(text, value),
    }
}

/// Appends `else` and the lines of its block.
#[cycle(step)]
#[tactic(auto, using(crate::proofs::GrowingTexts::joined_are))]
fn otherwise(text: &mut Vec<u8>, lines: &[Line]) -> Result<(), NoMemory>
    ensures { OnOk result (text.new.items ≡ with_lines text.old.items (form.Else ∷ joined (map line_forms lines.now))) }
{
    head_of_else(text)?;
    step_lines(text, lines)
}

/// Appends lines of a step.
#[cycle(step)]
pub(crate) fn step_lines(text: &mut Vec<u8>, lines: &[Line]) -> Result<(), NoMemory>
    ensures { OnOk result (text.new.items ≡ with_step_lines text.old.items lines.now) }
{
    for line in lines {
        step_line(text, line)?;
    }
    Ok(())
}
