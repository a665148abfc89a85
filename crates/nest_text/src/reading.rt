//! Reading of nested texts.
ghost use Rattle.std.specs.Prelude.{◌+◌, ◌≤◌, length};
ghost use Rattle.model_rules.specs.Limits.{text_limit};
ghost use Rattle.nest_text.specs.Reading.{AnswersNest, MainAnswers};

use crate::fault::NestFault;
use crate::groups::read_groups;
use crate::nest::Nest;
use crate::parts::cut_parts;
use model_rules::{LONGEST_TEXT, Rule};
use std::alloc::Global;
use text_tokens::size;
use unit_text::{ReadText, TextFault, read_system};
use unit_tree::System;

/// Reads the system after the line `main`, whose number is `main_line`.
fn read_main(alloc: Global, text: &[u8], main_line: u32) -> Result<System, NestFault>
    requires { main_line + length text.now ≤ text_limit }
    ensures { MainAnswers text.now main_line result }
{
    match read_system(alloc, text) {
        Ok(ReadText { system, .. }) => Ok(system),
        Err(TextFault::Line { line, rule }) => Err(NestFault::Line {
            line: main_line + line,
            rule,
        }),
        Err(TextFault::NoMemory) => Err(NestFault::NoMemory),
    }
}

/// Returns the nest of a nested text.
///
/// Any other text is refused. A text that is too long is refused at line 1 by rule 2, and one without a line `main` at
/// line 1 by rule 26. Else the first line that is not allowed where it is breaks rule 26. Where there is none, the
/// reader of the language refuses the first part that breaks one of its rules, at the line of the nested text.
pub fn read_nest(alloc: Global, text: &[u8]) -> Result<Nest, NestFault>
    ensures answer { AnswersNest text.now result }
{
    if size(text) > LONGEST_TEXT {
        return Err(NestFault::Line {
            line: 1,
            rule: Rule::TextFits.number(),
        });
    }
    let (prefix, main_line, rest) = cut_parts(alloc, text)?;
    let (groups, lines) = read_groups(alloc, prefix)?;
    let main = read_main(alloc, rest, main_line)?;
    Ok(Nest {
        main,
        groups,
        lines,
        main_line,
    })
}
