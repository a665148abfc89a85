//! A nested text split at its line `main`.
ghost use Rattle.std.specs.Prelude.{◌≡◌, ◌≤◌, ◌+◌, length, IfOk, IfSome};
ghost use Rattle.model_rules.specs.Limits.{text_limit};
ghost use Rattle.nest_text.specs.NestLines.{IsKind};
ghost use Rattle.nest_text.specs.Nests.{is_main};
ghost use Rattle.nest_text.specs.Reading.{CutAnswers, MainIs, OfLines, first_stray};
ghost use Rattle.nest_text.specs.declared.kind.LineKind.{LineKind as Kinds};
ghost use Rattle.nest_text.specs.declared.place.PartPlace.TheVariants as places;

use crate::fault::NestFault;
use crate::kind::kind_of_line;
use crate::place::PartPlace;
use fixed_words::NoMemory;
use model_rules::Rule;
use std::alloc::Global;
use text_lines::without_return;
use text_tokens::cut_line;

/// The number of the first line that is not allowed where it is.
fn first_stray(alloc: Global, text: &[u8]) -> Result<Option<u32>, NoMemory>
    requires { length text.now ≤ text_limit }
    ensures { IfOk result (λ stray. OfLines 1 text.now (λ lines. stray ≡ first_stray places.BeforeParts lines)) }
{
    let mut rest = text;
    let mut number = 0;
    let mut place = PartPlace::BeforeParts;
    while !rest.is_empty() {
        let (line, behind) = cut_line(rest);
        rest = behind;
        number += 1;
        let kind = kind_of_line(alloc, without_return(line))?;
        let stands = place.allows(&kind);
        place = place.after(&kind);
        drop(kind);
        if !stands {
            return Ok(Some(number));
        }
    }
    Ok(None)
}

/// Whether a line without its end is `main`.
fn is_main_line(alloc: Global, line: &[u8]) -> Result<bool, NoMemory>
    ensures { IfOk result (λ told. (kind : Kinds) × IsKind line.now kind × (told ≡ is_main kind)) }
{
    let kind = kind_of_line(alloc, line)?;
    Ok(kind.is_main())
}

/// The number of the first line `main`, with the texts before and after it.
fn find_main(alloc: Global, text: &[u8]) -> Result<Option<(&[u8], u32, &[u8])>, NoMemory>
    requires { length text.now ≤ text_limit }
    ensures main { IfOk result (λ found. OfLines 1 text.now (λ lines. MainIs lines found)) }
    ensures prefix { IfOk result (λ found. IfSome found (λ cut. length cut.0.now ≤ length text.now)) }
    ensures rest { IfOk result (λ found. IfSome found (λ cut. cut.1 + length cut.2.now ≤ length text.now)) }
{
    let mut rest = text;
    let mut number = 0;
    while !rest.is_empty() {
        let (line, behind) = cut_line(rest);
        number += 1;
        if is_main_line(alloc, without_return(line))? {
            let prefix = text.split_at(text.len() - rest.len()).0;
            return Ok(Some((prefix, number, behind)));
        }
        rest = behind;
    }
    Ok(None)
}

/// Splits a text at its line `main`. Returns the text before it, its number, and the text after it.
pub(crate) fn cut_parts(alloc: Global, text: &[u8]) -> Result<(&[u8], u32, &[u8]), NestFault>
    requires { length text.now ≤ text_limit }
    ensures cut { CutAnswers text.now result }
    ensures prefix { IfOk result (λ cut. length cut.0.now ≤ text_limit) }
    ensures rest { IfOk result (λ cut. cut.1 + length cut.2.now ≤ text_limit) }
{
    let Some(cut) = find_main(alloc, text)? else {
        return Err(NestFault::Line {
            line: 1,
            rule: Rule::PartHoldsLine.number(),
        });
    };
    match first_stray(alloc, text)? {
        Some(line) => Err(NestFault::Line {
            line,
            rule: Rule::PartHoldsLine.number(),
        }),
        None => Ok(cut),
    }
}
