//! Nests made flat.
ghost use Rattle.std.specs.Prelude.{◌≡◌, length, Ok};
ghost use Rattle.nest_text.specs.declared.nest.Nest.{Nest as Nests};
ghost use Rattle.sub_flat.specs.FlatReading.{AnswersFlat, JudgesParts, refusal_of};

use crate::fault::Unflat;
use crate::flat::{FlatParts, flat_parts, flat_system};
use crate::judge::judge;
use model_rules::Rule;
use nest_names::NestNames;
use nest_text::{Nest, NestFault};
use std::alloc::Global;
use unit_plain::copy_system;
use unit_tree::System;

/// The refusal of a nest that has no flat system, at the line `main`.
fn refusal(main_line: u32, why: Unflat) -> NestFault
    ensures { result ≡ refusal_of main_line why }
{
    match why {
        Unflat::TooLarge => NestFault::Line {
            line: main_line,
            rule: Rule::FlatSystemFits.number(),
        },
        Unflat::NoMemory => NestFault::NoMemory,
    }
}

/// The parts of the flat system of a nest that breaks none of the rules 27 to 29.
fn judged_parts(alloc: Global, nest: &Nest) -> Result<FlatParts, NestFault>
    requires { length nest.now.lines ≡ length nest.now.groups }
    ensures { JudgesParts nest.now result }
{
    let names = NestNames::new(alloc, nest)?;
    judge(alloc, &names)?;
    match flat_parts(alloc, &names) {
        Ok(parts) => Ok(parts),
        Err(why) => Err(refusal(nest.main_line, why)),
    }
}

/// The flat system of the nest with this `main`, if it is printable.
fn whole_system(
    alloc: Global,
    main: System,
    main_line: u32,
    parts: FlatParts,
) -> Result<System, NestFault>
    ensures { (nest : Nests) → nest.main ≡ main → nest.main_line ≡ main_line → JudgesParts nest (Ok parts) → AnswersFlat nest result }
{
    match flat_system(alloc, main, parts) {
        Ok(flat) => Ok(flat),
        Err(why) => Err(refusal(main_line, why)),
    }
}

/// Returns the flat system of a nest: its components, with the connections from component to component.
///
/// A nest that breaks one of the rules 27 to 30 is refused by the least rule that it breaks, at the least line that
/// breaks it. Work stops at the first instance or connection that is too many.
pub fn flatten(alloc: Global, nest: &Nest) -> Result<System, NestFault>
    requires { length nest.now.lines ≡ length nest.now.groups }
    ensures answer { AnswersFlat nest.now result }
{
    let parts = judged_parts(alloc, nest)?;
    let main = copy_system(alloc, &nest.main)?;
    whole_system(alloc, main, nest.main_line, parts)
}

/// Returns the flat system of a nest, as [`flatten`] does. The units of the nest become those of the system and are not
/// copied.
pub fn into_flat(alloc: Global, nest: Nest) -> Result<System, NestFault>
    requires { length nest.lines ≡ length nest.groups }
    ensures answer { AnswersFlat nest result }
{
    let parts = judged_parts(alloc, &nest)?;
    let Nest {
        main,
        main_line,
        ..
    } = nest;
    whole_system(alloc, main, main_line, parts)
}
