//! The rules, judged in turn.
ghost use Rattle.std.specs.Prelude.{◌≡◌, [], map, IfOk, OnOk, IfErr, None};
ghost use Rattle.unit_check.specs.Rules.{TellsRule, Tells, IsFaultOf, defined, judged, number_of};
ghost use Rattle.unit_tree.specs.Printable.{IsRanged};
ghost use Rattle.unit_tree.specs.WellFormed.{lines_breaking, refusal_by, IsWellFormed};

use crate::rules::SystemRule;
use crate::tables::SystemTables;
use crate::walk::{Stop, first_broken_line};
use fixed_words::NoMemory;
use std::alloc::Global;
use thiserror::Error;
use unit_plain::plain_form;
use unit_tree::{Checked, System};

/// Why a system is refused, or was not judged.
#[derive(Debug, Drop, Error, PartialEq, Eq)]
pub enum CheckFault {
    /// The canonical line `item`, counted from 1, is the first that breaks the rule, and no line breaks an earlier one.
    #[error("line {item} breaks rule {rule}")]
    Line { item: u32, rule: u8 },
    /// There was not enough memory, or there are more lines than 32 bits count.
    #[error("no memory")]
    NoMemory,
}

impl From<NoMemory> for CheckFault {
    ghost use Rattle.unit_check.specs.declared.checking.CheckFault.TheVariants as faults;

    ghost from_gives = { λ _ fault. fault ≡ faults.NoMemory };

    fn from(_: NoMemory) -> CheckFault {
        CheckFault::NoMemory
    }
}

/// Judges a system by one rule.
fn judge_by(rule: SystemRule, tables: &SystemTables<'_>) -> Result<(), CheckFault>
    requires ranged { IsRanged tables.now }
    ensures ok { OnOk result (lines_breaking (defined rule) tables.now ≡ []) }
    ensures err { IfErr result (TellsRule (number_of rule) (lines_breaking (defined rule) tables.now)) }
{
    match first_broken_line(rule, tables) {
        Ok(_) => Ok(()),
        Err(Stop::At(item)) => Err(CheckFault::Line {
            item,
            rule: rule.number(),
        }),
        Err(Stop::Full) => Err(CheckFault::NoMemory),
    }
}

/// Judges a system by rules, in their order.
fn judge_by_all(rules: &[SystemRule], tables: &SystemTables<'_>) -> Result<(), CheckFault>
    requires ranged { IsRanged tables.now }
    ensures ok { OnOk result (refusal_by (map defined rules.now) tables.now ≡ None) }
    ensures err { IfErr result (λ why. Tells why (refusal_by (map defined rules.now) tables.now)) }
{
    for rule in rules {
        judge_by(*rule, tables)?;
    }
    Ok(())
}

/// Judges a system by all rules.
fn judge_tables(tables: &SystemTables<'_>) -> Result<(), CheckFault>
    requires ranged { IsRanged tables.now }
    ensures ok { OnOk result (refusal_by judged tables.now ≡ None) }
    ensures err { IfErr result (λ why. Tells why (refusal_by judged tables.now)) }
{
    judge_by_all(
        &[
            SystemRule::NamesDiffer,
            SystemRule::NamesAreDeclared,
            SystemRule::KindsFit,
            SystemRule::LiteralsFit,
            SystemRule::NeedsAreNamed,
            SystemRule::InputsConnectOnce,
            SystemRule::EndsMatch,
            SystemRule::CountsFit,
            SystemRule::DepthFits,
            SystemRule::CostFits,
            SystemRule::StopIsThere,
            SystemRule::TimesAreTicks,
            SystemRule::RowsFit,
            SystemRule::TargetsMayChange,
            SystemRule::InstanceIsThere,
            SystemRule::NothingRepeats,
        ],
        tables,
    )
}

/// Judges whether a system in range is well-formed, in either version of the language.
///
/// A system that isn't is refused by the least rule that it breaks, at the first canonical line that breaks it. The
/// rules are those from 8 on, except the rule of cycles, 15.
#[tactic(auto, using(crate::proofs::RulesInTurn::kept, crate::proofs::RulesInTurn::refused))]
pub fn judge(alloc: Global, system: &System) -> Result<(), CheckFault>
    requires ranged { IsRanged system.now }
    ensures ok { OnOk result (IsWellFormed system.now) }
    ensures refused { IfErr result (IsFaultOf system.now) }
{
    match SystemTables::new(alloc, system) {
        Ok(tables) => judge_tables(&tables),
        Err(_) => Err(CheckFault::NoMemory),
    }
}

/// Judges a system in range, and returns it with its plain form.
///
/// A system that isn't well-formed is refused as by [`judge`].
pub fn check(alloc: Global, system: System) -> Result<Checked, CheckFault>
    requires ranged { IsRanged system }
    ensures ok { IfOk result (λ checked. checked ≡ system) }
    ensures well_formed { OnOk result (IsWellFormed system) }
    ensures refused { IfErr result (IsFaultOf system) }
{
    judge(alloc, &system)?;
    let plain = plain_form(alloc, &system)?;
    Ok(Checked::new(system, plain))
}
