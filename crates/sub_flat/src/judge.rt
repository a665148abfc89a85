//! The rules of groups.
ghost use Rattle.std.specs.Prelude.{◌≡◌, ◌↔◌, ◌<◌, IfOk, IsTrue, length, if◌then◌else◌, Some};
ghost use Rattle.sub_flat.specs.FlatReading.{IsLeast, JudgesLeast, JudgesNest, MissesAt, Refuses, is_less, rule_number, rule_of};
ghost use Rattle.sub_flat.specs.NestRules.{AtGroup, BreaksGroup};
ghost use Rattle.sub_flat.specs.Searching.{IsNesting};

use crate::asks::{is_misnamed, main_misses_port, misses_port};
use crate::cycles::{Nesting, contains_itself};
use fixed_words::NoMemory;
use model_rules::Rule;
use nest_names::{GroupNames, NestNames};
use nest_text::NestFault;
use std::alloc::Global;

/// The rules that a group may break.
#[derive(Clone, Copy, Debug, PartialEq, Eq)]
pub enum GroupRule {
    /// Rule 27: another group or a unit has its name, or it has no instance.
    Names,
    /// Rule 28: it contains itself.
    Nesting,
    /// Rule 29: a port doesn't exist, or the name of an `out` line occurs twice.
    Ports,
}

impl GroupRule {
    /// The rule among all.
    fn rule(self) -> Rule
        ensures { result ≡ rule_of self }
    {
        match self {
            GroupRule::Names => Rule::GroupIsNamed,
            GroupRule::Nesting => Rule::GroupsEnd,
            GroupRule::Ports => Rule::GroupPortsAreThere,
        }
    }

    /// Its number in a refusal.
    fn number(self) -> u8
        ensures { result ≡ rule_number self }
    {
        self.rule().number()
    }
}

/// Whether the group at a place breaks the rule.
fn breaks(
    alloc: Global,
    names: &NestNames<'_>,
    nesting: &Nesting,
    rule: GroupRule,
    place: usize,
    group: &GroupNames<'_>,
) -> Result<bool, NoMemory>
    requires { IsNesting names.now nesting.now }
    ensures { IfOk result (λ told. IsTrue told ↔ BreaksGroup rule names.now place group.now) }
{
    match rule {
        GroupRule::Names => Ok(is_misnamed(names, group)),
        GroupRule::Nesting => contains_itself(alloc, names, nesting, place),
        GroupRule::Ports => Ok(misses_port(names, group)),
    }
}

fn is_less(line: u32, least: Option<u32>) -> bool
    ensures { result ≡ is_less line least }
{
    match least {
        Some(least) => line < least,
        None => true,
    }
}

/// This line if it breaks a rule, else the least line so far.
fn kept(broken: bool, line: u32, least: Option<u32>) -> Option<u32>
    ensures { result ≡ (if broken then Some line else least) }
{
    if broken { Some(line) } else { least }
}

/// The least line of a group that breaks the rule. A group is tested only if its line is before the least one so far.
fn least_line(
    alloc: Global,
    names: &NestNames<'_>,
    nesting: &Nesting,
    rule: GroupRule,
) -> Result<Option<u32>, NoMemory>
    requires lines { length names.now.lines ≡ length names.now.groups }
    requires nesting { IsNesting names.now nesting.now }
    ensures { IfOk result (IsLeast (AtGroup names.now rule)) }
{
    let groups = names.groups();
    let lines = names.nest().lines.as_slice();
    let mut least: Option<u32> = None;
    for (place, group) in groups.iter().enumerate() {
        let line = lines[place];
        if !is_less(line, least) {
            continue;
        }
        let broken = breaks(alloc, names, nesting, rule, place, group)?;
        least = kept(broken, line, least);
    }
    Ok(least)
}

/// The least line where a port doesn't exist, also that of `main`.
fn least_miss(
    alloc: Global,
    names: &NestNames<'_>,
    nesting: &Nesting,
) -> Result<Option<u32>, NoMemory>
    requires lines { length names.now.lines ≡ length names.now.groups }
    requires nesting { IsNesting names.now nesting.now }
    ensures { IfOk result (IsLeast (MissesAt names.now)) }
{
    let least = least_line(alloc, names, nesting, GroupRule::Ports)?;
    let main_line = names.nest().main_line;
    if !is_less(main_line, least) {
        return Ok(least);
    }
    Ok(kept(main_misses_port(names), main_line, least))
}

/// The refusal by a rule, at the least line that breaks it, if there is one.
fn refusal(least: Option<u32>, rule: u8) -> Result<(), NestFault>
    ensures { Refuses rule least result }
{
    match least {
        Some(line) => Err(NestFault::Line { line, rule }),
        None => Ok(()),
    }
}

/// Judges a rule of groups.
fn judge_rule(
    alloc: Global,
    names: &NestNames<'_>,
    nesting: &Nesting,
    rule: GroupRule,
) -> Result<(), NestFault>
    requires nesting { IsNesting names.now nesting.now }
    requires lines { length names.now.lines ≡ length names.now.groups }
    ensures { JudgesLeast (AtGroup names.now rule) (rule_number rule) result }
{
    let least = least_line(alloc, names, nesting, rule)?;
    refusal(least, rule.number())
}

/// Judges rule 29, which `main` may break too.
fn judge_ports(alloc: Global, names: &NestNames<'_>, nesting: &Nesting) -> Result<(), NestFault>
    requires nesting { IsNesting names.now nesting.now }
    requires lines { length names.now.lines ≡ length names.now.groups }
    ensures { JudgesLeast (MissesAt names.now) 29 result }
{
    let least = least_miss(alloc, names, nesting)?;
    refusal(least, GroupRule::Ports.number())
}

/// Judges all rules of groups, except the one on the size of the flat system.
pub(crate) fn judge(alloc: Global, names: &NestNames<'_>) -> Result<(), NestFault>
    requires { length names.now.lines ≡ length names.now.groups }
    ensures { JudgesNest names.now result }
{
    let nesting = Nesting::new(alloc, names)?;
    judge_rule(alloc, names, &nesting, GroupRule::Names)?;
    judge_rule(alloc, names, &nesting, GroupRule::Nesting)?;
    judge_ports(alloc, names, &nesting)
}
