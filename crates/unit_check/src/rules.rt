//! The rules, and the test of each.
ghost use Rattle.std.specs.Prelude.{◌≡◌};
ghost use Rattle.unit_check.specs.Rules.{test_of, number_of, rule_of};
ghost use Rattle.unit_check.specs.Walks.{scope_of, form_of};

use crate::counts::exceeds;
use crate::kind_lines::{is_of_wrong_kind, is_out_of_range};
use crate::measures::{costs_too_much, has_deep_expression};
use crate::name_lines::{assigns_read_only, hides_need, misnames, redeclares};
use crate::ports::{connects_again, joins_other_types, repeats};
use crate::run_lines::{has_too_many_rows, lacks_instance, lacks_stop, mistimes};
use crate::tables::SystemTables;
use crate::walk::{FormRef, ScopeRef};
use model_rules::Rule;

/// A rule of a system. Each has the number by which a refusal names it. Rule 15, on cycles, is judged by the order of
/// outputs.
#[derive(Clone, Copy, Debug, PartialEq, Eq)]
pub(crate) enum SystemRule {
    /// Rule 8: names of units, of instances, and in one unit differ.
    NamesDiffer,
    /// Rule 9: names are declared, and may be used where they are used.
    NamesAreDeclared,
    /// Rule 10: expressions have the required kinds, and literals the forms of their types.
    KindsFit,
    /// Rule 11: literals are in the ranges of their types.
    LiteralsFit,
    /// Rule 12: outputs use no inputs except those in their needs.
    NeedsAreNamed,
    /// Rule 13: an input is connected once.
    InputsConnectOnce,
    /// Rule 14: the ends of a connection have one type.
    EndsMatch,
    /// Rule 16: there are not too many of a kind.
    CountsFit,
    /// Rule 17: no expression is too deep.
    DepthFits,
    /// Rule 18: no call costs too much.
    CostFits,
    /// Rule 19: there is a `stop`.
    StopIsThere,
    /// Rule 20: `stop` and `longest` are whole numbers of ticks.
    TimesAreTicks,
    /// Rule 21: there are not too many rows for this many instances.
    RowsFit,
    /// Rule 22: only states and locals are assigned.
    TargetsMayChange,
    /// Rule 23: there is an instance.
    InstanceIsThere,
    /// Rule 24: nothing is set, sampled or needed twice.
    NothingRepeats,
}

impl SystemRule {
    /// The rule among all.
    fn rule(self) -> Rule
        ensures { result ≡ rule_of self }
    {
        match self {
            SystemRule::NamesDiffer => Rule::NamesDiffer,
            SystemRule::NamesAreDeclared => Rule::NamesAreDeclared,
            SystemRule::KindsFit => Rule::KindsFit,
            SystemRule::LiteralsFit => Rule::LiteralsFit,
            SystemRule::NeedsAreNamed => Rule::NeedsAreNamed,
            SystemRule::InputsConnectOnce => Rule::InputsConnectOnce,
            SystemRule::EndsMatch => Rule::EndsMatch,
            SystemRule::CountsFit => Rule::CountsFit,
            SystemRule::DepthFits => Rule::DepthFits,
            SystemRule::CostFits => Rule::CostFits,
            SystemRule::StopIsThere => Rule::StopIsThere,
            SystemRule::TimesAreTicks => Rule::TimesAreTicks,
            SystemRule::RowsFit => Rule::RowsFit,
            SystemRule::TargetsMayChange => Rule::TargetsMayChange,
            SystemRule::InstanceIsThere => Rule::InstanceIsThere,
            SystemRule::NothingRepeats => Rule::NothingRepeats,
        }
    }

    /// Its number in a refusal.
    pub(crate) fn number(self) -> u8
        ensures { result ≡ number_of self }
    {
        self.rule().number()
    }
}

/// Whether a line of a system breaks a rule.
#[tactic(auto, unfolding(crate::specs::Rules::test_of))]
pub(crate) fn breaks(
    rule: SystemRule,
    tables: &SystemTables<'_>,
    scope: ScopeRef<'_, '_>,
    place: usize,
    line: FormRef<'_>,
) -> bool
    ensures { result ≡ test_of rule tables.now (scope_of scope.entry) place (form_of line.entry) }
{
    let names = tables.names();
    match rule {
        SystemRule::NamesDiffer => redeclares(names, scope, place, line),
        SystemRule::NamesAreDeclared => misnames(names, scope, line),
        SystemRule::KindsFit => is_of_wrong_kind(names, scope, line),
        SystemRule::LiteralsFit => is_out_of_range(names, scope, line),
        SystemRule::NeedsAreNamed => hides_need(scope, line),
        SystemRule::InputsConnectOnce => connects_again(tables, place, line),
        SystemRule::EndsMatch => joins_other_types(names, line),
        SystemRule::CountsFit => exceeds(tables, scope, place, line),
        SystemRule::DepthFits => has_deep_expression(scope, line),
        SystemRule::CostFits => costs_too_much(scope, line),
        SystemRule::StopIsThere => lacks_stop(names, line),
        SystemRule::TimesAreTicks => mistimes(names, line),
        SystemRule::RowsFit => has_too_many_rows(names, line),
        SystemRule::TargetsMayChange => assigns_read_only(scope, line),
        SystemRule::InstanceIsThere => lacks_instance(names, line),
        SystemRule::NothingRepeats => repeats(tables, scope, place, line),
    }
}
