//! The test that a walk makes of each line.
ghost use Rattle.std.specs.Prelude.{◌≡◌, Some};
ghost use Rattle.unit_tree.specs.Sites.{UnitScope};
ghost use Rattle.unit_check.specs.Questions.{asked_of};
ghost use Rattle.unit_check.specs.Walks.{scope_of, form_of};
ghost use Rattle.unit_tree.specs.Orders.{declares_output};

use crate::rules::{SystemRule, breaks};
use crate::tables::SystemTables;
use crate::walk::{FormRef, ScopeRef};
use unit_names::UnitNames;
use unit_tree::Unit;

/// A question that a walk asks of each line.
#[derive(Clone, Copy)]
pub(crate) enum Question<'q> {
    /// Whether it breaks the rule.
    Breaks(SystemRule),
    /// Whether it declares the output of this name in the unit.
    Declares { unit: &'q Unit, output: &'q [u8] },
}

/// Whether a line of a unit declares the output.
fn declares_in(unit: &Unit, output: &[u8], around: &UnitNames<'_>, line: FormRef<'_>) -> bool
    ensures { result ≡ declares_output output.now (Some unit.now) (UnitScope around.now) (form_of line.entry) }
{
    let name = match line {
        FormRef::Output(declared) => &declared.name,
        FormRef::EventOutput(declared) => &declared.name,
        _ => return false,
    };
    around.unit().name.as_slice() == unit.name.as_slice() && name.as_slice() == output
}

/// Whether a line declares the output of this name in the unit.
fn declares(unit: &Unit, output: &[u8], scope: ScopeRef<'_, '_>, line: FormRef<'_>) -> bool
    ensures { result ≡ declares_output output.now (Some unit.now) (scope_of scope.entry) (form_of line.entry) }
{
    match scope {
        ScopeRef::Unit(around) => declares_in(unit, output, around, line),
        _ => false,
    }
}

/// Whether a line passes the test of a question.
pub(crate) fn answers(
    question: Question<'_>,
    tables: &SystemTables<'_>,
    scope: ScopeRef<'_, '_>,
    place: usize,
    line: FormRef<'_>,
) -> bool
    ensures { result ≡ asked_of question.entry tables.now (scope_of scope.entry) place (form_of line.entry) }
{
    match question {
        Question::Breaks(rule) => breaks(rule, tables, scope, place, line),
        Question::Declares { unit, output } => declares(unit, output, scope, line),
    }
}
