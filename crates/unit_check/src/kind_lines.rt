//! Rules on kinds, and on the literals of declarations.
ghost use Rattle.std.specs.Prelude.{◌≡◌};
ghost use Rattle.unit_check.specs.Ranges.{has_few_decimals, word_read, setting_type, literal_read, is_of_wrong_kind_at, is_out_of_range_at};
ghost use Rattle.unit_check.specs.Walks.{scope_of, form_of};
ghost use Rattle.unit_tree.specs.LineForms.{tail_of, tail_speaks_of_events};
ghost use Rattle.unit_tree.specs.declared.line_form.LineForm.TheVariants as form;
ghost use Rattle.unit_tree.specs.Sites.{UnitScope, StepScope};
ghost use Rattle.unit_tree.specs.WellFormed.{mistakes_kind, on_literal, is_misformed, is_beyond};

use crate::walk::{FormRef, ScopeRef};
use fixed_words::{Kind, Literal, LiteralFault, Ty, literal_word};
use unit_names::{SystemNames, UnitNames};
use unit_tree::{Instance, Setting, speaks_of_events};

// ---- Kinds

/// Whether an expression of a unit has the wrong kind, in an output or in `max`.
fn mistakes_in_unit(unit: &UnitNames<'_>, line: FormRef<'_>) -> bool
    ensures { result ≡ mistakes_kind (UnitScope unit.now) (form_of line.entry) }
{
    match line {
        FormRef::Output(output) => !unit.has_kind(Some(output.ty.kind()), &output.value),
        FormRef::EventOutput(event) => !unit.has_word_kind(event.ty, &event.value),
        FormRef::Max(value) => !unit.has_kind(Some(Kind::Int), value),
        _ => false,
    }
}

/// Whether an expression of a step has the wrong kind.
fn mistakes_in_step(unit: &UnitNames<'_>, line: FormRef<'_>) -> bool
    ensures { result ≡ mistakes_kind (StepScope unit.now) (form_of line.entry) }
{
    match line {
        FormRef::Assign { target, value } => !unit.is_assigned_kind(target.as_slice(), value),
        FormRef::If(cond) => !unit.has_kind(Some(Kind::Bool), cond),
        FormRef::Accept(value) => !unit.has_kind(Some(Kind::Int), value),
        _ => false,
    }
}

fn mistakes_kind(scope: ScopeRef<'_, '_>, line: FormRef<'_>) -> bool
    ensures { result ≡ mistakes_kind (scope_of scope.entry) (form_of line.entry) }
{
    match scope {
        ScopeRef::Unit(unit) => mistakes_in_unit(unit, line),
        ScopeRef::Step(unit) => mistakes_in_step(unit, line),
        _ => false,
    }
}

/// Whether `absent` or `present` occurs on a line.
fn line_speaks_of_events(line: FormRef<'_>) -> bool
    ensures { result ≡ tail_speaks_of_events (tail_of (form_of line.entry)) }
{
    match line {
        FormRef::Output(output) => speaks_of_events(&output.value),
        FormRef::EventOutput(event) => speaks_of_events(&event.value),
        FormRef::Max(value) => speaks_of_events(value),
        FormRef::Assign { target: _, value } => speaks_of_events(value),
        FormRef::If(cond) => speaks_of_events(cond),
        FormRef::Accept(value) => speaks_of_events(value),
        _ => false,
    }
}

// ---- Literals

fn has_few_decimals(ty: Ty) -> bool
    ensures { result ≡ has_few_decimals ty }
{
    match ty {
        Ty::Fixed(decimals) => decimals <= 9,
        _ => true,
    }
}

/// The word of a literal, or why it has none. In a system in range no type has more than nine decimals.
fn word_read(ty: Ty, value: Literal) -> Result<i64, LiteralFault>
    ensures { result ≡ word_read ty value }
{
    if has_few_decimals(ty) {
        literal_word(ty, value)
    } else {
        Ok(0)
    }
}

fn is_misformed(read: Result<i64, LiteralFault>) -> bool
    ensures { result ≡ is_misformed read }
{
    matches!(read, Err(LiteralFault::Form))
}

fn is_beyond(read: Result<i64, LiteralFault>) -> bool
    ensures { result ≡ is_beyond read }
{
    matches!(read, Err(LiteralFault::Range))
}

/// The type of the parameter that a line of an instance sets.
fn setting_type(names: &SystemNames<'_>, instance: &Instance, setting: &Setting) -> Option<Ty>
    ensures { result ≡ setting_type names.now instance.now setting.now.name }
{
    names.unit_of(instance)?.param_type(setting.name.as_slice())
}

/// The word of a literal in an instance, or why it has none.
fn setting_read(
    names: &SystemNames<'_>,
    scope: ScopeRef<'_, '_>,
    setting: &Setting,
) -> Option<Result<i64, LiteralFault>>
    ensures { result ≡ literal_read names.now (scope_of scope.entry) (form.Setting setting.now) }
{
    match scope {
        ScopeRef::Instance(instance) => {
            let ty = setting_type(names, instance, setting)?;
            Some(word_read(ty, setting.value))
        }
        _ => None,
    }
}

/// The word of the literal on a line, or why it has none.
fn literal_read(
    names: &SystemNames<'_>,
    scope: ScopeRef<'_, '_>,
    line: FormRef<'_>,
) -> Option<Result<i64, LiteralFault>>
    ensures { result ≡ literal_read names.now (scope_of scope.entry) (form_of line.entry) }
{
    match line {
        FormRef::Param(param) => Some(word_read(param.ty, param.start)),
        FormRef::State(state) => Some(word_read(state.ty, state.start)),
        FormRef::Input(input) => Some(word_read(input.ty, input.start)),
        FormRef::Setting(setting) => setting_read(names, scope, setting),
        _ => None,
    }
}

fn is_misformed_literal(read: Option<Result<i64, LiteralFault>>) -> bool
    ensures { result ≡ on_literal is_misformed read }
{
    match read {
        Some(read) => is_misformed(read),
        None => false,
    }
}

/// Rule 10: whether a kind is wrong, `absent` or `present` is used in version 1, or a literal has the
/// wrong form for its type.
pub(crate) fn is_of_wrong_kind(
    names: &SystemNames<'_>,
    scope: ScopeRef<'_, '_>,
    line: FormRef<'_>,
) -> bool
    ensures { result ≡ is_of_wrong_kind_at names.now (scope_of scope.entry) (form_of line.entry) }
{
    mistakes_kind(scope, line)
        || ((names.system().version == 1 && line_speaks_of_events(line))
            || is_misformed_literal(literal_read(names, scope, line)))
}

/// Rule 11: whether a literal is out of its type's range.
pub(crate) fn is_out_of_range(
    names: &SystemNames<'_>,
    scope: ScopeRef<'_, '_>,
    line: FormRef<'_>,
) -> bool
    ensures { result ≡ is_out_of_range_at names.now (scope_of scope.entry) (form_of line.entry) }
{
    match literal_read(names, scope, line) {
        Some(read) => is_beyond(read),
        None => false,
    }
}
