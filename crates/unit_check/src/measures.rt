//! Rules on the depth and the cost of expressions.
ghost use Rattle.std.specs.Prelude.{◌≡◌, ◌||◌, nat_lt};
ghost use Rattle.std.specs.Option.{option_copied};
ghost use Rattle.unit_check.specs.Measures.{is_deeper, is_given_deeper, is_deep_at, is_dearer, is_dear_at};
ghost use Rattle.unit_check.specs.Walks.{scope_of, form_of};
ghost use Rattle.unit_tree.specs.Names.{expression_on};
ghost use Rattle.unit_tree.specs.Plain.{presence_of, word_expression_of};
ghost use Rattle.unit_tree.specs.WellFormed.{step_cost};
ghost use Rattle.model_rules.specs.Limits.{cost_limit};

use crate::walk::{FormRef, ScopeRef};
use fixed_words::List;
use model_rules::{DEEPEST_EXPRESSION, GREATEST_COST};
use unit_names::{
    cost, is_within, lines_cost, presence_cost, presence_is_within, word_cost, word_is_within,
};
use unit_tree::{EventOut, Expr, Line};

/// The expression on a line.
fn expression_on<'a>(line: FormRef<'a>) -> Option<&'a Expr>
    ensures { option_copied result ≡ expression_on (form_of line.entry) }
{
    match line {
        FormRef::Output(output) => Some(&output.value),
        FormRef::EventOutput(event) => Some(&event.value),
        FormRef::Max(value) => Some(value),
        FormRef::Assign { target: _, value } => Some(value),
        FormRef::If(cond) => Some(cond),
        FormRef::Accept(value) => Some(value),
        _ => None,
    }
}

/// Whether one of the plain outputs that an event output becomes is too deep.
fn is_deep_event(event: &EventOut) -> bool
    ensures { result ≡ (is_deeper (presence_of event.now.value) || is_deeper (word_expression_of event.now.ty event.now.value)) }
{
    !presence_is_within(&event.value, DEEPEST_EXPRESSION)
        || !word_is_within(event.ty, &event.value, DEEPEST_EXPRESSION)
}

/// Whether the expression on a line is too deep.
fn is_deep_line(line: FormRef<'_>) -> bool
    ensures { result ≡ is_given_deeper (expression_on (form_of line.entry)) }
{
    match expression_on(line) {
        Some(value) => !is_within(value, DEEPEST_EXPRESSION),
        None => false,
    }
}

/// Rule 17: whether an expression is too deep.
pub(crate) fn has_deep_expression(scope: ScopeRef<'_, '_>, line: FormRef<'_>) -> bool
    ensures { result ≡ is_deep_at (scope_of scope.entry) (form_of line.entry) }
{
    match (scope, line) {
        (ScopeRef::Unit(_), FormRef::EventOutput(event)) => is_deep_event(event),
        _ => is_deep_line(line),
    }
}

/// Whether a call of an expression costs too much.
#[tactic(auto, using(crate::proofs::PlainMeasures::dearer_is))]
fn is_dear(value: &Expr) -> bool
    ensures { result ≡ is_dearer value.now }
{
    cost(value) + 1 > GREATEST_COST
}

/// Whether a call of one of the plain outputs that an event output becomes costs too much.
#[tactic(auto, using(crate::proofs::PlainMeasures::dearer_is))]
fn is_dear_event(event: &EventOut) -> bool
    ensures { result ≡ (is_dearer (presence_of event.now.value) || is_dearer (word_expression_of event.now.ty event.now.value)) }
{
    presence_cost(&event.value) + 1 > GREATEST_COST
        || word_cost(event.ty, &event.value) + 1 > GREATEST_COST
}

/// Whether a step costs too much.
#[tactic(auto, using(crate::proofs::PlainMeasures::steps_are))]
fn is_dear_step(step: &Option<List<Line>>) -> bool
    ensures { result ≡ nat_lt cost_limit (step_cost step.now) }
{
    match step {
        Some(lines) => lines_cost(lines.as_slice()) + 1 > GREATEST_COST,
        None => false,
    }
}

/// Rule 18: whether a call costs too much.
pub(crate) fn costs_too_much(scope: ScopeRef<'_, '_>, line: FormRef<'_>) -> bool
    ensures { result ≡ is_dear_at (scope_of scope.entry) (form_of line.entry) }
{
    match (scope, line) {
        (ScopeRef::Unit(_), FormRef::Output(output)) => is_dear(&output.value),
        (ScopeRef::Unit(_), FormRef::EventOutput(event)) => is_dear_event(event),
        (ScopeRef::Unit(_), FormRef::Max(value)) => is_dear(value),
        (ScopeRef::Unit(unit), FormRef::Step) => is_dear_step(&unit.unit().step),
        _ => false,
    }
}
