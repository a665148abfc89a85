//! Tests of the expressions of a printable system.
ghost use Rattle.std.specs.Prelude.{◌≡◌, nat_le};
ghost use Rattle.std.specs.List.{list_all};
ghost use Rattle.unit_tree.specs.Canonical.{canonical_phrase, placed};
ghost use Rattle.unit_tree.specs.Levels.{grammar_level};
ghost use Rattle.unit_tree.specs.Names.{names_in};
ghost use Rattle.unit_tree.specs.Phrases.{nesting};
ghost use Rattle.unit_tree.specs.Printable.{is_unsigned};
ghost use Rattle.unit_tree.specs.Values.{unary_is_ranged, is_ranged};
ghost use Rattle.unit_print.specs.Fitting.{is_name, expression_fits};

use crate::levels::{is_call, level_of, operand_level};
use crate::names::is_name;
use model_rules::{DEEPEST_WRITING, MOST_DECIMALS};
use unit_tree::levels::{Level, allows, binary_level, left_level, right_level};
use unit_tree::{Expr, UnOp, speaks_of_events};

/// Whether all names in an expression are names.
fn has_names(expr: &Expr) -> bool
    ensures { result ≡ list_all is_name (names_in expr.now) }
{
    match expr {
        Expr::Var(name) | Expr::Present(name) => is_name(name.as_slice()),
        Expr::Unary { op: _, arg } => has_names(arg.get()),
        Expr::Binary { op: _, left, right } => has_names(left.get()) && has_names(right.get()),
        Expr::Clamp { value, low, high } => {
            has_names(value.get()) && has_names(low.get()) && has_names(high.get())
        }
        Expr::Choose { cond, yes, no } => {
            has_names(cond.get()) && has_names(yes.get()) && has_names(no.get())
        }
        Expr::Number { .. } | Expr::Truth(_) | Expr::Time | Expr::Step | Expr::Absent => true,
    }
}

fn unary_is_ranged(op: UnOp) -> bool
    ensures { result ≡ unary_is_ranged op }
{
    match op {
        UnOp::ToFix(decimals) => decimals <= MOST_DECIMALS,
        _ => true,
    }
}

/// Whether the numbers of decimals in an expression are at most 9.
fn is_ranged(expr: &Expr) -> bool
    ensures { result ≡ is_ranged expr.now }
{
    match expr {
        Expr::Number { word: _, decimals } => *decimals <= MOST_DECIMALS,
        Expr::Unary { op, arg } => unary_is_ranged(*op) && is_ranged(arg.get()),
        Expr::Binary { op: _, left, right } => is_ranged(left.get()) && is_ranged(right.get()),
        Expr::Clamp { value, low, high } => {
            is_ranged(value.get()) && is_ranged(low.get()) && is_ranged(high.get())
        }
        Expr::Choose { cond, yes, no } => {
            is_ranged(cond.get()) && is_ranged(yes.get()) && is_ranged(no.get())
        }
        _ => true,
    }
}

/// Whether no number of an expression is negative.
fn is_unsigned(expr: &Expr) -> bool
    ensures { result ≡ is_unsigned expr.now }
{
    match expr {
        Expr::Number { word, decimals: _ } => *word >= 0,
        Expr::Unary { op: _, arg } => is_unsigned(arg.get()),
        Expr::Binary { op: _, left, right } => is_unsigned(left.get()) && is_unsigned(right.get()),
        Expr::Clamp { value, low, high } => {
            is_unsigned(value.get()) && is_unsigned(low.get()) && is_unsigned(high.get())
        }
        Expr::Choose { cond, yes, no } => {
            is_unsigned(cond.get()) && is_unsigned(yes.get()) && is_unsigned(no.get())
        }
        _ => true,
    }
}

/// Whether an expression, where the grammar requires a level, is nested at most `depth` levels
/// deep.
#[cycle(nesting)]
fn placed_is_within(asked: Level, expr: &Expr, depth: u32) -> bool
    ensures { result ≡ nat_le (nesting (placed (grammar_level asked) (canonical_phrase expr.now))) depth }
{
    if allows(asked, level_of(expr)) {
        is_within(expr, depth)
    } else {
        depth > 0 && is_within(expr, depth - 1)
    }
}

/// Whether an expression, as it is written, is nested at most `depth` levels deep.
#[cycle(nesting)]
fn is_within(expr: &Expr, depth: u32) -> bool
    ensures { result ≡ nat_le (nesting (canonical_phrase expr.now)) depth }
{
    match expr {
        Expr::Unary { op, arg } => {
            depth > 0 && placed_is_within(operand_level(*op), arg.get(), depth - 1)
        }
        Expr::Binary { op, left, right } if is_call(*op) => {
            depth > 0 && is_within(left.get(), depth - 1) && is_within(right.get(), depth - 1)
        }
        Expr::Binary { op, left, right } => {
            let level = binary_level(*op);
            placed_is_within(left_level(level), left.get(), depth)
                && placed_is_within(right_level(level), right.get(), depth)
        }
        Expr::Clamp { value, low, high } => {
            depth > 0
                && is_within(value.get(), depth - 1)
                && is_within(low.get(), depth - 1)
                && is_within(high.get(), depth - 1)
        }
        Expr::Choose { cond, yes, no } => {
            depth > 0
                && is_within(cond.get(), depth - 1)
                && is_within(yes.get(), depth - 1)
                && is_within(no.get(), depth - 1)
        }
        _ => true,
    }
}

/// Whether an expression is allowed on a line of a text of the version, apart from the line's
/// length.
#[tactic(auto, unfolding(crate::specs::Fitting::expression_fits))]
pub(crate) fn expression_fits(version: u8, expr: &Expr) -> bool
    ensures { result ≡ expression_fits version expr.now }
{
    has_names(expr)
        && is_ranged(expr)
        && is_unsigned(expr)
        && is_within(expr, u32::from(DEEPEST_WRITING))
        && (!speaks_of_events(expr) || version == 2)
}
