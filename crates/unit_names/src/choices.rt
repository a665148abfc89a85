//! The two plain outputs that an event output becomes, from its expression: how deep they are, and what they
//! cost.
ghost use Rattle.std.specs.Prelude.{◌≡◌, ◌+◌, ◌≤◌, min, nat_le, ◌&&◌};
ghost use Rattle.unit_tree.specs.Costs.{cost_of};
ghost use Rattle.unit_tree.specs.Names.{depth_of};
ghost use Rattle.unit_tree.specs.Plain.{presence_of, word_expression_of};
ghost use Rattle.unit_names.specs.Choices.{zero_size};

use crate::expressions::{MOST, cost, is_within};
use fixed_words::Ty;
use unit_tree::Expr;

/// The depth and the cost of the zero of a type's kind.
fn zero_size(ty: Ty) -> u32
    ensures { result ≡ zero_size ty }
{
    match ty {
        Ty::Fixed(decimals) => if decimals == 0 { 2 } else { 1 },
        _ => 1,
    }
}

fn all_hold(cond: bool, yes: bool, no: bool) -> bool
    ensures { result ≡ (cond && yes && no) }
{
    cond && yes && no
}

/// The cost of an `if`, or 100,001 where it is more.
fn choice_cost(cond: u32, yes: u32, no: u32) -> u32
    requires cond_is { cond ≤ 100001 }
    requires yes_is { yes ≤ 100001 }
    requires no_is { no ≤ 100001 }
    ensures { result ≡ min (cond + 1 + yes + 1 + no) 100001 }
{
    (cond + 1 + yes + 1 + no).min(MOST)
}

/// Whether the expression of an event's presence is at most `depth` deep.
pub fn presence_is_within(expr: &Expr, depth: u32) -> bool
    ensures { result ≡ nat_le (depth_of (presence_of expr.now)) depth }
{
    match expr {
        Expr::Choose { cond, yes, no } => match depth.checked_sub(1) {
            None => false,
            Some(less) => all_hold(
                is_within(cond.get(), less),
                presence_is_within(yes.get(), less),
                presence_is_within(no.get(), less),
            ),
        },
        Expr::Absent => depth > 0,
        _ => depth > 0,
    }
}

/// Whether the expression of an event's word is at most `depth` deep.
pub fn word_is_within(ty: Ty, expr: &Expr, depth: u32) -> bool
    ensures { result ≡ nat_le (depth_of (word_expression_of ty expr.now)) depth }
{
    match expr {
        Expr::Choose { cond, yes, no } => match depth.checked_sub(1) {
            None => false,
            Some(less) => all_hold(
                is_within(cond.get(), less),
                word_is_within(ty, yes.get(), less),
                word_is_within(ty, no.get(), less),
            ),
        },
        Expr::Absent => zero_size(ty) <= depth,
        _ => is_within(expr, depth),
    }
}

/// The cost of the expression of an event's presence, or 100,001 where it is more.
pub fn presence_cost(expr: &Expr) -> u32
    ensures { result ≡ min (cost_of (presence_of expr.now)) 100001 }
{
    match expr {
        Expr::Choose { cond, yes, no } => choice_cost(
            cost(cond.get()),
            presence_cost(yes.get()),
            presence_cost(no.get()),
        ),
        Expr::Absent => 1,
        _ => 1,
    }
}

/// The cost of the expression of an event's word, or 100,001 where it is more.
pub fn word_cost(ty: Ty, expr: &Expr) -> u32
    ensures { result ≡ min (cost_of (word_expression_of ty expr.now)) 100001 }
{
    match expr {
        Expr::Choose { cond, yes, no } => choice_cost(
            cost(cond.get()),
            word_cost(ty, yes.get()),
            word_cost(ty, no.get()),
        ),
        Expr::Absent => zero_size(ty),
        _ => cost(expr),
    }
}
