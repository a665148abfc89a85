//! Tests of expressions and step lines alone: how deep they are, and what they cost.
ghost use Rattle.std.specs.Prelude.{◌≡◌, map, min, nat_le};
ghost use Rattle.std.specs.List.{sum};
ghost use Rattle.unit_tree.specs.Costs.{cost_of, line_cost as line_cost_of};
ghost use Rattle.unit_tree.specs.Names.{depth_of};

use unit_tree::{Expr, Line};

/// Costs are counted up to this number, one more than a call may cost.
pub(crate) const MOST: u32 = 100_001;

/// Whether an expression is at most `depth` deep. The depth of a leaf is 1.
pub fn is_within(expr: &Expr, depth: u32) -> bool
    ensures { result ≡ nat_le (depth_of expr.now) depth }
{
    if depth == 0 {
        return false;
    }
    let less = depth - 1;
    match expr {
        Expr::Number { .. }
        | Expr::Truth(_)
        | Expr::Var(_)
        | Expr::Time
        | Expr::Step
        | Expr::Absent
        | Expr::Present(_) => true,
        Expr::Unary { op: _, arg } => is_within(arg.get(), less),
        Expr::Binary { op: _, left, right } => is_within(left.get(), less)
            && is_within(right.get(), less),
        Expr::Clamp { value, low, high } => {
            is_within(value.get(), less)
                && is_within(low.get(), less)
                && is_within(high.get(), less)
        }
        Expr::Choose { cond, yes, no } => {
            is_within(cond.get(), less) && is_within(yes.get(), less) && is_within(no.get(), less)
        }
    }
}

/// The cost of an expression, or 100,001 where it is more.
pub fn cost(expr: &Expr) -> u32
    ensures { result ≡ min (cost_of expr.now) 100001 }
{
    let all = match expr {
        Expr::Number { .. }
        | Expr::Truth(_)
        | Expr::Var(_)
        | Expr::Time
        | Expr::Step
        | Expr::Absent
        | Expr::Present(_) => 1,
        Expr::Unary { op: _, arg } => cost(arg.get()) + 1,
        Expr::Binary { op: _, left, right } => cost(left.get()) + cost(right.get()) + 1,
        Expr::Clamp { value, low, high } => cost(value.get())
            + cost(low.get())
            + cost(high.get())
            + 1,
        Expr::Choose { cond, yes, no } => cost(cond.get())
            + 1
            + cost(yes.get())
            + 1
            + cost(no.get()),
    };
    all.min(MOST)
}

/// The cost of a step line with its block, or 100,001 where it is more.
#[cycle(lines)]
#[tactic(auto, using(crate::proofs::Costs::capped_times))]
pub fn line_cost(line: &Line) -> u32
    ensures { result ≡ min (line_cost_of line.now) 100001 }
{
    let all = match line {
        Line::Assign { target: _, value } => cost(value) as u64 + 1,
        Line::If {
            cond,
            yes,
            no: None,
        } => cost(cond) as u64 + 1 + lines_cost(yes.as_slice()) as u64,
        Line::If {
            cond,
            yes,
            no: Some(no),
        } => cost(cond) as u64
            + 1
            + lines_cost(yes.as_slice()) as u64
            + (1 + lines_cost(no.as_slice()) as u64),
        Line::Repeat { count, body } => 1
            + *count as u64 * (lines_cost(body.as_slice()) as u64 + 1),
        Line::Accept { value } => cost(value) as u64 + 1,
    };
    all.min(100_001) as u32
}

/// The cost of step lines, or 100,001 where it is more.
#[cycle(lines)]
pub fn lines_cost(lines: &[Line]) -> u32
    ensures { result ≡ min (sum (map line_cost_of lines.now)) 100001 }
{
    let mut all = 0;
    for line in lines {
        all = (all + line_cost(line)).min(MOST);
    }
    all
}
