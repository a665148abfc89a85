//! The levels of expressions in the grammar.
ghost use Rattle.std.specs.Prelude.{◌≡◌};
ghost use Rattle.unit_tree.specs.Canonical.{canonical_phrase};
ghost use Rattle.unit_tree.specs.Levels.{grammar_level};
ghost use Rattle.unit_tree.specs.Phrases.{level_of, operand_level, unary_level};
ghost use Rattle.unit_print.specs.Calls.{is_call};

use unit_tree::levels::{Level, allows, binary_level, unary_level};
use unit_tree::{BinOp, Expr, UnOp};

/// Whether the operation is written as a call, `min(a, b)`, which is allowed in every place.
pub(crate) fn is_call(op: BinOp) -> bool
    ensures { result ≡ is_call op }
{
    allows(Level::Primary, binary_level(op))
}

/// The level that an operation requires of its operand.
pub(crate) fn operand_level(op: UnOp) -> Level
    ensures { grammar_level result ≡ operand_level (unary_level op) }
{
    match op {
        UnOp::Neg => Level::Negation,
        UnOp::Not => Level::Not,
        UnOp::Abs | UnOp::ToInt | UnOp::ToFix(_) => Level::Whole,
    }
}

/// The level of an expression's outermost production.
pub(crate) fn level_of(expr: &Expr) -> Level
    ensures { grammar_level result ≡ level_of (canonical_phrase expr.now) }
{
    match expr {
        Expr::Unary { op, .. } => unary_level(*op),
        Expr::Binary { op, .. } => binary_level(*op),
        Expr::Choose { .. } => Level::Whole,
        Expr::Number { .. } => Level::Primary,
        Expr::Truth(_) => Level::Primary,
        Expr::Var(_) => Level::Primary,
        Expr::Time => Level::Primary,
        Expr::Step => Level::Primary,
        Expr::Clamp { .. } => Level::Primary,
        Expr::Absent => Level::Primary,
        Expr::Present(_) => Level::Primary,
    }
}
