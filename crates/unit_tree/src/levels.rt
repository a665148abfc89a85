//! Levels of the grammar of expressions. By them a reader knows where an operand ends, and a printer where parentheses
//! are needed.
ghost use Rattle.std.specs.Prelude.{◌≡◌};
ghost use Rattle.unit_tree.specs.Phrases.{strength, unary_level, binary_level, left_level, right_level, allows};
ghost use Rattle.unit_tree.specs.Levels.{grammar_level};

use crate::{BinOp, UnOp};

/// A level of the grammar, from the weakest to the strongest.
#[derive(Clone, Copy, Debug, PartialEq, Eq)]
pub enum Level {
    Whole,
    Or,
    And,
    Not,
    Comparison,
    Sum,
    Product,
    Negation,
    Primary,
}

fn strength(level: Level) -> u8
    ensures { result ≡ strength (grammar_level level) }
{
    match level {
        Level::Whole => 0,
        Level::Or => 1,
        Level::And => 2,
        Level::Not => 3,
        Level::Comparison => 4,
        Level::Sum => 5,
        Level::Product => 6,
        Level::Negation => 7,
        Level::Primary => 8,
    }
}

/// Whether a phrase of level `level` is allowed where the grammar requires level `asked`.
pub fn allows(asked: Level, level: Level) -> bool
    ensures { result ≡ allows (grammar_level asked) (grammar_level level) }
{
    strength(asked) <= strength(level)
}

/// The level of the production of an operation on one operand.
pub fn unary_level(op: UnOp) -> Level
    ensures { grammar_level result ≡ unary_level op }
{
    match op {
        UnOp::Neg => Level::Negation,
        UnOp::Not => Level::Not,
        UnOp::Abs | UnOp::ToInt | UnOp::ToFix(_) => Level::Primary,
    }
}

/// The level of the production of an operation on two operands.
pub fn binary_level(op: BinOp) -> Level
    ensures { grammar_level result ≡ binary_level op }
{
    match op {
        BinOp::Or => Level::Or,
        BinOp::And => Level::And,
        BinOp::Add | BinOp::Sub => Level::Sum,
        BinOp::Mul | BinOp::Slash | BinOp::Div | BinOp::Mod => Level::Product,
        BinOp::Min | BinOp::Max => Level::Primary,
        BinOp::Eq | BinOp::Ne | BinOp::Lt | BinOp::Le | BinOp::Gt | BinOp::Ge => Level::Comparison,
    }
}

/// The level that a production requires of its left operand.
pub fn left_level(level: Level) -> Level
    ensures { grammar_level result ≡ left_level (grammar_level level) }
{
    match level {
        Level::Or => Level::Or,
        Level::And => Level::And,
        Level::Comparison | Level::Sum => Level::Sum,
        Level::Product => Level::Product,
        Level::Whole | Level::Not | Level::Negation | Level::Primary => Level::Whole,
    }
}

/// The level that a production requires of its right operand.
pub fn right_level(level: Level) -> Level
    ensures { grammar_level result ≡ right_level (grammar_level level) }
{
    match level {
        Level::Or => Level::And,
        Level::And => Level::Not,
        Level::Comparison => Level::Sum,
        Level::Sum => Level::Product,
        Level::Product => Level::Negation,
        Level::Whole | Level::Not | Level::Negation | Level::Primary => Level::Whole,
    }
}
