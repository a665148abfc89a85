//! Proofs that no length in a fact is above the greatest word. The result of a `max` is a word where its numbers are words. These are, by
//! the type of each number of the tree.
ghost use Rattle.std.specs.List.{AllByRecursion};
ghost use Rattle.std.specs.Prelude.{◌≡◌, true};
ghost use Rattle.fixed_words.specs.Types.{is_word_of};
ghost use Rattle.fixed_words.specs.declared.types.Ty.TheVariants.{Int64};
ghost use Rattle.link_laws.specs.Lengths.{AreOfWords, LimitHasWords, has_words};

use trace_plan::Plan;
use unit_tree::{Expr, Unit};

/// States that a word has 64 bits.
fn read_word(word: i64)
    ensures { is_word_of Int64 word ≡ true }
{
    let _ = word;
}

/// States that the numbers of an expression are words.
fn read_numbers(value: &Expr)
    ensures { has_words value.now ≡ true }
{
    match value {
        Expr::Number { word, .. } => read_word(*word),
        Expr::Unary { arg, .. } => read_numbers(arg.get()),
        Expr::Binary { left, right, .. } => {
            read_numbers(left.get());
            read_numbers(right.get());
        }
        Expr::Clamp { value, low, high } => {
            read_numbers(value.get());
            read_numbers(low.get());
            read_numbers(high.get());
        }
        Expr::Choose { cond, yes, no } => {
            read_numbers(cond.get());
            read_numbers(yes.get());
            read_numbers(no.get());
        }
        Expr::Truth(_) | Expr::Var(_) | Expr::Time | Expr::Step | Expr::Absent | Expr::Present(_) =>
            {}
    }
}

/// States that the numbers of each unit's `max` are words.
fn read_limits(units: &[Unit])
    ensures { AllByRecursion LimitHasWords units.now }
{
    let [unit, others @ ..] = units else {
        return;
    };
    if let Some(limit) = &unit.max {
        read_numbers(limit);
    }
    read_limits(others);
}

/// States that the numbers of a plan are words: those of each `max`, and the words of parameters.
pub(crate) fn read_plan(plan: &Plan)
    ensures { AreOfWords plan.now.run }
{
    read_limits(plan.checked().system().units.as_slice());
}
