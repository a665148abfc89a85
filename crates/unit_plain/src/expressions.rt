//! Expressions: copies, and their plain forms.
ghost use Rattle.std.specs.Prelude.{◌≡◌, IfOk};
ghost use Rattle.unit_tree.specs.Plain.{presence_name, plain_expression, presence_of, word_expression_of, zero_of};

use crate::copies::Copied;
use fixed_words::{Boxed, List, NoMemory, Ty};
use std::alloc::Global;
use unit_tree::{Expr, Name, UnOp};

/// The name of the port that is true where an event occurs: the event port's name followed by `?`.
pub(crate) fn presence_name(alloc: Global, name: &Name) -> Result<Name, NoMemory>
    ensures { IfOk result (λ presence. presence ≡ presence_name name.now) }
{
    let mut presence = name.copied(alloc)?;
    presence.push(b'?')?;
    Ok(presence)
}

/// A copy in a box.
#[cycle(copy)]
fn boxed_copy(alloc: Global, expr: &Expr) -> Result<Boxed<Expr>, NoMemory>
    ensures { IfOk result (λ copy. copy ≡ expr.now) }
{
    Boxed::new(alloc, copied_expression(alloc, expr)?)
}

/// A copy of an expression.
#[cycle(copy)]
pub(crate) fn copied_expression(alloc: Global, expr: &Expr) -> Result<Expr, NoMemory>
    ensures { IfOk result (λ copy. copy ≡ expr.now) }
{
    Ok(match expr {
        Expr::Number { word, decimals } => Expr::Number {
            word: *word,
            decimals: *decimals,
        },
        Expr::Truth(told) => Expr::Truth(*told),
        Expr::Var(name) => Expr::Var(name.copied(alloc)?),
        Expr::Time => Expr::Time,
        Expr::Step => Expr::Step,
        Expr::Unary { op, arg } => Expr::Unary {
            op: *op,
            arg: boxed_copy(alloc, arg.get())?,
        },
        Expr::Binary { op, left, right } => Expr::Binary {
            op: *op,
            left: boxed_copy(alloc, left.get())?,
            right: boxed_copy(alloc, right.get())?,
        },
        Expr::Clamp { value, low, high } => Expr::Clamp {
            value: boxed_copy(alloc, value.get())?,
            low: boxed_copy(alloc, low.get())?,
            high: boxed_copy(alloc, high.get())?,
        },
        Expr::Choose { cond, yes, no } => Expr::Choose {
            cond: boxed_copy(alloc, cond.get())?,
            yes: boxed_copy(alloc, yes.get())?,
            no: boxed_copy(alloc, no.get())?,
        },
        Expr::Absent => Expr::Absent,
        Expr::Present(name) => Expr::Present(name.copied(alloc)?),
    })
}

impl Copied for Expr {
    fn copied(&self, alloc: Global) -> Result<Expr, NoMemory> {
        copied_expression(alloc, self)
    }
}

/// The plain form in a box.
#[cycle(plain)]
fn boxed_plain(alloc: Global, expr: &Expr) -> Result<Boxed<Expr>, NoMemory>
    ensures { IfOk result (λ plain. plain ≡ plain_expression expr.now) }
{
    Boxed::new(alloc, plain_expression(alloc, expr)?)
}

/// The plain form of an expression: `present(u)` becomes the name `u?`.
#[cycle(plain)]
pub(crate) fn plain_expression(alloc: Global, expr: &Expr) -> Result<Expr, NoMemory>
    ensures { IfOk result (λ plain. plain ≡ plain_expression expr.now) }
{
    Ok(match expr {
        Expr::Unary { op, arg } => Expr::Unary {
            op: *op,
            arg: boxed_plain(alloc, arg.get())?,
        },
        Expr::Binary { op, left, right } => Expr::Binary {
            op: *op,
            left: boxed_plain(alloc, left.get())?,
            right: boxed_plain(alloc, right.get())?,
        },
        Expr::Clamp { value, low, high } => Expr::Clamp {
            value: boxed_plain(alloc, value.get())?,
            low: boxed_plain(alloc, low.get())?,
            high: boxed_plain(alloc, high.get())?,
        },
        Expr::Choose { cond, yes, no } => Expr::Choose {
            cond: boxed_plain(alloc, cond.get())?,
            yes: boxed_plain(alloc, yes.get())?,
            no: boxed_plain(alloc, no.get())?,
        },
        Expr::Present(name) => Expr::Var(presence_name(alloc, name)?),
        leaf => copied_expression(alloc, leaf)?,
    })
}

/// The plain expression of an event's presence, in a box.
#[cycle(presence)]
fn boxed_presence(alloc: Global, value: &Expr) -> Result<Boxed<Expr>, NoMemory>
    ensures { IfOk result (λ plain. plain ≡ plain_expression (presence_of value.now)) }
{
    Boxed::new(alloc, plain_presence(alloc, value)?)
}

/// The plain expression that is true where an event occurs, from an event output's expression: false for `absent`, and
/// true for every other choice.
#[cycle(presence)]
#[tactic(auto, using(language_laws::proofs::PlainLemmas::plain_laws))]
pub(crate) fn plain_presence(alloc: Global, value: &Expr) -> Result<Expr, NoMemory>
    ensures { IfOk result (λ plain. plain ≡ plain_expression (presence_of value.now)) }
{
    match value {
        Expr::Absent => Ok(Expr::Truth(false)),
        Expr::Choose { cond, yes, no } => Ok(Expr::Choose {
            cond: boxed_plain(alloc, cond.get())?,
            yes: boxed_presence(alloc, yes.get())?,
            no: boxed_presence(alloc, no.get())?,
        }),
        _ => Ok(Expr::Truth(true)),
    }
}

/// The zero of a type's kind.
#[tactic(auto, using(language_laws::proofs::PlainLemmas::plain_laws))]
fn zero(alloc: Global, ty: Ty) -> Result<Expr, NoMemory>
    ensures { IfOk result (λ plain. plain ≡ plain_expression (zero_of ty)) }
{
    Ok(match ty {
        Ty::Bool => Expr::Truth(false),
        Ty::Fixed(0) => Expr::Unary {
            op: UnOp::ToFix(0),
            arg: Boxed::new(
                alloc,
                Expr::Number {
                    word: 0,
                    decimals: 0,
                },
            )?,
        },
        Ty::Fixed(decimals) => Expr::Number { word: 0, decimals },
        _ => Expr::Number {
            word: 0,
            decimals: 0,
        },
    })
}

/// The plain expression of an event's word, in a box.
#[cycle(word)]
fn boxed_word(alloc: Global, ty: Ty, value: &Expr) -> Result<Boxed<Expr>, NoMemory>
    ensures { IfOk result (λ plain. plain ≡ plain_expression (word_expression_of ty value.now)) }
{
    Boxed::new(alloc, plain_word(alloc, ty, value)?)
}

/// The plain expression of an event's word, from an event output's expression, with the zero of the type's kind for
/// `absent`.
#[cycle(word)]
#[tactic(auto, using(language_laws::proofs::PlainLemmas::plain_laws))]
pub(crate) fn plain_word(alloc: Global, ty: Ty, value: &Expr) -> Result<Expr, NoMemory>
    ensures { IfOk result (λ plain. plain ≡ plain_expression (word_expression_of ty value.now)) }
{
    match value {
        Expr::Absent => zero(alloc, ty),
        Expr::Choose { cond, yes, no } => Ok(Expr::Choose {
            cond: boxed_plain(alloc, cond.get())?,
            yes: boxed_word(alloc, ty, yes.get())?,
            no: boxed_word(alloc, ty, no.get())?,
        }),
        other => plain_expression(alloc, other),
    }
}
