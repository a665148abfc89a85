//! Expressions and step lines, evaluated as they are defined. The code is small and slow; faster code is
//! compared with it.
ghost use Rattle.std.specs.Prelude.{◌≡◌, ◌≤◌, ◌<◌, length, IsTrue, IfOk};
ghost use Rattle.unit_tree.specs.Values.{as_kind, kind_of_number, truth as truth_value, holds, value_of, value_of_name, with_decimals, whole_part, product_of, ratio_of, unary_value, binary_value, clamped_value, IsKind, IsUnary, is_ranged, AreTyped, IsSound};

use crate::environment::{Environment, Value, Variable};
use crate::expr::{BinOp, Expr, UnOp};
use fixed_words::{
    Fault, Kind, Ty, abs, add, div, fix_div, fix_mul, mul, neg, rem, scale_down, scale_up, sub,
};

/// The kind of a number that is written with this many decimals.
pub fn kind_of_number(decimals: u8) -> Kind
    ensures { result ≡ kind_of_number decimals }
{
    if decimals == 0 {
        Kind::Int
    } else {
        Kind::Fixed(decimals)
    }
}

fn truth(told: bool) -> Value
    ensures { result ≡ truth_value told }
{
    let word = if told { 1 } else { 0 };
    Value {
        kind: Kind::Bool,
        word,
    }
}

pub(crate) fn is_true(value: Value) -> bool
    ensures { result ≡ holds value }
{
    value.word != 0
}

fn of_kind(kind: Kind, word: Result<i64, Fault>) -> Result<Value, Fault>
    ensures { result ≡ as_kind kind word }
{
    Ok(Value { kind, word: word? })
}

/// The value of a name: that of the first variable with this name.
fn named(variables: &[Variable], words: &[i64], name: &[u8]) -> Value
    requires typed { AreTyped variables.now }
    requires one_each { length words.now ≡ length variables.now }
    ensures value { result ≡ value_of_name variables.now words.now name.now }
    ensures kind { IsKind result.kind }
{
    for (place, variable) in variables.iter().enumerate() {
        if variable.name.as_slice() == name {
            return Value {
                kind: variable.ty.kind(),
                word: words[place],
            };
        }
    }
    Value {
        kind: Kind::Int,
        word: 0,
    }
}

/// The word of the kind, converted to this many decimals.
fn rescaled(decimals: u8, kind: Kind, word: i64) -> Result<i64, Fault>
    requires to { decimals ≤ 9 }
    requires from { IsKind kind }
    ensures { result ≡ with_decimals decimals kind word }
{
    match kind {
        Kind::Fixed(had) if had <= decimals => scale_up(word, decimals - had),
        Kind::Fixed(had) => scale_down(word, had - decimals),
        _ => scale_up(word, decimals),
    }
}

/// The whole part of a word of the kind.
fn whole(kind: Kind, word: i64) -> Result<i64, Fault>
    requires { IsKind kind }
    ensures { result ≡ whole_part kind word }
{
    match kind {
        Kind::Fixed(decimals) => scale_down(word, decimals),
        _ => Ok(word),
    }
}

fn unary(op: UnOp, x: Value) -> Result<Value, Fault>
    requires op_is { IsUnary op }
    requires value_is { IsKind x.kind }
    ensures value { result ≡ unary_value op x }
    ensures kind { IfOk result (λ y. IsKind y.kind) }
{
    match op {
        UnOp::Neg => of_kind(x.kind, neg(x.word)),
        UnOp::Not => Ok(truth(!is_true(x))),
        UnOp::Abs => of_kind(x.kind, abs(x.word)),
        UnOp::ToInt => of_kind(Kind::Int, whole(x.kind, x.word)),
        UnOp::ToFix(decimals) => {
            of_kind(Kind::Fixed(decimals), rescaled(decimals, x.kind, x.word))
        }
    }
}

/// `*`, which has another meaning for fixed-point operands.
fn times(kind: Kind, x: i64, y: i64) -> Result<i64, Fault>
    requires { IsKind kind }
    ensures { result ≡ product_of kind x y }
{
    match kind {
        Kind::Fixed(decimals) => fix_mul(x, y, decimals),
        _ => mul(x, y),
    }
}

/// `/`, which is for fixed-point operands.
fn ratio(kind: Kind, x: i64, y: i64) -> Result<i64, Fault>
    requires { IsKind kind }
    ensures { result ≡ ratio_of kind x y }
{
    match kind {
        Kind::Fixed(decimals) => fix_div(x, y, decimals),
        _ => div(x, y),
    }
}

fn binary(op: BinOp, x: Value, y: Value) -> Result<Value, Fault>
    requires { IsKind x.kind }
    ensures value { result ≡ binary_value op x y }
    ensures kind { IfOk result (λ z. IsKind z.kind) }
{
    match op {
        BinOp::Add => of_kind(x.kind, add(x.word, y.word)),
        BinOp::Sub => of_kind(x.kind, sub(x.word, y.word)),
        BinOp::Mul => of_kind(x.kind, times(x.kind, x.word, y.word)),
        BinOp::Slash => of_kind(x.kind, ratio(x.kind, x.word, y.word)),
        BinOp::Div => of_kind(x.kind, div(x.word, y.word)),
        BinOp::Mod => of_kind(x.kind, rem(x.word, y.word)),
        BinOp::Eq => Ok(truth(x.word == y.word)),
        BinOp::Ne => Ok(truth(x.word != y.word)),
        BinOp::Lt => Ok(truth(x.word < y.word)),
        BinOp::Le => Ok(truth(x.word <= y.word)),
        BinOp::Gt => Ok(truth(x.word > y.word)),
        BinOp::Ge => Ok(truth(x.word >= y.word)),
        BinOp::And => Ok(truth(is_true(x) && is_true(y))),
        BinOp::Or => Ok(truth(is_true(x) || is_true(y))),
        BinOp::Min => of_kind(x.kind, Ok(x.word.min(y.word))),
        BinOp::Max => of_kind(x.kind, Ok(x.word.max(y.word))),
    }
}

/// `clamp`: a value limited by two bounds, or the first fault of the three operands.
fn clamp(
    x: Result<Value, Fault>,
    low: Result<Value, Fault>,
    high: Result<Value, Fault>,
) -> Result<Value, Fault>
    requires { IfOk x (λ v. IsKind v.kind) }
    ensures value { result ≡ clamped_value x low high }
    ensures kind { IfOk result (λ v. IsKind v.kind) }
{
    let x = x?;
    let low = low?;
    let high = high?;
    Ok(Value {
        kind: x.kind,
        word: low.word.max(x.word.min(high.word)),
    })
}

/// The value of an expression in an environment. Operands are evaluated from left to right, and the first
/// fault is the result.
pub fn value(expr: &Expr, env: &Environment) -> Result<Value, Fault>
    requires ranged { IsTrue (is_ranged expr.now) }
    requires sound { IsSound env.now }
    ensures value { result ≡ value_of expr.now env.now }
    ensures kind { IfOk result (λ x. IsKind x.kind) }
{
    match expr {
        Expr::Number { word, decimals } => Ok(Value {
            kind: kind_of_number(*decimals),
            word: *word,
        }),
        Expr::Truth(told) => Ok(truth(*told)),
        Expr::Var(name) => Ok(named(
            env.variables.as_slice(),
            env.words.as_slice(),
            name.as_slice(),
        )),
        Expr::Time => Ok(Value {
            kind: Kind::Int,
            word: env.time as i64,
        }),
        Expr::Step => Ok(Value {
            kind: Kind::Int,
            word: env.step as i64,
        }),
        Expr::Unary { op, arg } => unary(*op, value(arg.get(), env)?),
        Expr::Binary { op, left, right } => {
            let x = value(left.get(), env)?;
            let y = value(right.get(), env)?;
            binary(*op, x, y)
        }
        Expr::Clamp {
            value: inner,
            low,
            high,
        } => {
            let high = value(high.get(), env);
            let low = value(low.get(), env);
            clamp(value(inner.get(), env), low, high)
        }
        Expr::Choose { cond, yes, no } => {
            if is_true(value(cond.get(), env)?) {
                value(yes.get(), env)
            } else {
                value(no.get(), env)
            }
        }
        Expr::Absent => Ok(Value {
            kind: Kind::Int,
            word: 0,
        }),
        Expr::Present(_) => Ok(truth(false)),
    }
}
