//! The two units of a generated system.
ghost use Rattle.std.specs.Prelude.{◌≡◌, [], ◌∷◌, codes, IfOk};
ghost use Rattle.cosim_gen.specs.Generated.{number, param_k, state_n, input_u, output_y, n_times, plus, in_thousand, source_next, mixer_next, unit_with, source_unit, mixer_unit};

use fixed_words::{Boxed, List, Literal, NoMemory, Ty};
use std::alloc::Global;
use unit_tree::{BinOp, Expr, Input, Line, Name, Output, Param, State, Unit};

/// A name by its bytes.
pub(crate) fn name(alloc: Global, text: &[u8]) -> Result<Name, NoMemory>
    ensures { IfOk result (λ name. name ≡ text.now) }
{
    List::from_slice(alloc, text)
}

/// A list of one item.
pub(crate) fn one<T: Drop>(alloc: Global, item: T) -> Result<List<T>, NoMemory>
    ensures { IfOk result (λ list. list ≡ item ∷ []) }
{
    let mut list = List::new(alloc);
    list.push(item)?;
    Ok(list)
}

/// A whole number as it is written in a text.
pub(crate) fn number(word: i64) -> Literal
    ensures { result ≡ Literal.Number word 0 }
{
    Literal::Number { word, decimals: 0 }
}

// ---- Expressions

fn binary(alloc: Global, op: BinOp, left: Expr, right: Expr) -> Result<Expr, NoMemory>
    ensures { IfOk result (λ whole. whole ≡ Expr.Binary op left right) }
{
    Ok(Expr::Binary {
        op,
        left: Boxed::new(alloc, left)?,
        right: Boxed::new(alloc, right)?,
    })
}

fn variable(alloc: Global, text: &[u8]) -> Result<Expr, NoMemory>
    ensures { IfOk result (λ whole. whole ≡ Expr.Var text.now) }
{
    Ok(Expr::Var(name(alloc, text)?))
}

/// `n * factor`
fn n_times(alloc: Global, factor: u32) -> Result<Expr, NoMemory>
    ensures { IfOk result (λ whole. whole ≡ n_times factor) }
{
    let factor = Expr::Number {
        word: i64::from(factor),
        decimals: 0,
    };
    binary(alloc, BinOp::Mul, variable(alloc, b"n")?, factor)
}

/// `sum + name`
fn plus(alloc: Global, sum: Expr, name: &[u8]) -> Result<Expr, NoMemory>
    ensures { IfOk result (λ whole. whole ≡ plus sum name.now) }
{
    let right = variable(alloc, name)?;
    binary(alloc, BinOp::Add, sum, right)
}

/// `sum mod 1000`
fn in_thousand(alloc: Global, sum: Expr) -> Result<Expr, NoMemory>
    ensures { IfOk result (λ whole. whole ≡ in_thousand sum) }
{
    let thousand = Expr::Number {
        word: 1_000,
        decimals: 0,
    };
    binary(alloc, BinOp::Mod, sum, thousand)
}

/// `(n * 5 + k) mod 1000`
fn source_next(alloc: Global) -> Result<Expr, NoMemory>
    ensures { IfOk result (λ whole. whole ≡ source_next) }
{
    let sum = plus(alloc, n_times(alloc, 5)?, b"k")?;
    in_thousand(alloc, sum)
}

/// `(n * 3 + u + k) mod 1000`
fn mixer_next(alloc: Global) -> Result<Expr, NoMemory>
    ensures { IfOk result (λ whole. whole ≡ mixer_next) }
{
    let with_input = plus(alloc, n_times(alloc, 3)?, b"u")?;
    let sum = plus(alloc, with_input, b"k")?;
    in_thousand(alloc, sum)
}

// ---- Declarations

/// `param k : Int64 = 1`
fn param_k(alloc: Global) -> Result<Param, NoMemory>
    ensures { IfOk result (λ param. param ≡ param_k) }
{
    Ok(Param {
        name: name(alloc, b"k")?,
        ty: Ty::Int64,
        start: number(1),
    })
}

/// `state n : Int64 = 0`
fn state_n(alloc: Global) -> Result<State, NoMemory>
    ensures { IfOk result (λ state. state ≡ state_n) }
{
    Ok(State {
        name: name(alloc, b"n")?,
        ty: Ty::Int64,
        start: number(0),
    })
}

/// `input u : Int64 = 0`
fn input_u(alloc: Global) -> Result<Input, NoMemory>
    ensures { IfOk result (λ input. input ≡ input_u) }
{
    Ok(Input {
        name: name(alloc, b"u")?,
        ty: Ty::Int64,
        start: number(0),
    })
}

/// `output y : Int64 = n`
fn output_y(alloc: Global) -> Result<Output, NoMemory>
    ensures { IfOk result (λ output. output ≡ output_y) }
{
    Ok(Output {
        name: name(alloc, b"y")?,
        ty: Ty::Int64,
        needs: List::new(alloc),
        value: variable(alloc, b"n")?,
    })
}

/// What both units declare before their inputs: the parameter `k` and the state `n`.
fn declarations(alloc: Global) -> Result<(List<Param>, List<State>), NoMemory>
    ensures { IfOk result (λ both. (both.0 ≡ param_k ∷ []) × (both.1 ≡ state_n ∷ [])) }
{
    let params = one(alloc, param_k(alloc)?)?;
    let states = one(alloc, state_n(alloc)?)?;
    Ok((params, states))
}

/// The step line `n := next`.
fn step(alloc: Global, next: Expr) -> Result<List<Line>, NoMemory>
    ensures { IfOk result (λ step. step ≡ Line.Assign (codes "n") next ∷ []) }
{
    let line = Line::Assign {
        target: name(alloc, b"n")?,
        value: next,
    };
    one(alloc, line)
}

// ---- Units

/// A unit with the parameter `k`, the state `n`, the output `y`, and the step line `n := next`.
fn unit_with(alloc: Global, name: Name, inputs: List<Input>, next: Expr) -> Result<Unit, NoMemory>
    ensures { IfOk result (λ unit. unit ≡ unit_with name inputs next) }
{
    let step = step(alloc, next)?;
    let (params, states) = declarations(alloc)?;
    let outputs = one(alloc, output_y(alloc)?)?;
    Ok(Unit {
        name,
        resolution: None,
        params,
        states,
        locals: List::new(alloc),
        inputs,
        events_in: List::new(alloc),
        outputs,
        events_out: List::new(alloc),
        max: None,
        step: Some(step),
    })
}

/// The unit of the first component, which has no input.
pub(crate) fn source_unit(alloc: Global) -> Result<Unit, NoMemory>
    ensures { IfOk result (λ unit. unit ≡ source_unit) }
{
    let next = source_next(alloc)?;
    unit_with(alloc, name(alloc, b"src")?, List::new(alloc), next)
}

/// The unit of all other components.
pub(crate) fn mixer_unit(alloc: Global) -> Result<Unit, NoMemory>
    ensures { IfOk result (λ unit. unit ≡ mixer_unit) }
{
    let next = mixer_next(alloc)?;
    let inputs = one(alloc, input_u(alloc)?)?;
    unit_with(alloc, name(alloc, b"mix")?, inputs, next)
}
