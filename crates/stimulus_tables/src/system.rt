//! The system of a table, made as a tree.
ghost use Rattle.std.specs.Prelude.{◌≡◌, ◌≤◌, ◌^◌, ◌∷◌, [], unsigned_abs, pos, map, IfOk};
ghost use Rattle.std.specs.List.{AllByRecursion};
ghost use Rattle.stimulus_tables.specs.TableSystems.{is_before, is_reached, last_time, max_of_moments, number, outputs_from, sets_from, states_from, step_of_moments, table_instance, table_system, table_unit, takes, to_next, until};
ghost use Rattle.stimulus_tables.specs.Tables.{IsWritable, state_name};

use crate::moment::Moment;
use fixed_words::{Boxed, List, Literal, NoMemory, Ty};
use itoa::Buffer;
use std::alloc::Global;
use unit_tree::{BinOp, Expr, Instance, Line, Name, Output, State, System, UnOp, Unit};

// ---- Expressions

/// Returns a number from 0 up as an expression.
fn natural(number: u64) -> Expr
    requires { number ≤ 10 ^ 15 }
    ensures { result ≡ Expr.Number (pos number) 0 }
{
    Expr::Number {
        word: number as i64,
        decimals: 0,
    }
}

/// Returns a word as an expression.
fn number(alloc: Global, word: i64) -> Result<Expr, NoMemory>
    requires { unsigned_abs word ≤ 10 ^ 15 }
    ensures { IfOk result (λ whole. whole ≡ number word) }
{
    if word.is_negative() {
        Ok(Expr::Unary {
            op: UnOp::Neg,
            arg: Boxed::new(alloc, natural(word.unsigned_abs()))?,
        })
    } else {
        Ok(Expr::Number { word, decimals: 0 })
    }
}

fn binary(alloc: Global, op: BinOp, left: Expr, right: Expr) -> Result<Expr, NoMemory>
    ensures { IfOk result (λ whole. whole ≡ Expr.Binary op left right) }
{
    Ok(Expr::Binary {
        op,
        left: Boxed::new(alloc, left)?,
        right: Boxed::new(alloc, right)?,
    })
}

/// `T - t`
fn until(alloc: Global, time: u64) -> Result<Expr, NoMemory>
    requires { time ≤ 10 ^ 9 }
    ensures { IfOk result (λ whole. whole ≡ until time) }
{
    binary(alloc, BinOp::Sub, natural(time), Expr::Time)
}

/// `t < T`
fn is_before(alloc: Global, time: u64) -> Result<Expr, NoMemory>
    requires { time ≤ 10 ^ 9 }
    ensures { IfOk result (λ whole. whole ≡ is_before time) }
{
    binary(alloc, BinOp::Lt, Expr::Time, natural(time))
}

/// `t + h >= T`
fn is_reached(alloc: Global, time: u64) -> Result<Expr, NoMemory>
    requires { time ≤ 10 ^ 9 }
    ensures { IfOk result (λ whole. whole ≡ is_reached time) }
{
    let ahead = binary(alloc, BinOp::Add, Expr::Time, Expr::Step)?;
    binary(alloc, BinOp::Ge, ahead, natural(time))
}

/// `if t < T then T - t else ..`, and at the last time `T - t`.
fn to_next(alloc: Global, time: u64, later: &[Moment]) -> Result<Expr, NoMemory>
    requires time { time ≤ 10 ^ 9 }
    requires later { AllByRecursion IsWritable later.now }
    ensures { IfOk result (λ whole. whole ≡ to_next time later.now) }
{
    match later {
        [] => until(alloc, time),
        [next, later @ ..] => {
            let rest = to_next(alloc, next.time, later)?;
            Ok(Expr::Choose {
                cond: Boxed::new(alloc, is_before(alloc, time)?)?,
                yes: Boxed::new(alloc, until(alloc, time)?)?,
                no: Boxed::new(alloc, rest)?,
            })
        }
    }
}

// ---- Step lines

/// `sK`
fn state_name(alloc: Global, number: usize) -> Result<Name, NoMemory>
    ensures { IfOk result (λ name. name ≡ state_name number) }
{
    let mut digits = Buffer::new();
    let mut text = Vec::from_slice(alloc, b"s")?;
    text.extend_from_slice(digits.format(number).as_bytes())?;
    Ok(List::from_vec(text))
}

/// `sK := word`, for each word.
fn sets(alloc: Global, words: &[i64]) -> Result<List<Line>, NoMemory>
    requires { AllByRecursion (λ word. unsigned_abs word ≤ 10 ^ 15) words.now }
    ensures { IfOk result (λ lines. lines ≡ sets_from 0 words.now) }
{
    let mut lines = List::new(alloc);
    for (place, word) in words.iter().enumerate() {
        lines.push(Line::Assign {
            target: state_name(alloc, place)?,
            value: number(alloc, *word)?,
        })?;
    }
    Ok(lines)
}

/// `if t + h >= T`, with its lines.
fn takes(alloc: Global, moment: &Moment) -> Result<Line, NoMemory>
    requires { IsWritable moment.now }
    ensures { IfOk result (λ line. line ≡ takes moment.now) }
{
    let yes = sets(alloc, moment.words.as_slice())?;
    Ok(Line::If {
        cond: is_reached(alloc, moment.time)?,
        yes,
        no: None,
    })
}

/// The lines of a step, for each of the moments.
fn step_lines(alloc: Global, moments: &[Moment]) -> Result<List<Line>, NoMemory>
    requires { AllByRecursion IsWritable moments.now }
    ensures { IfOk result (λ lines. lines ≡ map takes moments.now) }
{
    let mut lines = List::new(alloc);
    for moment in moments {
        lines.push(takes(alloc, moment)?)?;
    }
    Ok(lines)
}

// ---- The unit

/// `state sK : Int64 = word`, for each word.
fn states(alloc: Global, words: &[i64]) -> Result<List<State>, NoMemory>
    ensures { IfOk result (λ states. states ≡ states_from 0 words.now) }
{
    let mut states = List::new(alloc);
    for (place, word) in words.iter().enumerate() {
        states.push(State {
            name: state_name(alloc, place)?,
            ty: Ty::Int64,
            start: Literal::Number {
                word: *word,
                decimals: 0,
            },
        })?;
    }
    Ok(states)
}

/// `output name : Int64 = sK`, for each name.
fn outputs(alloc: Global, names: &[Name]) -> Result<List<Output>, NoMemory>
    ensures { IfOk result (λ outputs. outputs ≡ outputs_from 0 names.now) }
{
    let mut outputs = List::new(alloc);
    for (place, name) in names.iter().enumerate() {
        outputs.push(Output {
            name: List::from_slice(alloc, name.as_slice())?,
            ty: Ty::Int64,
            needs: List::new(alloc),
            value: Expr::Var(state_name(alloc, place)?),
        })?;
    }
    Ok(outputs)
}

/// Returns the `max`, which leads from one moment to the next, where there is a later one.
fn max(alloc: Global, later: &[Moment]) -> Result<Option<Expr>, NoMemory>
    requires { AllByRecursion IsWritable later.now }
    ensures { IfOk result (λ max. max ≡ max_of_moments later.now) }
{
    match later {
        [] => Ok(None),
        [next, later @ ..] => Ok(Some(to_next(alloc, next.time, later)?)),
    }
}

/// Returns the step, where there is a moment after the first.
fn step(alloc: Global, later: &[Moment]) -> Result<Option<List<Line>>, NoMemory>
    requires { AllByRecursion IsWritable later.now }
    ensures { IfOk result (λ step. step ≡ step_of_moments later.now) }
{
    if later.is_empty() {
        return Ok(None);
    }
    Ok(Some(step_lines(alloc, later)?))
}

/// Returns the unit of a table.
fn unit(alloc: Global, names: &[Name], first: &Moment, later: &[Moment]) -> Result<Unit, NoMemory>
    requires { AllByRecursion IsWritable later.now }
    ensures { IfOk result (λ unit. unit ≡ table_unit names.now first.now later.now) }
{
    let states = states(alloc, first.words.as_slice())?;
    let outputs = outputs(alloc, names)?;
    let max = max(alloc, later)?;
    let step = step(alloc, later)?;
    Ok(Unit {
        name: List::from_slice(alloc, b"Table")?,
        resolution: None,
        params: List::new(alloc),
        states,
        locals: List::new(alloc),
        inputs: List::new(alloc),
        events_in: List::new(alloc),
        outputs,
        events_out: List::new(alloc),
        max,
        step,
    })
}

// ---- The system

/// `instance table : Table`
fn instance(alloc: Global) -> Result<Instance, NoMemory>
    ensures { IfOk result (λ instance. instance ≡ table_instance) }
{
    Ok(Instance {
        name: List::from_slice(alloc, b"table")?,
        unit: List::from_slice(alloc, b"Table")?,
        settings: List::new(alloc),
    })
}

/// Returns a list of one item.
fn one<T: Drop>(alloc: Global, item: T) -> Result<List<T>, NoMemory>
    ensures { IfOk result (λ list. list ≡ item ∷ []) }
{
    let mut list = List::new(alloc);
    list.push(item)?;
    Ok(list)
}

/// Returns a number of seconds.
fn seconds(time: u64) -> Literal
    requires { time ≤ 10 ^ 9 }
    ensures { result ≡ Literal.Number (pos time) 0 }
{
    Literal::Number {
        word: time as i64,
        decimals: 0,
    }
}

/// Returns the last time of a table.
fn last_time(first: &Moment, later: &[Moment]) -> u64
    requires { AllByRecursion IsWritable (first.now ∷ later.now) }
    ensures value { result ≡ last_time first.now later.now }
    ensures small { result ≤ 10 ^ 9 }
{
    match later {
        [] => first.time,
        [next, later @ ..] => last_time(next, later),
    }
}

/// Returns the system of a table: a component with an output for each name, which has the words of each moment from its time on.
pub(crate) fn table_system(
    alloc: Global,
    names: &[Name],
    first: &Moment,
    later: &[Moment],
) -> Result<System, NoMemory>
    requires { AllByRecursion IsWritable (first.now ∷ later.now) }
    ensures { IfOk result (λ system. system ≡ table_system names.now first.now later.now) }
{
    let stop = last_time(first, later);
    let unit = unit(alloc, names, first, later)?;
    let instance = instance(alloc)?;
    Ok(System {
        version: 1,
        units: one(alloc, unit)?,
        instances: one(alloc, instance)?,
        wires: List::new(alloc),
        stop: Some(seconds(stop)),
        longest: None,
        zero: None,
        rows: None,
        samples: List::new(alloc),
    })
}
