//! Step lines, run as their effect is defined.
ghost use Rattle.std.specs.Prelude.{◌≡◌, ◌<◌, length, Ok, Err, IsTrue, IfErr, OnOk};
ghost use Rattle.unit_tree.specs.Values.{IsSound};
ghost use Rattle.unit_tree.specs.Effects.{stored, assigned, accepting, effect_of, effect_of_lines, times, line_is_ranged, lines_are_ranged, Runs};

use crate::environment::{Environment, Variable};
use crate::evaluate::{is_true, value};
use crate::line::Line;
use fixed_words::{Fault, List, fits};

/// Stores a word in the first variable of the name. [`Fault::Range`] where it is not a word of the
/// variable's type.
fn store(variables: &[Variable], words: &mut List<i64>, name: &[u8], word: i64) -> Result<(), Fault>
    requires { length words.old ≡ length variables.now }
    ensures ok { OnOk result (stored variables.now words.old name.now word ≡ Ok words.new) }
    ensures err { IfErr result (λ fault. stored variables.now words.old name.now word ≡ Err fault) }
    ensures one_each { length words.new ≡ length words.old }
{
    for (place, variable) in variables.iter().enumerate() {
        if variable.name.as_slice() == name {
            if !fits(variable.ty, word) {
                return Err(Fault::Range);
            }
            words.set(place, word);
            return Ok(());
        }
    }
    Ok(())
}

/// `target := word`
fn assign(env: &mut Environment, name: &[u8], word: i64) -> Result<(), Fault>
    requires { IsSound env.old }
    ensures runs { Runs (assigned name.now word) env.old result env.new }
{
    store(env.variables.as_slice(), &mut env.words, name, word)
}

/// `accept word`
fn accept(env: &mut Environment, word: i64) -> Result<(), Fault>
    requires { IsSound env.old }
    ensures runs { Runs (accepting word) env.old result env.new }
{
    match u64::try_from(word) {
        Ok(accepted) if accepted <= env.step => {
            env.accepted = accepted;
            Ok(())
        }
        _ => Err(Fault::Accept),
    }
}

/// Runs one line. After a fault the environment must not be used.
#[cycle(run)]
fn run_line(line: &Line, env: &mut Environment) -> Result<(), Fault>
    requires ranged { IsTrue (line_is_ranged line.now) }
    requires sound { IsSound env.old }
    ensures runs { Runs (effect_of line.now) env.old result env.new }
{
    match line {
        Line::Assign {
            target,
            value: expr,
        } => {
            let x = value(expr, env)?;
            assign(env, target.as_slice(), x.word)
        }
        Line::If { cond, yes, no } => {
            if is_true(value(cond, env)?) {
                run_lines(yes.as_slice(), env)
            } else if let Some(no) = no {
                run_lines(no.as_slice(), env)
            } else {
                Ok(())
            }
        }
        Line::Repeat { count, body } => repeat(*count, body.as_slice(), env),
        Line::Accept { value: expr } => {
            let x = value(expr, env)?;
            accept(env, x.word)
        }
    }
}

/// Runs lines `count` times.
#[cycle(run)]
#[tactic(auto, using(crate::proofs::EffectLemmas::times_next))]
fn repeat(count: u32, body: &[Line], env: &mut Environment) -> Result<(), Fault>
    requires ranged { IsTrue (lines_are_ranged body.now) }
    requires sound { IsSound env.old }
    ensures runs { Runs (times count (effect_of_lines body.now)) env.old result env.new }
{
    for _ in 0..count {
        run_lines(body, env)?;
    }
    Ok(())
}

/// Runs lines in their order. After a fault the environment must not be used.
#[cycle(run)]
pub fn run_lines(lines: &[Line], env: &mut Environment) -> Result<(), Fault>
    requires ranged { IsTrue (lines_are_ranged lines.now) }
    requires sound { IsSound env.old }
    ensures runs { Runs (effect_of_lines lines.now) env.old result env.new }
{
    for line in lines {
        run_line(line, env)?;
    }
    Ok(())
}
