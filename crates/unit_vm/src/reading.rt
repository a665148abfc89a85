ghost use Rattle.std.specs.Prelude.{◌≡◌, ◌+◌, ◌-◌, ◌<◌, ◌≤◌, ◌^◌, length, get_or, IfOk};
ghost use Rattle.unit_vm.specs.Reading.{small, type_at, instruction_in, code_in, code_between, number_at, outputs_of, has_limit, output_place, outputs_in, limit_in, program_in};

use crate::instruction::Instruction;
use crate::program::{Program, Sizes};
use fixed_words::{List, NoMemory, Ty};
use model_rules::MOST_OUTPUTS;
use std::alloc::Global;

/// Returns a word as a small number, or 0 where it is not one.
fn small(word: i64) -> u32
    ensures { result ≡ small word }
{
    if 0 <= word && word <= 4_294_967_295 {
        word.unsigned_abs() as u32
    } else {
        0
    }
}

/// Returns the type with this number.
fn type_at(number: u32) -> Ty
    ensures { result ≡ type_at number }
{
    let types = [
        Ty::Int8,
        Ty::UInt8,
        Ty::Int16,
        Ty::UInt16,
        Ty::Int32,
        Ty::UInt32,
        Ty::Int64,
        Ty::Bool,
        Ty::Fixed(0),
        Ty::Fixed(1),
        Ty::Fixed(2),
        Ty::Fixed(3),
        Ty::Fixed(4),
        Ty::Fixed(5),
        Ty::Fixed(6),
        Ty::Fixed(7),
        Ty::Fixed(8),
        Ty::Fixed(9),
    ];
    types.get(number as usize).copied().unwrap_or(Ty::Int8)
}

/// Returns the instruction that two words encode.
fn instruction_in(operation: i64, argument: i64) -> Instruction
    ensures { result ≡ instruction_in operation argument }
{
    let number = small(argument);
    let ty = type_at(number % 32);
    let decimals = (number % 256) as u8;
    let instructions = [
        Instruction::Push(argument),
        Instruction::Load(number),
        Instruction::Store {
            slot: number / 32,
            ty,
        },
        Instruction::Add,
        Instruction::Subtract,
        Instruction::Multiply,
        Instruction::Divide,
        Instruction::Remainder,
        Instruction::Negate,
        Instruction::Magnitude,
        Instruction::Min,
        Instruction::Max,
        Instruction::Clamp,
        Instruction::Equal,
        Instruction::NotEqual,
        Instruction::Less,
        Instruction::LessOrEqual,
        Instruction::Greater,
        Instruction::GreaterOrEqual,
        Instruction::And,
        Instruction::Or,
        Instruction::Not,
        Instruction::FixedMultiply(decimals),
        Instruction::FixedDivide(decimals),
        Instruction::ScaleUp(decimals),
        Instruction::ScaleDown(decimals),
        Instruction::Jump(number),
        Instruction::JumpFalse(number),
        Instruction::Loop(number),
        Instruction::Next(number),
        Instruction::Accept,
        Instruction::Give(ty),
        Instruction::Limit,
        Instruction::Done,
    ];
    instructions
        .get(small(operation) as usize)
        .copied()
        .unwrap_or(Instruction::Done)
}

/// Returns words as instructions, two words each.
fn code_in(alloc: Global, words: &[i64]) -> Result<List<Instruction>, NoMemory>
    ensures { IfOk result (λ code. code ≡ code_in words.now) }
{
    let mut code = List::new(alloc);
    for pair in 0..words.len() / 2 {
        code.push(instruction_in(words[2 * pair], words[2 * pair + 1]))?;
    }
    Ok(code)
}

/// Returns the words between two places, as instructions.
fn code_between(
    alloc: Global,
    words: &[i64],
    from: usize,
    to: usize,
) -> Result<List<Instruction>, NoMemory>
    ensures { IfOk result (λ code. code ≡ code_between words.now from to) }
{
    let end = to.min(words.len());
    let begin = from.min(end);
    code_in(alloc, &words[begin..end])
}

fn number_at(words: &[i64], place: usize) -> u32
    ensures { result ≡ number_at words.now place }
{
    small(words.get(place).copied().unwrap_or(0))
}

fn has_limit(words: &[i64]) -> bool
    ensures { result ≡ has_limit words.now }
{
    words.get(4).copied().unwrap_or(0) != 0
}

fn outputs_of(words: &[i64]) -> usize
    ensures number { result ≡ outputs_of words.now }
    ensures few { result ≤ 32 }
{
    number_at(words, 0).min(MOST_OUTPUTS as u32) as usize
}

/// Returns the place of an output's part; for the number of outputs, the place after the last part.
fn output_place(words: &[i64], output: usize) -> usize
    requires { output ≤ 32 }
    ensures { result ≡ output_place words.now output }
{
    let outputs = outputs_of(words);
    if output < outputs {
        number_at(words, 5 + output) as usize
    } else if has_limit(words) {
        number_at(words, 5 + outputs) as usize
    } else {
        number_at(words, 6 + outputs) as usize
    }
}

fn outputs_in(alloc: Global, words: &[i64]) -> Result<List<List<Instruction>>, NoMemory>
    ensures { IfOk result (λ outputs. outputs ≡ outputs_in words.now 0 (outputs_of words.now)) }
{
    let mut outputs = List::new(alloc);
    for output in 0..outputs_of(words) {
        let code = code_between(
            alloc,
            words,
            output_place(words, output),
            output_place(words, output + 1),
        )?;
        outputs.push(code)?;
    }
    Ok(outputs)
}

fn limit_in(alloc: Global, words: &[i64]) -> Result<Option<List<Instruction>>, NoMemory>
    ensures { IfOk result (λ limit. limit ≡ limit_in words.now) }
{
    if !has_limit(words) {
        return Ok(None);
    }
    let outputs = outputs_of(words);
    let code = code_between(
        alloc,
        words,
        number_at(words, 5 + outputs) as usize,
        number_at(words, 6 + outputs) as usize,
    )?;
    Ok(Some(code))
}

/// Returns the program that words are read as. Any words are read as some program. Words are refused where this program
/// encodes as other words, or is not valid.
pub(crate) fn program_in(alloc: Global, words: &[i64]) -> Result<Program, NoMemory>
    ensures { IfOk result (λ program. program ≡ program_in words.now) }
{
    let sizes = Sizes {
        states: number_at(words, 1),
        inputs: number_at(words, 2),
        locals: number_at(words, 3),
    };
    let outputs = outputs_in(alloc, words)?;
    let limit = limit_in(alloc, words)?;
    let step = code_between(
        alloc,
        words,
        number_at(words, 6 + outputs_of(words)) as usize,
        words.len(),
    )?;
    Ok(Program {
        sizes,
        outputs,
        limit,
        step,
    })
}
