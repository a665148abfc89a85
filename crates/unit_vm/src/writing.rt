ghost use Rattle.std.specs.Prelude.{◌≡◌, ℕ, ◌+◌, ◌*◌, ◌≤◌, ◌++◌, length, slice_get, Some, IfOk, OnOk};
ghost use Rattle.unit_vm.specs.declared.instruction.Instruction.{Instruction};
ghost use Rattle.unit_vm.specs.Instructions.{number_of, operation_of, argument_of, written};
ghost use Rattle.unit_vm.specs.Programs.{joined, code_of_limit, places_from, place_behind, table_of, program_words, IsShort, AreShort};

use crate::instruction::Instruction;
use crate::program::Program;
use fixed_words::{List, NoMemory, Ty};
use std::alloc::Global;

/// Returns the number of a type: 0 to 7, and from 8 on fixed point, by its decimals.
fn number_of(ty: Ty) -> u32
    ensures { result ≡ number_of ty }
{
    match ty {
        Ty::Int8 => 0,
        Ty::UInt8 => 1,
        Ty::Int16 => 2,
        Ty::UInt16 => 3,
        Ty::Int32 => 4,
        Ty::UInt32 => 5,
        Ty::Int64 => 6,
        Ty::Bool => 7,
        Ty::Fixed(decimals) => 8 + u32::from(decimals),
    }
}

impl Instruction {
    /// Returns its number in the table of operations, which is the first of its two words.
    pub fn operation(self) -> u8
        ensures { result ≡ operation_of self }
    {
        match self {
            Instruction::Push(_) => 0,
            Instruction::Load(_) => 1,
            Instruction::Store { .. } => 2,
            Instruction::Add => 3,
            Instruction::Subtract => 4,
            Instruction::Multiply => 5,
            Instruction::Divide => 6,
            Instruction::Remainder => 7,
            Instruction::Negate => 8,
            Instruction::Magnitude => 9,
            Instruction::Min => 10,
            Instruction::Max => 11,
            Instruction::Clamp => 12,
            Instruction::Equal => 13,
            Instruction::NotEqual => 14,
            Instruction::Less => 15,
            Instruction::LessOrEqual => 16,
            Instruction::Greater => 17,
            Instruction::GreaterOrEqual => 18,
            Instruction::And => 19,
            Instruction::Or => 20,
            Instruction::Not => 21,
            Instruction::FixedMultiply(_) => 22,
            Instruction::FixedDivide(_) => 23,
            Instruction::ScaleUp(_) => 24,
            Instruction::ScaleDown(_) => 25,
            Instruction::Jump(_) => 26,
            Instruction::JumpFalse(_) => 27,
            Instruction::Loop(_) => 28,
            Instruction::Next(_) => 29,
            Instruction::Accept => 30,
            Instruction::Give(_) => 31,
            Instruction::Limit => 32,
            Instruction::Done => 33,
        }
    }

    /// Returns its argument, which is the second of its two words, or 0 where it has none.
    pub fn argument(self) -> i64
        ensures { result ≡ argument_of self }
    {
        match self {
            Instruction::Push(word) => word,
            Instruction::Store { slot, ty } => 32 * i64::from(slot) + i64::from(number_of(ty)),
            Instruction::FixedMultiply(decimals) | Instruction::FixedDivide(decimals) => i64::from(
                decimals,
            ),
            Instruction::ScaleUp(decimals) | Instruction::ScaleDown(decimals) => i64::from(
                decimals,
            ),
            Instruction::Load(number)
            | Instruction::Jump(number)
            | Instruction::JumpFalse(number) => i64::from(number),
            Instruction::Loop(number) | Instruction::Next(number) => i64::from(number),
            Instruction::Give(ty) => i64::from(number_of(ty)),
            _ => 0,
        }
    }
}

/// Appends instructions to words.
fn push_code(words: &mut List<i64>, code: &[Instruction]) -> Result<(), NoMemory>
    ensures { OnOk result (words.new ≡ words.old ++ written code.now) }
{
    for place in 0..code.len() {
        words.push(i64::from(code[place].operation()))?;
        words.push(code[place].argument())?;
    }
    Ok(())
}

/// Appends the instructions of several parts to words.
fn push_parts(words: &mut List<i64>, parts: &[List<Instruction>]) -> Result<(), NoMemory>
    ensures { OnOk result (words.new ≡ words.old ++ written (joined parts.now)) }
{
    for place in 0..parts.len() {
        push_code(words, parts[place].as_slice())?;
    }
    Ok(())
}

/// Appends to words the places of parts that follow one another. Returns the place after them.
fn push_places(
    words: &mut List<i64>,
    first: usize,
    parts: &[List<Instruction>],
) -> Result<usize, NoMemory>
    requires first { first ≤ 39 }
    requires short { AreShort parts.now }
    ensures { IfOk result (λ behind. (words.new ≡ words.old ++ places_from first parts.now) × (behind ≡ place_behind first parts.now) × (behind ≤ 6400039)) }
{
    let mut behind = first;
    for place in 0..parts.len() {
        words.push(behind as i64)?;
        behind += 2 * parts[place].len();
    }
    Ok(behind)
}

/// Appends the instructions of a part to words, if it exists.
fn push_limit(words: &mut List<i64>, limit: &Option<List<Instruction>>) -> Result<(), NoMemory>
    ensures { OnOk result (words.new ≡ words.old ++ written (code_of_limit limit.now)) }
{
    match limit {
        Some(code) => push_code(words, code.as_slice()),
        None => Ok(()),
    }
}

/// Returns the words before the first instruction.
fn table(alloc: Global, program: &Program) -> Result<List<i64>, NoMemory>
    requires { IsShort program.now }
    ensures { IfOk result (λ words. words ≡ table_of program.now) }
{
    let outputs = program.outputs.as_slice();
    let mut words = List::new(alloc);
    words.push(outputs.len() as i64)?;
    words.push(i64::from(program.sizes.states))?;
    words.push(i64::from(program.sizes.inputs))?;
    words.push(i64::from(program.sizes.locals))?;
    words.push(match program.limit {
        Some(_) => 1,
        None => 0,
    })?;
    let behind = push_places(&mut words, outputs.len() + 7, outputs)?;
    let (limit, step) = match &program.limit {
        Some(code) => (behind, behind + 2 * code.len()),
        None => (0, behind),
    };
    words.push(limit as i64)?;
    words.push(step as i64)?;
    Ok(words)
}

impl Program {
    /// Returns the words that encode the program.
    pub fn words(&self, alloc: Global) -> Result<List<i64>, NoMemory>
        requires { IsShort self.now }
        ensures { IfOk result (λ words. words ≡ program_words self.now) }
    {
        let mut words = table(alloc, self)?;
        push_parts(&mut words, self.outputs.as_slice())?;
        push_limit(&mut words, &self.limit)?;
        push_code(&mut words, self.step.as_slice())?;
        Ok(words)
    }
}
