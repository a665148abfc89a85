ghost use Rattle.std.specs.Prelude.{◌≡◌, ◌+◌, ◌≤◌, ◌++◌, length, IfOk};
ghost use Rattle.code_pieces.specs.Pieces.{choice_code, when_code, turns_code};

use fixed_words::{List, NoMemory};
use std::alloc::{AllocError, Global};
use unit_vm::Instruction;

/// Appends the second code to the first. It takes memory as the first grows.
pub fn joined(
    first: List<Instruction>,
    second: List<Instruction>,
) -> Result<List<Instruction>, NoMemory>
    ensures { IfOk result (λ code. code ≡ first ++ second) }
{
    let mut code = first.into_vec();
    code.extend_from_slice(second.as_slice())?;
    Ok(List::from_vec(code))
}

/// Returns the code that pops a word, and runs the second code where it is 0, and otherwise the first. It also fails with
/// `NoMemory` where one of them is too long for a jump.
pub fn choice(
    alloc: Global,
    first: List<Instruction>,
    second: List<Instruction>,
) -> Result<List<Instruction>, NoMemory>
    ensures { IfOk result (λ code. code ≡ choice_code first second) }
{
    let mut code = Vec::new(alloc);
    code.push(Instruction::JumpFalse(distance(&first, 2)?))?;
    code.extend_from_slice(first.as_slice())?;
    code.push(Instruction::Jump(distance(&second, 1)?))?;
    code.extend_from_slice(second.as_slice())?;
    Ok(List::from_vec(code))
}

/// Returns the code that pops a word, and runs the body where it is not 0. It also fails with `NoMemory` where the body is too
/// long for a jump.
pub fn when(alloc: Global, body: List<Instruction>) -> Result<List<Instruction>, NoMemory>
    ensures { IfOk result (λ code. code ≡ when_code body) }
{
    let mut code = Vec::new(alloc);
    code.push(Instruction::JumpFalse(distance(&body, 1)?))?;
    code.extend_from_slice(body.as_slice())?;
    Ok(List::from_vec(code))
}

/// Returns the code that runs the body `count` times. It also fails with `NoMemory` where the body is too long for a jump.
pub fn turns(
    alloc: Global,
    count: u32,
    body: List<Instruction>,
) -> Result<List<Instruction>, NoMemory>
    ensures { IfOk result (λ code. code ≡ turns_code count body) }
{
    let mut code = Vec::new(alloc);
    code.push(Instruction::Loop(count))?;
    code.extend_from_slice(body.as_slice())?;
    code.push(Instruction::Next(distance(&body, 0)?))?;
    Ok(List::from_vec(code))
}

/// Returns the distance of a jump over the code and so many instructions more. `NoMemory` where it is too long.
fn distance(code: &List<Instruction>, more: u32) -> Result<u32, NoMemory>
    requires { more ≤ 2 }
    ensures { IfOk result (λ told. told ≡ length code.now + more) }
{
    match u32::try_from(code.len()) {
        Ok(length) => match length.checked_add(more) {
            Some(distance) => Ok(distance),
            None => Err(AllocError),
        },
        Err(_) => Err(AllocError),
    }
}
