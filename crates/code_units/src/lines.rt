//! Code of step lines.
ghost use Rattle.std.specs.Prelude.{◌≡◌, ◌++◌, ◌∷◌, [], IfOk};
ghost use Rattle.code_units.specs.Scopes.{named};
ghost use Rattle.code_units.specs.StepLines.{target_coded, value_coded, line_code, lines_code};
ghost use Rattle.code_pieces.specs.Pieces.{flat};
ghost use Rattle.unit_vm.specs.declared.instruction.Instruction.TheVariants.{Accept};

use crate::expressions::value_code;
use crate::scope::{CodeScope, NamePlace};
use code_pieces::{choice, joined, turns, when};
use fixed_words::{List, NoMemory};
use std::alloc::Global;
use unit_tree::{Expr, Line};
use unit_vm::Instruction;

/// Appends the instruction that stores a word in the target's slot to code, where the target has one.
fn push_store(
    code: List<Instruction>,
    scope: &CodeScope,
    target: &[u8],
) -> Result<List<Instruction>, NoMemory>
    ensures { IfOk result (λ all. all ≡ code ++ flat (target_coded scope.now.sizes (named scope.now.names target.now)).piece) }
{
    let mut code = code;
    if let Some(found) = scope.named(target) {
        if let NamePlace::Slot(slot) = found.place {
            code.push(Instruction::Store { slot, ty: found.ty })?;
        }
    }
    Ok(code)
}

/// Returns the code of `accept`.
fn accept_code(
    alloc: Global,
    scope: &CodeScope,
    value: &Expr,
) -> Result<List<Instruction>, NoMemory>
    ensures { IfOk result (λ all. all ≡ flat (value_coded value.now scope.now).piece ++ (Accept ∷ [])) }
{
    let mut code = value_code(alloc, scope, value)?.into_code();
    code.push(Instruction::Accept)?;
    Ok(code)
}

/// Returns the code of a line.
#[cycle(lines)]
fn line_code(alloc: Global, scope: &CodeScope, line: &Line) -> Result<List<Instruction>, NoMemory>
    ensures { IfOk result (λ code. code ≡ flat (line_code line.now scope.now).piece) }
{
    match line {
        Line::Assign { target, value } => {
            let code = value_code(alloc, scope, value)?.into_code();
            push_store(code, scope, target.as_slice())
        }
        Line::If { cond, yes, no } => {
            let cond = value_code(alloc, scope, cond)?.into_code();
            let yes = lines_code(alloc, scope, yes.as_slice())?;
            let branches = match no {
                None => when(alloc, yes)?,
                Some(no) => choice(alloc, yes, lines_code(alloc, scope, no.as_slice())?)?,
            };
            joined(cond, branches)
        }
        Line::Repeat { count, body } => {
            turns(alloc, *count, lines_code(alloc, scope, body.as_slice())?)
        }
        Line::Accept { value } => accept_code(alloc, scope, value),
    }
}

/// Returns the code of lines in their order.
#[cycle(lines)]
pub(crate) fn lines_code(
    alloc: Global,
    scope: &CodeScope,
    lines: &[Line],
) -> Result<List<Instruction>, NoMemory>
    ensures { IfOk result (λ code. code ≡ flat (lines_code lines.now scope.now).piece) }
{
    let mut code = List::new(alloc);
    for line in lines {
        code = joined(code, line_code(alloc, scope, line)?)?;
    }
    Ok(code)
}
