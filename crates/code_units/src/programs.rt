//! The program of a unit.
ghost use Rattle.std.specs.Prelude.{◌≡◌, ◌≤◌, map, length, IfOk};
ghost use Rattle.code_units.specs.UnitPrograms.{output_code, limit_code, step_piece, program_in, program_of};
ghost use Rattle.code_pieces.specs.Pieces.{part_code};
ghost use Rattle.unit_vm.specs.declared.instruction.Instruction.TheVariants.{Done};
ghost use Rattle.model_rules.specs.Limits.{input_limit, local_limit, state_limit};

use crate::expressions::value_code;
use crate::lines::lines_code;
use crate::scope::CodeScope;
use fixed_words::{List, NoMemory};
use std::alloc::Global;
use unit_tree::{Expr, Line, Output, Unit};
use unit_vm::{Instruction, Program};

/// Returns the code of an output's call.
fn output_code(
    alloc: Global,
    scope: &CodeScope,
    output: &Output,
) -> Result<List<Instruction>, NoMemory>
    ensures { IfOk result (λ code. code ≡ output_code scope.now output.now) }
{
    let mut code = value_code(alloc, scope, &output.value)?.into_code();
    code.push(Instruction::Give(output.ty))?;
    Ok(code)
}

/// Returns the codes of outputs, in their order.
fn output_codes(
    alloc: Global,
    scope: &CodeScope,
    outputs: &[Output],
) -> Result<List<List<Instruction>>, NoMemory>
    ensures { IfOk result (λ codes. codes ≡ map (output_code scope.now) outputs.now) }
{
    let mut codes = List::new(alloc);
    for output in outputs {
        codes.push(output_code(alloc, scope, output)?)?;
    }
    Ok(codes)
}

/// Returns the code of the call of a `max`.
fn limit_code(alloc: Global, scope: &CodeScope, value: &Expr) -> Result<List<Instruction>, NoMemory>
    ensures { IfOk result (λ code. code ≡ limit_code scope.now value.now) }
{
    let mut code = value_code(alloc, scope, value)?.into_code();
    code.push(Instruction::Limit)?;
    Ok(code)
}

/// Returns the code of a step: of its lines, if it has any, and the end.
fn step_code(
    alloc: Global,
    scope: &CodeScope,
    step: &Option<List<Line>>,
) -> Result<List<Instruction>, NoMemory>
    ensures { IfOk result (λ code. code ≡ part_code (step_piece scope.now step.now) Done) }
{
    let mut code = match step {
        Some(lines) => lines_code(alloc, scope, lines.as_slice())?,
        None => List::new(alloc),
    };
    code.push(Instruction::Done)?;
    Ok(code)
}

/// Returns the parts of a unit's program.
fn program_in(alloc: Global, scope: &CodeScope, unit: &Unit) -> Result<Program, NoMemory>
    ensures { IfOk result (λ program. program ≡ program_in scope.now unit.now) }
{
    let outputs = output_codes(alloc, scope, unit.outputs.as_slice())?;
    let limit = match &unit.max {
        Some(value) => Some(limit_code(alloc, scope, value)?),
        None => None,
    };
    let step = step_code(alloc, scope, &unit.step)?;
    Ok(Program {
        sizes: scope.sizes,
        outputs,
        limit,
        step,
    })
}

/// Returns the program of a unit with these words of its parameters: a part for each output, one for the limit if the unit has a
/// `max`, and one for the step.
pub fn program(alloc: Global, unit: &Unit, params: &[i64]) -> Result<Program, NoMemory>
    requires one_each { length params.now ≡ length unit.now.params }
    requires states { length unit.now.states ≤ state_limit }
    requires inputs { length unit.now.inputs ≤ input_limit }
    requires locals { length unit.now.locals ≤ local_limit }
    ensures { IfOk result (λ program. program ≡ program_of unit.now params.now) }
{
    let scope = CodeScope::new(alloc, unit, params)?;
    program_in(alloc, &scope, unit)
}
