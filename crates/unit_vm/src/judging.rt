ghost use Rattle.std.specs.Prelude.{◌≡◌, ◌≤◌, map, IfOk, IfSome, IfNone};
ghost use Rattle.unit_vm.specs.Programs.{output_part, with_limit};
ghost use Rattle.unit_vm.specs.Valid.{HasFacts, greatest};
ghost use Rattle.unit_vm.specs.Tables.{heights_in};
ghost use Rattle.unit_vm.specs.Judged.{all_allowed, IsJudgedPart, IsNoPart, AreJudged, AreNoParts, IsNoProgram, is_sized, merged, step_part};
ghost use Rattle.model_rules.specs.Limits.{input_limit, local_limit, state_limit};

use crate::around::{jumps_stay, loop_table};
use crate::heights::height_table;
use crate::instruction::Instruction;
use crate::program::{CodeFacts, Program, Role, Sizes};
use fixed_words::{List, NoMemory};
use model_rules::{MOST_INPUTS, MOST_LOCALS, MOST_OUTPUTS, MOST_STATES};
use std::alloc::Global;

/// The greatest heights of both stacks, and the greatest cost, of some parts.
#[derive(Clone, Copy)]
pub(crate) struct PartFacts {
    pub(crate) stack: u32,
    pub(crate) loops: u32,
    pub(crate) cost: u32,
}

/// Returns the facts of two lists of parts together.
fn merge(one: PartFacts, other: PartFacts) -> PartFacts
    ensures { result ≡ merged one other }
{
    PartFacts {
        stack: one.stack.max(other.stack),
        loops: one.loops.max(other.loops),
        cost: one.cost.max(other.cost),
    }
}

/// Returns whether the part may have each of its instructions.
fn are_allowed(sizes: Sizes, role: Role, code: &[Instruction]) -> bool
    requires states { sizes.states ≤ state_limit }
    requires inputs { sizes.inputs ≤ input_limit }
    requires locals { sizes.locals ≤ local_limit }
    ensures { result ≡ all_allowed sizes role code.now }
{
    for instruction in code {
        if !(instruction.is_argued(sizes) && instruction.fits(role)) {
            return false;
        }
    }
    true
}

/// Returns the greatest height.
fn tallest(heights: &[Option<u32>]) -> u32
    ensures { result ≡ greatest (heights_in heights.now) }
{
    let mut best = 0;
    for height in heights {
        best = height.unwrap_or(0).max(best);
    }
    best
}

/// Returns the facts of a part, or `None` where it is not valid.
fn judge_part(
    alloc: Global,
    sizes: Sizes,
    role: Role,
    code: &[Instruction],
) -> Result<Option<PartFacts>, NoMemory>
    requires states { sizes.states ≤ state_limit }
    requires inputs { sizes.inputs ≤ input_limit }
    requires locals { sizes.locals ≤ local_limit }
    ensures some { IfOk result (λ found. IfSome found (λ facts. IsJudgedPart sizes (record { role = role; code = code.now }) facts)) }
    ensures none { IfOk result (λ found. IfNone found (IsNoPart sizes (record { role = role; code = code.now }))) }
{
    if !are_allowed(sizes, role, code) {
        return Ok(None);
    }
    let Some(table) = loop_table(alloc, code)? else {
        return Ok(None);
    };
    if !jumps_stay(code, &table) {
        return Ok(None);
    }
    match height_table(alloc, code)? {
        Some(heights) => Ok(Some(PartFacts {
            stack: tallest(heights.as_slice()),
            loops: table.deepest,
            cost: table.cost,
        })),
        None => Ok(None),
    }
}

/// Returns the facts of the outputs' parts, or `None` where one is not valid.
fn judge_outputs(
    alloc: Global,
    sizes: Sizes,
    outputs: &[List<Instruction>],
) -> Result<Option<PartFacts>, NoMemory>
    requires states { sizes.states ≤ state_limit }
    requires inputs { sizes.inputs ≤ input_limit }
    requires locals { sizes.locals ≤ local_limit }
    ensures some { IfOk result (λ found. IfSome found (AreJudged sizes (map output_part outputs.now))) }
    ensures none { IfOk result (λ found. IfNone found (AreNoParts sizes (map output_part outputs.now))) }
{
    let mut all = PartFacts {
        stack: 0,
        loops: 0,
        cost: 0,
    };
    for place in 0..outputs.len() {
        match judge_part(alloc, sizes, Role::Output, outputs[place].as_slice())? {
            Some(facts) => all = merge(all, facts),
            None => return Ok(None),
        }
    }
    Ok(Some(all))
}

/// Returns the facts of the parts after those of the outputs, or `None` where one is not valid.
fn judge_others(
    alloc: Global,
    sizes: Sizes,
    limit: &Option<List<Instruction>>,
    step: &[Instruction],
) -> Result<Option<PartFacts>, NoMemory>
    requires states { sizes.states ≤ state_limit }
    requires inputs { sizes.inputs ≤ input_limit }
    requires locals { sizes.locals ≤ local_limit }
    ensures some { IfOk result (λ found. IfSome found (AreJudged sizes (with_limit limit.now (step_part step.now)))) }
    ensures none { IfOk result (λ found. IfNone found (AreNoParts sizes (with_limit limit.now (step_part step.now)))) }
{
    let last = match judge_part(alloc, sizes, Role::Step, step)? {
        Some(facts) => facts,
        None => return Ok(None),
    };
    match limit {
        None => Ok(Some(last)),
        Some(code) => match judge_part(alloc, sizes, Role::Limit, code.as_slice())? {
            Some(facts) => Ok(Some(merge(facts, last))),
            None => Ok(None),
        },
    }
}

/// Returns whether the numbers of outputs, states, inputs and locals are within the limits of a unit.
fn is_sized(program: &Program) -> bool
    ensures { result ≡ is_sized program.now }
{
    let sizes = program.sizes;
    program.outputs.len() <= MOST_OUTPUTS
        && sizes.states <= MOST_STATES as u32
        && sizes.inputs <= MOST_INPUTS as u32
        && sizes.locals <= MOST_LOCALS as u32
}

/// Returns the facts of a program, or `None` where it is not valid.
pub(crate) fn facts_of(alloc: Global, program: &Program) -> Result<Option<CodeFacts>, NoMemory>
    ensures some { IfOk result (λ found. IfSome found (HasFacts program.now)) }
    ensures none { IfOk result (λ found. IfNone found (IsNoProgram program.now)) }
{
    if !is_sized(program) {
        return Ok(None);
    }
    let sizes = program.sizes;
    let outputs = match judge_outputs(alloc, sizes, program.outputs.as_slice())? {
        Some(facts) => facts,
        None => return Ok(None),
    };
    let others = match judge_others(alloc, sizes, &program.limit, program.step.as_slice())? {
        Some(facts) => facts,
        None => return Ok(None),
    };
    let all = merge(outputs, others);
    Ok(Some(CodeFacts {
        stack: all.stack,
        loops: all.loops,
        cost: all.cost,
        slots: sizes.slots(),
    }))
}
