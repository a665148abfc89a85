ghost use Rattle.std.specs.Prelude.{◌≡◌, map, length, IsSome, IfOk, IfSome};
ghost use Rattle.unit_exec.specs.Showing.{HasSteadyLimit, Shows, ShowsBy, ShowStates};
ghost use Rattle.fixed_words.specs.Types.{AreDecimals};
ghost use Rattle.unit_tree.specs.Components.{start_word};
ghost use Rattle.unit_vm.specs.Checking.{IsValid};
ghost use Rattle.std.specs.List.{AllByRecursion};
ghost use Rattle.code_units.specs.UnitPrograms.{IsCompilable};
ghost use Rattle.unit_exec.specs.Images.{IsImageOf, unit_of_plain_form, HasParams, IsCompiled};
ghost use Rattle.unit_tree.specs.declared.unit.Input.{Input};
ghost use Rattle.unit_tree.specs.declared.unit.State.{State};
ghost use Rattle.unit_vm.specs.declared.program.Program.{Program};

use code_units::program;
use fixed_words::{List, NoMemory, Ty};
use std::alloc::Global;
use std::marker::Model;
use unit_tree::{Checked, Input, State, Unit, start_word};
use unit_vm::{Code, Instruction, Program};

/// The code of a unit with words of its parameters, and the words with which its states and inputs begin.
#[derive(Drop)]
pub struct Image {
    /// The value of `shown` for the first output, which is the only one of many units. It is here because a step reads the code next
    /// to it.
    first_shown: Option<(u32, Ty)>,
    code: Code,
    /// The limit, where it is the same in each state.
    steady_limit: Option<u64>,
    /// For each output that only returns a state: the slot of this state, and its type.
    shown: Vec<Option<(u32, Ty)>>,
    start: List<i64>,
    start_inputs: List<i64>,
}

impl Model for Image {
    ghost use Rattle.std.specs.Prelude.{◌≡◌};
    ghost use Rattle.unit_exec.specs.Images.{Compiled, HasStarts};
    ghost use Rattle.std.specs.Prelude.{IfSome};
    ghost use Rattle.unit_exec.specs.Showing.{HasSteadyLimit, Shows, ShowStates};

    ghost Value = { Compiled };

    ghost view = { λ i. record { program = i.code; start = i.start; start_inputs = i.start_inputs } };

    ghost invariant = { λ i. HasStarts (record { program = i.code; start = i.start; start_inputs = i.start_inputs }) × ShowStates i.code i.shown.items × IfSome i.first_shown (Shows i.code 0) × IfSome i.steady_limit (HasSteadyLimit i.code) };
}

impl Image {
    /// Returns the code. Takes no memory.
    pub fn code(&self) -> &Code
        ensures { result.now ≡ self.now.program }
    {
        &self.code
    }

    /// Returns the number of its states.
    pub fn states(&self) -> u32
        ensures { result ≡ self.now.program.sizes.states }
    {
        self.code.program().sizes.states
    }

    /// Returns the number of its inputs.
    pub fn inputs(&self) -> u32
        ensures { result ≡ self.now.program.sizes.inputs }
    {
        self.code.program().sizes.inputs
    }

    /// Returns the words with which the states begin.
    pub fn start(&self) -> &[i64]
        ensures value { result.now ≡ self.now.start }
        ensures each { length self.now.start ≡ self.now.program.sizes.states }
    {
        self.start.as_slice()
    }

    /// Returns the words with which the inputs begin.
    pub fn start_inputs(&self) -> &[i64]
        ensures value { result.now ≡ self.now.start_inputs }
        ensures each { length self.now.start_inputs ≡ self.now.program.sizes.inputs }
    {
        self.start_inputs.as_slice()
    }

    /// Returns the slot of the state that an output shows, and its type, if the output does nothing else.
    pub(crate) fn shown(&self, output: u32) -> Option<(u32, Ty)>
        ensures { IfSome result (Shows self.now.program output) }
    {
        if output == 0 {
            return self.first_shown;
        }
        *self.shown.get(output as usize)?
    }

    /// Returns the limit in each state, if it is the same in all of them.
    pub(crate) fn steady_limit(&self) -> Option<u64>
        ensures { IfSome result (HasSteadyLimit self.now.program) }
    {
        self.steady_limit
    }
}

/// Returns the code of a valid program: its words are valid code.
fn valid_code(alloc: Global, program: &Program) -> Result<Code, NoMemory>
    requires { IsValid program.now }
    ensures { IfOk result (λ code. code ≡ program.now) }
{
    let words = program.words(alloc)?;
    let found = Code::new(alloc, words)?;
    Ok(found.unwrap())
}

/// Returns the words with which states begin.
fn start_states(alloc: Global, states: &[State]) -> Result<List<i64>, NoMemory>
    requires { AllByRecursion (λ (state : State). AreDecimals state.ty) states.now }
    ensures { IfOk result (λ words. words ≡ map (λ state. start_word state.ty state.start) states.now) }
{
    let mut words = List::new(alloc);
    for state in states {
        words.push(start_word(state.ty, state.start))?;
    }
    Ok(words)
}

/// Returns the words with which inputs begin.
fn start_inputs(alloc: Global, inputs: &[Input]) -> Result<List<i64>, NoMemory>
    requires { AllByRecursion (λ (input : Input). AreDecimals input.ty) inputs.now }
    ensures { IfOk result (λ words. words ≡ map (λ input. start_word input.ty input.start) inputs.now) }
{
    let mut words = List::new(alloc);
    for input in inputs {
        words.push(start_word(input.ty, input.start))?;
    }
    Ok(words)
}

/// Returns the slot of the state that an output's part shows, and its type, if the part does nothing else.
fn shown_by(part: &[Instruction], states: u32) -> Option<(u32, Ty)>
    ensures { IfSome result (ShowsBy part.now states) }
{
    match part {
        [Instruction::Load(slot), Instruction::Give(ty)] if *slot < states => Some((*slot, *ty)),
        _ => None,
    }
}

/// Returns the shown states of a program's outputs.
fn shown_states(alloc: Global, program: &Program) -> Result<Vec<Option<(u32, Ty)>>, NoMemory>
    ensures { IfOk result (λ shown. ShowStates program.now shown.items) }
{
    let parts = program.outputs.as_slice();
    let mut shown = Vec::new(alloc);
    for number in 0..parts.len() {
        shown.push(shown_by(parts[number].as_slice(), program.sizes.states))?;
    }
    Ok(shown)
}

/// Returns the shown state of the first output, if there is one.
fn first_of(shown: &[Option<(u32, Ty)>]) -> Option<(u32, Ty)>
    ensures { (program : Program) → ShowStates program shown.now → IfSome result (Shows program 0) }
{
    *shown.first()?
}

/// Returns the limit of a program, if its part does nothing but push a limit.
fn steady_limit(program: &Program) -> Option<u64>
    ensures { IfSome result (HasSteadyLimit program.now) }
{
    match program.limit.as_ref()?.as_slice() {
        [Instruction::Push(limit), Instruction::Limit] if *limit >= 0 => Some(*limit as u64),
        _ => None,
    }
}

/// Returns the image of a unit that may be compiled.
fn image_of(alloc: Global, unit: &Unit, params: &[i64]) -> Result<Image, NoMemory>
    requires { IsCompilable unit.now params.now }
    ensures { IfOk result (λ image. IsImageOf (record { unit = unit.now; params = params.now }) image) }
{
    let program = program(alloc, unit, params)?;
    let code = valid_code(alloc, &program)?;
    let shown = shown_states(alloc, code.program())?;
    let steady_limit = steady_limit(code.program());
    Ok(Image {
        first_shown: first_of(&shown),
        code,
        steady_limit,
        shown,
        start: start_states(alloc, unit.states.as_slice())?,
        start_inputs: start_inputs(alloc, unit.inputs.as_slice())?,
    })
}

/// Returns the image of a unit with words of its parameters. The unit is given by its number in the plain form of the system,
/// which is the form that is run. The code of the image is the unit's program, which computes the calls of the component. By
/// `codes_cost_what_trees_do` of `code_units` it costs at most what they cost by their trees.
pub fn compile(
    alloc: Global,
    checked: &Checked,
    unit: u32,
    params: &[i64],
) -> Result<Image, NoMemory>
    requires there { IsSome (unit_of_plain_form checked.now unit) }
    requires one_each { HasParams checked.now unit params.now }
    ensures { IfOk result (λ image. IsCompiled checked.now unit params.now image) }
{
    let system = checked.system();
    let unit = system.units.get(unit as usize).unwrap();
    image_of(alloc, unit, params)
}
