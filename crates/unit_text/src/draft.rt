//! Drafts: the system of the lines of a text that were read so far.
ghost use Rattle.std.specs.Prelude.{◌≡◌, Some};
ghost use Rattle.text_tokens.specs.Scanning.{Gives};
ghost use Rattle.text_tokens.specs.declared.fault.Unread.TheVariants.{NoForm};
ghost use Rattle.unit_tree.specs.Parts.{bare_unit};
ghost use Rattle.unit_text.specs.Drafts.{bare_draft, at_top, in_unit, in_step, in_instance, bare_instance, with_wire, with_stop, with_longest, with_zero, with_rows, with_sample, with_resolution, with_param, with_state, with_local, with_input, with_event_in, with_output, with_event_out, with_max, with_step, with_unit, with_setting, with_instance, headed, behind_block, with_form, top_form, declared_form, unit_form, and_line, in_block, turned, ended, line_in_step, step_form, instance_form, split_last, whole_system, is_top, limit_form, single_form, setting_form, Puts};

use fixed_words::{List, Literal};
use model_rules::DEEPEST_BLOCK;
use std::alloc::Global;
use text_tokens::Unread;
use unit_tree::{
    EventIn, EventOut, Expr, Input, Instance, Line, LineForm, Local, Name, Output, Param, PortName,
    Setting, State, System, Unit, Wire,
};

/// How a block of step lines began.
#[derive(Drop)]
pub enum Head {
    /// `if cond`
    Then(Expr),
    /// `if cond`, the lines up to its `else`, and the `else`.
    Else { cond: Expr, yes: List<Line> },
    /// `repeat K`
    Times(u32),
}

/// An open block of step lines that has another one inside.
#[derive(Drop)]
pub struct Around {
    /// The lines before it in the block around it.
    pub before: List<Line>,
    pub head: Head,
}

/// A step, as far as it was read.
#[derive(Drop)]
pub struct StepSoFar {
    /// The lines of its innermost block.
    pub lines: List<Line>,
    /// The blocks of `if` and `repeat` that are open, the innermost last.
    pub around: List<Around>,
}

/// The block that is open, with its content so far.
#[derive(Drop)]
pub enum OpenBlock {
    Top,
    Unit(Unit),
    Step { unit: Unit, step: StepSoFar },
    Instance(Instance),
}

impl OpenBlock {
    /// Whether no block is open.
    fn is_top(&self) -> bool
        ensures { result ≡ is_top self.now }
    {
        matches!(self, OpenBlock::Top)
    }
}

/// The complete parts of a text, as a system, and the block that is open after them.
#[derive(Drop)]
pub struct Draft {
    pub system: System,
    pub block: OpenBlock,
}

impl Draft {
    /// Returns the draft of the header of a version. Adding lines takes memory from `alloc`.
    pub fn new(alloc: Global, version: u8) -> Draft
        ensures { result ≡ bare_draft version }
    {
        Draft {
            system: System {
                version,
                units: List::new(alloc),
                instances: List::new(alloc),
                wires: List::new(alloc),
                stop: None,
                longest: None,
                zero: None,
                rows: None,
                samples: List::new(alloc),
            },
            block: OpenBlock::Top,
        }
    }

    /// The draft with one more line, after the header. `NoForm` where the line is not allowed there.
    pub fn with_form(self, alloc: Global, form: LineForm) -> Result<Draft, Unread>
        ensures { Gives result (with_form self form) }
    {
        let Draft { system, block } = self;
        match block {
            OpenBlock::Top => top_form(alloc, system, form),
            OpenBlock::Unit(unit) => unit_form(alloc, system, unit, form),
            OpenBlock::Step { unit, step } => step_form(alloc, system, unit, step, form),
            OpenBlock::Instance(instance) => instance_form(system, instance, form),
        }
    }

    /// The system, if no block is open.
    pub fn whole_system(self) -> Option<System>
        ensures { result ≡ whole_system self }
    {
        let Draft { system, block } = self;
        let is_whole = block.is_top();
        drop(block);
        if is_whole {
            Some(system)
        } else {
            drop(system);
            None
        }
    }
}

fn in_instance(system: System, instance: Instance) -> Draft
    ensures { result ≡ in_instance system instance }
{
    Draft {
        system,
        block: OpenBlock::Instance(instance),
    }
}

/// A unit that has nothing but its name.
fn bare_unit(alloc: Global, name: Name) -> Unit
    ensures { result ≡ bare_unit name }
{
    Unit {
        name,
        resolution: None,
        params: List::new(alloc),
        states: List::new(alloc),
        locals: List::new(alloc),
        inputs: List::new(alloc),
        events_in: List::new(alloc),
        outputs: List::new(alloc),
        events_out: List::new(alloc),
        max: None,
        step: None,
    }
}

fn at_top(system: System) -> Draft
    ensures { result ≡ at_top system }
{
    Draft {
        system,
        block: OpenBlock::Top,
    }
}

fn in_unit(system: System, unit: Unit) -> Draft
    ensures { result ≡ in_unit system unit }
{
    Draft {
        system,
        block: OpenBlock::Unit(unit),
    }
}

/// The error for a line that is not allowed where it is: `NoForm`.
fn misplaced(form: LineForm) -> Unread
    ensures { result ≡ NoForm }
{
    drop(form);
    Unread::NoForm
}

/// Adds a connection at the end.
fn put_wire(system: &mut System, wire: Wire) -> Result<(), Unread>
    ensures { Puts result system.new (Some (with_wire system.old wire)) }
{
    system.wires.push(wire)?;
    Ok(())
}

/// Sets `stop`. `NoForm` where it is set already.
fn put_stop(system: &mut System, seconds: Literal) -> Result<(), Unread>
    ensures { Puts result system.new (with_stop system.old seconds) }
{
    if system.stop.is_some() {
        return Err(Unread::NoForm);
    }
    system.stop = Some(seconds);
    Ok(())
}

/// Sets `longest`. `NoForm` where it is set already.
fn put_longest(system: &mut System, seconds: Literal) -> Result<(), Unread>
    ensures { Puts result system.new (with_longest system.old seconds) }
{
    if system.longest.is_some() {
        return Err(Unread::NoForm);
    }
    system.longest = Some(seconds);
    Ok(())
}

/// Sets the zero budget. `NoForm` where it is set already.
fn put_zero(system: &mut System, count: u32) -> Result<(), Unread>
    ensures { Puts result system.new (with_zero system.old count) }
{
    if system.zero.is_some() {
        return Err(Unread::NoForm);
    }
    system.zero = Some(count);
    Ok(())
}

/// Sets the row budget. `NoForm` where it is set already.
fn put_rows(system: &mut System, count: u32) -> Result<(), Unread>
    ensures { Puts result system.new (with_rows system.old count) }
{
    if system.rows.is_some() {
        return Err(Unread::NoForm);
    }
    system.rows = Some(count);
    Ok(())
}

/// Adds a sampled port at the end.
fn put_sample(system: &mut System, port: PortName) -> Result<(), Unread>
    ensures { Puts result system.new (Some (with_sample system.old port)) }
{
    system.samples.push(port)?;
    Ok(())
}

/// An instance without settings.
fn bare_instance(alloc: Global, name: Name, unit: Name) -> Instance
    ensures { result ≡ bare_instance name unit }
{
    Instance {
        name,
        unit,
        settings: List::new(alloc),
    }
}

/// Sets a limit of the run. `NoForm` where it is set already.
fn put_limit(system: &mut System, form: &LineForm) -> Result<(), Unread>
    ensures { Puts result system.new (limit_form system.old form.now) }
{
    match form {
        LineForm::Stop(seconds) => put_stop(system, *seconds),
        LineForm::Longest(seconds) => put_longest(system, *seconds),
        LineForm::Zero(count) => put_zero(system, *count),
        LineForm::Rows(count) => put_rows(system, *count),
        _ => Err(Unread::NoForm),
    }
}

/// The same for an owned form.
fn take_limit(system: &mut System, form: LineForm) -> Result<(), Unread>
    ensures { Puts result system.new (limit_form system.old form) }
{
    let put = put_limit(system, &form);
    drop(form);
    put
}

/// Adds a line outside blocks that opens none.
fn put_at_top(system: &mut System, form: LineForm) -> Result<(), Unread>
    ensures { Puts result system.new (single_form system.old form) }
{
    match form {
        LineForm::Connect(wire) => put_wire(system, wire),
        LineForm::Sample(port) => put_sample(system, port),
        _ => take_limit(system, form),
    }
}

/// Reads a line outside blocks.
fn top_form(alloc: Global, mut system: System, form: LineForm) -> Result<Draft, Unread>
    ensures { Gives result (top_form system form) }
{
    match form {
        LineForm::Unit(name) => Ok(in_unit(system, bare_unit(alloc, name))),
        LineForm::Instance { name, unit } => {
            Ok(in_instance(system, bare_instance(alloc, name, unit)))
        }
        _ => match put_at_top(&mut system, form) {
            Ok(()) => Ok(at_top(system)),
            Err(unread) => {
                drop(system);
                Err(unread)
            }
        },
    }
}

/// Sets a unit's resolution. `NoForm` where it is set already.
fn put_resolution(unit: &mut Unit, decimals: u8) -> Result<(), Unread>
    ensures { Puts result unit.new (with_resolution unit.old decimals) }
{
    if unit.resolution.is_some() {
        return Err(Unread::NoForm);
    }
    unit.resolution = Some(decimals);
    Ok(())
}

/// Adds a parameter at the end.
fn put_param(unit: &mut Unit, param: Param) -> Result<(), Unread>
    ensures { Puts result unit.new (Some (with_param unit.old param)) }
{
    unit.params.push(param)?;
    Ok(())
}

/// Adds a state at the end.
fn put_state(unit: &mut Unit, state: State) -> Result<(), Unread>
    ensures { Puts result unit.new (Some (with_state unit.old state)) }
{
    unit.states.push(state)?;
    Ok(())
}

/// Adds a local at the end.
fn put_local(unit: &mut Unit, local: Local) -> Result<(), Unread>
    ensures { Puts result unit.new (Some (with_local unit.old local)) }
{
    unit.locals.push(local)?;
    Ok(())
}

/// Adds an input at the end.
fn put_input(unit: &mut Unit, input: Input) -> Result<(), Unread>
    ensures { Puts result unit.new (Some (with_input unit.old input)) }
{
    unit.inputs.push(input)?;
    Ok(())
}

/// Adds an event input at the end.
fn put_event_in(unit: &mut Unit, event: EventIn) -> Result<(), Unread>
    ensures { Puts result unit.new (Some (with_event_in unit.old event)) }
{
    unit.events_in.push(event)?;
    Ok(())
}

/// Adds an output at the end.
fn put_output(unit: &mut Unit, output: Output) -> Result<(), Unread>
    ensures { Puts result unit.new (Some (with_output unit.old output)) }
{
    unit.outputs.push(output)?;
    Ok(())
}

/// Adds an event output at the end.
fn put_event_out(unit: &mut Unit, event: EventOut) -> Result<(), Unread>
    ensures { Puts result unit.new (Some (with_event_out unit.old event)) }
{
    unit.events_out.push(event)?;
    Ok(())
}

/// Sets a unit's `max`. `NoForm` where it is set already.
fn put_max(unit: &mut Unit, value: Expr) -> Result<(), Unread>
    ensures { Puts result unit.new (with_max unit.old value) }
{
    if unit.max.is_some() {
        return Err(Unread::NoForm);
    }
    unit.max = Some(value);
    Ok(())
}

/// Adds a declaration, or another line of a unit that opens no block.
fn put_declared(unit: &mut Unit, form: LineForm) -> Result<(), Unread>
    ensures { Puts result unit.new (declared_form unit.old form) }
{
    match form {
        LineForm::Resolution(decimals) => put_resolution(unit, decimals),
        LineForm::Param(param) => put_param(unit, param),
        LineForm::State(state) => put_state(unit, state),
        LineForm::Local(local) => put_local(unit, local),
        LineForm::Input(input) => put_input(unit, input),
        LineForm::EventInput(event) => put_event_in(unit, event),
        LineForm::Output(output) => put_output(unit, output),
        LineForm::EventOutput(event) => put_event_out(unit, event),
        LineForm::Max(value) => put_max(unit, value),
        _ => Err(misplaced(form)),
    }
}

/// Begins the step of a unit. `NoForm` where it has one already.
fn with_step(alloc: Global, system: System, unit: Unit) -> Result<Draft, Unread>
    ensures { Gives result (with_step system unit) }
{
    if unit.step.is_some() {
        drop(system);
        drop(unit);
        return Err(Unread::NoForm);
    }
    let step = StepSoFar {
        lines: List::new(alloc),
        around: List::new(alloc),
    };
    Ok(in_step(system, unit, step))
}

/// Adds a complete unit to the system.
fn with_unit(mut system: System, unit: Unit) -> Result<Draft, Unread>
    ensures { Gives result (Some (with_unit system unit)) }
{
    match system.units.push(unit) {
        Ok(()) => Ok(at_top(system)),
        Err(_) => {
            drop(system);
            Err(Unread::NoMemory)
        }
    }
}

/// Reads a line in a unit.
fn unit_form(alloc: Global, system: System, mut unit: Unit, form: LineForm) -> Result<Draft, Unread>
    ensures { Gives result (unit_form system unit form) }
{
    match form {
        LineForm::Step => with_step(alloc, system, unit),
        LineForm::End => with_unit(system, unit),
        _ => match put_declared(&mut unit, form) {
            Ok(()) => Ok(in_unit(system, unit)),
            Err(unread) => {
                drop(system);
                drop(unit);
                Err(unread)
            }
        },
    }
}

/// The other blocks, and the innermost one.
#[tactic(auto, using(crate::proofs::DraftLemmas::split_pop))]
fn split_last(around: List<Around>) -> Option<(List<Around>, Around)>
    ensures { result ≡ split_last around }
{
    let mut around = around.into_vec();
    let innermost = around.pop()?;
    Some((List::from_vec(around), innermost))
}

fn in_step(system: System, unit: Unit, step: StepSoFar) -> Draft
    ensures { result ≡ in_step system unit step }
{
    Draft {
        system,
        block: OpenBlock::Step { unit, step },
    }
}

/// The step with one more line that has no block.
fn with_line(mut step: StepSoFar, line: Line) -> Result<StepSoFar, Unread>
    ensures { Gives result (Some (and_line step line)) }
{
    step.lines.push(line)?;
    Ok(step)
}

/// The step with a block that begins.
fn in_block(alloc: Global, step: StepSoFar, head: Head) -> Result<StepSoFar, Unread>
    ensures { Gives result (in_block step head) }
{
    if step.around.len() >= DEEPEST_BLOCK as usize {
        drop(step);
        drop(head);
        return Err(Unread::NoForm);
    }
    let StepSoFar { lines, mut around } = step;
    around.push(Around {
        before: lines,
        head,
    })?;
    let lines = List::new(alloc);
    Ok(StepSoFar { lines, around })
}

/// The step after an `else`.
fn turned(alloc: Global, step: StepSoFar) -> Result<StepSoFar, Unread>
    ensures { Gives result (turned step) }
{
    let StepSoFar { lines: yes, around } = step;
    let Some((mut around, block)) = split_last(around) else {
        return Err(Unread::NoForm);
    };
    let Around { before, head } = block;
    let Head::Then(cond) = head else {
        return Err(Unread::NoForm);
    };
    let head = Head::Else { cond, yes };
    around.push(Around { before, head })?;
    let lines = List::new(alloc);
    Ok(StepSoFar { lines, around })
}

/// The line with this head and this block of step lines.
fn headed(head: Head, lines: List<Line>) -> Line
    ensures { result ≡ headed head lines }
{
    match head {
        Head::Then(cond) => Line::If {
            cond,
            yes: lines,
            no: None,
        },
        Head::Else { cond, yes } => Line::If {
            cond,
            yes,
            no: Some(lines),
        },
        Head::Times(count) => Line::Repeat { count, body: lines },
    }
}

/// The step after the `end` of its innermost block, which becomes a line of the block around it.
fn behind_block(around: List<Around>, block: Around, lines: List<Line>) -> Result<StepSoFar, Unread>
    ensures { Gives result (Some (behind_block around block lines)) }
{
    let Around { mut before, head } = block;
    before.push(headed(head, lines))?;
    Ok(StepSoFar {
        lines: before,
        around,
    })
}

/// Reads an `end` in a step: the innermost block becomes a line of the block around it, or the step becomes
/// that of its unit.
fn ended(system: System, mut unit: Unit, step: StepSoFar) -> Result<Draft, Unread>
    ensures { Gives result (ended system unit step) }
{
    let StepSoFar { lines, around } = step;
    match split_last(around) {
        None => {
            unit.step = Some(lines);
            Ok(in_unit(system, unit))
        }
        Some((around, block)) => match behind_block(around, block, lines) {
            Ok(step) => Ok(in_step(system, unit, step)),
            Err(unread) => {
                drop(system);
                drop(unit);
                Err(unread)
            }
        },
    }
}

/// Reads a line in a step that does not end a block.
fn line_in_step(alloc: Global, step: StepSoFar, form: LineForm) -> Result<StepSoFar, Unread>
    ensures { Gives result (line_in_step step form) }
{
    match form {
        LineForm::Assign { target, value } => with_line(step, Line::Assign { target, value }),
        LineForm::Accept(value) => with_line(step, Line::Accept { value }),
        LineForm::If(cond) => in_block(alloc, step, Head::Then(cond)),
        LineForm::Repeat(count) => in_block(alloc, step, Head::Times(count)),
        LineForm::Else => turned(alloc, step),
        _ => Err(misplaced(form)),
    }
}

/// Reads a line in a step.
fn step_form(
    alloc: Global,
    system: System,
    unit: Unit,
    step: StepSoFar,
    form: LineForm,
) -> Result<Draft, Unread>
    ensures { Gives result (step_form system unit step form) }
{
    match form {
        LineForm::End => ended(system, unit, step),
        _ => match line_in_step(alloc, step, form) {
            Ok(step) => Ok(in_step(system, unit, step)),
            Err(unread) => {
                drop(system);
                drop(unit);
                Err(unread)
            }
        },
    }
}

/// Adds a setting at the end.
fn put_setting(instance: &mut Instance, setting: Setting) -> Result<(), Unread>
    ensures { Puts result instance.new (Some (with_setting instance.old setting)) }
{
    instance.settings.push(setting)?;
    Ok(())
}

/// Adds a line in an instance that does not end it.
fn put_in_instance(instance: &mut Instance, form: LineForm) -> Result<(), Unread>
    ensures { Puts result instance.new (setting_form instance.old form) }
{
    match form {
        LineForm::Setting(setting) => put_setting(instance, setting),
        _ => Err(misplaced(form)),
    }
}

/// Adds a complete instance to the system.
fn with_instance(mut system: System, instance: Instance) -> Result<Draft, Unread>
    ensures { Gives result (Some (with_instance system instance)) }
{
    match system.instances.push(instance) {
        Ok(()) => Ok(at_top(system)),
        Err(_) => {
            drop(system);
            Err(Unread::NoMemory)
        }
    }
}

/// Reads a line in an instance.
fn instance_form(system: System, mut instance: Instance, form: LineForm) -> Result<Draft, Unread>
    ensures { Gives result (instance_form system instance form) }
{
    match form {
        LineForm::End => with_instance(system, instance),
        _ => match put_in_instance(&mut instance, form) {
            Ok(()) => Ok(in_instance(system, instance)),
            Err(unread) => {
                drop(system);
                drop(instance);
                Err(unread)
            }
        },
    }
}
