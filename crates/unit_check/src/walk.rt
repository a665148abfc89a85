//! A walk over the canonical lines of a system, up to the first line that passes a test.
ghost use Rattle.std.specs.Prelude.{◌≡◌, ◌-◌};
ghost use Rattle.std.specs.List.{slice_get};
ghost use Rattle.unit_tree.specs.declared.line_form.LineForm.TheVariants as form;
ghost use Rattle.unit_check.specs.Questions.{asked_of};
ghost use Rattle.unit_check.specs.Rules.{Says, defined};
ghost use Rattle.unit_tree.specs.Printable.{IsRanged};
ghost use Rattle.unit_tree.specs.WellFormed.{lines_breaking};
ghost use Rattle.unit_check.specs.Walks.{
  scope_of,
  form_of,
  past,
  past_from,
  each,
  if_given,
  line_walk,
  step_walk,
  plain_names_walk,
  ports_walk,
  names_walk,
  behaviour_walk,
  unit_walk,
  units_walk,
  numbered_walk,
  instance_walk,
  instances_walk,
  limits_walk,
  parts_walk,
  system_walk,
};

use crate::question::{Question, answers};
use crate::rules::SystemRule;
use crate::tables::SystemTables;
use fixed_words::{List, Literal};
use unit_names::UnitNames;
use unit_tree::{
    EventIn, EventOut, Expr, Input, Instance, Line, Local, Name, Output, Param, PortName, Setting,
    State, System, Wire,
};

/// The scope of a line.
#[derive(Clone, Copy)]
pub(crate) enum ScopeRef<'s, 'n> {
    Top,
    Unit(&'s UnitNames<'n>),
    Step(&'s UnitNames<'n>),
    Instance(&'s Instance),
}

/// The content of a line, by reference.
#[derive(Clone, Copy)]
pub(crate) enum FormRef<'a> {
    Header(u8),
    Unit(&'a Name),
    Resolution(u8),
    Param(&'a Param),
    State(&'a State),
    Local(&'a Local),
    Input(&'a Input),
    EventInput(&'a EventIn),
    Output(&'a Output),
    EventOutput(&'a EventOut),
    Max(&'a Expr),
    Step,
    End,
    Assign { target: &'a Name, value: &'a Expr },
    If(&'a Expr),
    Else,
    Repeat(u32),
    Accept(&'a Expr),
    Instance(&'a Instance),
    Setting(&'a Setting),
    Connect(&'a Wire),
    Stop(Literal),
    Longest(Literal),
    Zero(u32),
    Rows(u32),
    Sample(&'a PortName),
}

/// Why a walk stopped.
#[derive(Clone, Copy, Debug, PartialEq, Eq)]
pub enum Stop {
    /// At the line with this number, counted from 1, which breaks the rule, or is the one that was
    /// searched.
    At(u32),
    /// There are more lines than 32 bits count.
    Full,
}

/// The question that a walk asks of each line, and the tables of the system.
#[derive(Clone, Copy)]
pub(crate) struct Walker<'w, 's> {
    question: Question<'w>,
    tables: &'w SystemTables<'s>,
}

impl Walker<'_, '_> {
    /// The system.
    fn system(&self) -> &System
        ensures { result.now ≡ self.now.tables.now }
    {
        self.tables.names().system()
    }

    /// The number after a line, unless it passes the test.
    fn past(
        &self,
        scope: ScopeRef<'_, '_>,
        place: usize,
        line: FormRef<'_>,
        number: u32,
    ) -> Result<u32, Stop>
        ensures { result ≡ past (asked_of self.now.question self.now.tables.now (scope_of scope.entry) place (form_of line.entry)) number }
    {
        if answers(self.question, self.tables, scope, place, line) {
            Err(Stop::At(number))
        } else if number == u32::MAX {
            Err(Stop::Full)
        } else {
            Ok(number + 1)
        }
    }

    /// The number after a line whose place is counted from a first number.
    fn past_from(
        &self,
        scope: ScopeRef<'_, '_>,
        first: u32,
        line: FormRef<'_>,
        number: u32,
    ) -> Result<u32, Stop>
        ensures { result ≡ past_from (asked_of self.now.question self.now.tables.now (scope_of scope.entry)) first (form_of line.entry) number }
    {
        self.past(scope, number.saturating_sub(first) as usize, line, number)
    }
}

/// The number after a line of a step and its block.
#[cycle(steps)]
fn past_line(
    walker: &Walker<'_, '_>,
    unit: &UnitNames<'_>,
    first: u32,
    line: &Line,
    number: u32,
) -> Result<u32, Stop>
    ensures { result ≡ line_walk (past_from (asked_of walker.now.question walker.now.tables.now (StepScope unit.now)) first) line.now number }
{
    let scope = ScopeRef::Step(unit);
    match line {
        Line::Assign { target, value } => walker.past_from(
            scope,
            first,
            FormRef::Assign { target, value },
            number,
        ),
        Line::If { cond, yes, no } => {
            let number = walker.past_from(scope, first, FormRef::If(cond), number)?;
            let number = past_lines(walker, unit, first, yes.as_slice(), number)?;
            match no {
                Some(no) => {
                    let number = walker.past_from(scope, first, FormRef::Else, number)?;
                    let number = past_lines(walker, unit, first, no.as_slice(), number)?;
                    walker.past_from(scope, first, FormRef::End, number)
                }
                None => walker.past_from(scope, first, FormRef::End, number),
            }
        }
        Line::Repeat { count, body } => {
            let number = walker.past_from(scope, first, FormRef::Repeat(*count), number)?;
            let number = past_lines(walker, unit, first, body.as_slice(), number)?;
            walker.past_from(scope, first, FormRef::End, number)
        }
        Line::Accept { value } => walker.past_from(scope, first, FormRef::Accept(value), number),
    }
}

/// The number after lines of a step and their blocks.
#[cycle(steps)]
fn past_lines(
    walker: &Walker<'_, '_>,
    unit: &UnitNames<'_>,
    first: u32,
    lines: &[Line],
    number: u32,
) -> Result<u32, Stop>
    ensures { result ≡ each (line_walk (past_from (asked_of walker.now.question walker.now.tables.now (StepScope unit.now)) first)) lines.now number }
{
    let mut next = number;
    for line in lines {
        next = past_line(walker, unit, first, line, next)?;
    }
    Ok(next)
}

ghost use Rattle.unit_tree.specs.Sites.{TopScope, UnitScope, StepScope, InstanceScope};

/// The number after a step, with its own `step` and `end`.
fn past_step(
    walker: &Walker<'_, '_>,
    unit: &UnitNames<'_>,
    lines: &[Line],
    number: u32,
) -> Result<u32, Stop>
    ensures { result ≡ step_walk (asked_of walker.now.question walker.now.tables.now) unit.now lines.now number }
{
    let first = walker.past(ScopeRef::Unit(unit), 0, FormRef::Step, number)?;
    let number = past_lines(walker, unit, first, lines, first)?;
    walker.past(ScopeRef::Unit(unit), 0, FormRef::End, number)
}

fn past_params(
    walker: &Walker<'_, '_>,
    unit: &UnitNames<'_>,
    first: u32,
    number: u32,
) -> Result<u32, Stop>
    ensures { result ≡ each (λ param. past_from (asked_of walker.now.question walker.now.tables.now (UnitScope unit.now)) first (form.Param param)) unit.now.params number }
{
    let mut next = number;
    for param in unit.unit().params.as_slice() {
        next = walker.past_from(ScopeRef::Unit(unit), first, FormRef::Param(param), next)?;
    }
    Ok(next)
}

fn past_states(
    walker: &Walker<'_, '_>,
    unit: &UnitNames<'_>,
    first: u32,
    number: u32,
) -> Result<u32, Stop>
    ensures { result ≡ each (λ state. past_from (asked_of walker.now.question walker.now.tables.now (UnitScope unit.now)) first (form.State state)) unit.now.states number }
{
    let mut next = number;
    for state in unit.unit().states.as_slice() {
        next = walker.past_from(ScopeRef::Unit(unit), first, FormRef::State(state), next)?;
    }
    Ok(next)
}

fn past_locals(
    walker: &Walker<'_, '_>,
    unit: &UnitNames<'_>,
    first: u32,
    number: u32,
) -> Result<u32, Stop>
    ensures { result ≡ each (λ local. past_from (asked_of walker.now.question walker.now.tables.now (UnitScope unit.now)) first (form.Local local)) unit.now.locals number }
{
    let mut next = number;
    for local in unit.unit().locals.as_slice() {
        next = walker.past_from(ScopeRef::Unit(unit), first, FormRef::Local(local), next)?;
    }
    Ok(next)
}

fn past_inputs(
    walker: &Walker<'_, '_>,
    unit: &UnitNames<'_>,
    first: u32,
    number: u32,
) -> Result<u32, Stop>
    ensures { result ≡ each (λ input. past_from (asked_of walker.now.question walker.now.tables.now (UnitScope unit.now)) first (form.Input input)) unit.now.inputs number }
{
    let mut next = number;
    for input in unit.unit().inputs.as_slice() {
        next = walker.past_from(ScopeRef::Unit(unit), first, FormRef::Input(input), next)?;
    }
    Ok(next)
}

fn past_events_in(
    walker: &Walker<'_, '_>,
    unit: &UnitNames<'_>,
    first: u32,
    number: u32,
) -> Result<u32, Stop>
    ensures { result ≡ each (λ event. past_from (asked_of walker.now.question walker.now.tables.now (UnitScope unit.now)) first (form.EventInput event)) unit.now.events_in number }
{
    let mut next = number;
    for event in unit.unit().events_in.as_slice() {
        next = walker.past_from(
            ScopeRef::Unit(unit),
            first,
            FormRef::EventInput(event),
            next,
        )?;
    }
    Ok(next)
}

fn past_outputs(
    walker: &Walker<'_, '_>,
    unit: &UnitNames<'_>,
    first: u32,
    number: u32,
) -> Result<u32, Stop>
    ensures { result ≡ each (λ output. past_from (asked_of walker.now.question walker.now.tables.now (UnitScope unit.now)) first (form.Output output)) unit.now.outputs number }
{
    let mut next = number;
    for output in unit.unit().outputs.as_slice() {
        next = walker.past_from(ScopeRef::Unit(unit), first, FormRef::Output(output), next)?;
    }
    Ok(next)
}

fn past_events_out(
    walker: &Walker<'_, '_>,
    unit: &UnitNames<'_>,
    first: u32,
    number: u32,
) -> Result<u32, Stop>
    ensures { result ≡ each (λ event. past_from (asked_of walker.now.question walker.now.tables.now (UnitScope unit.now)) first (form.EventOutput event)) unit.now.events_out number }
{
    let mut next = number;
    for event in unit.unit().events_out.as_slice() {
        next = walker.past_from(
            ScopeRef::Unit(unit),
            first,
            FormRef::EventOutput(event),
            next,
        )?;
    }
    Ok(next)
}

fn past_plain_names(
    walker: &Walker<'_, '_>,
    unit: &UnitNames<'_>,
    first: u32,
    number: u32,
) -> Result<u32, Stop>
    ensures { result ≡ plain_names_walk (past_from (asked_of walker.now.question walker.now.tables.now (UnitScope unit.now)) first) unit.now number }
{
    let number = past_params(walker, unit, first, number)?;
    let number = past_states(walker, unit, first, number)?;
    past_locals(walker, unit, first, number)
}

fn past_ports(
    walker: &Walker<'_, '_>,
    unit: &UnitNames<'_>,
    first: u32,
    number: u32,
) -> Result<u32, Stop>
    ensures { result ≡ ports_walk (past_from (asked_of walker.now.question walker.now.tables.now (UnitScope unit.now)) first) unit.now number }
{
    let number = past_inputs(walker, unit, first, number)?;
    let number = past_events_in(walker, unit, first, number)?;
    let number = past_outputs(walker, unit, first, number)?;
    past_events_out(walker, unit, first, number)
}

/// The number after the lines of a unit that declare names.
fn past_names(walker: &Walker<'_, '_>, unit: &UnitNames<'_>, number: u32) -> Result<u32, Stop>
    ensures { result ≡ names_walk (past_from (asked_of walker.now.question walker.now.tables.now (UnitScope unit.now)) number) unit.now number }
{
    let first = number;
    let number = past_plain_names(walker, unit, first, number)?;
    past_ports(walker, unit, first, number)
}

fn past_resolution(walker: &Walker<'_, '_>, unit: &UnitNames<'_>, number: u32) -> Result<u32, Stop>
    ensures { result ≡ if_given (λ decimals. past (asked_of walker.now.question walker.now.tables.now (UnitScope unit.now) 0 (form.Resolution decimals))) unit.now.resolution number }
{
    match unit.unit().resolution {
        Some(decimals) => walker.past(
            ScopeRef::Unit(unit),
            0,
            FormRef::Resolution(decimals),
            number,
        ),
        None => Ok(number),
    }
}

fn past_max(walker: &Walker<'_, '_>, unit: &UnitNames<'_>, number: u32) -> Result<u32, Stop>
    ensures { result ≡ if_given (λ value. past (asked_of walker.now.question walker.now.tables.now (UnitScope unit.now) 0 (form.Max value))) unit.now.max number }
{
    match &unit.unit().max {
        Some(value) => walker.past(ScopeRef::Unit(unit), 0, FormRef::Max(value), number),
        None => Ok(number),
    }
}

fn past_given_step(walker: &Walker<'_, '_>, unit: &UnitNames<'_>, number: u32) -> Result<u32, Stop>
    ensures { result ≡ if_given (step_walk (asked_of walker.now.question walker.now.tables.now) unit.now) unit.now.step number }
{
    match &unit.unit().step {
        Some(lines) => past_step(walker, unit, lines.as_slice(), number),
        None => Ok(number),
    }
}

/// The number after `max` and the step of a unit, and its `end`.
fn past_behaviour(walker: &Walker<'_, '_>, unit: &UnitNames<'_>, number: u32) -> Result<u32, Stop>
    ensures { result ≡ behaviour_walk (asked_of walker.now.question walker.now.tables.now) unit.now number }
{
    let number = past_max(walker, unit, number)?;
    let number = past_given_step(walker, unit, number)?;
    walker.past(ScopeRef::Unit(unit), 0, FormRef::End, number)
}

/// The number after the block of a unit.
fn past_unit(walker: &Walker<'_, '_>, unit: &UnitNames<'_>, number: u32) -> Result<u32, Stop>
    ensures { result ≡ unit_walk (asked_of walker.now.question walker.now.tables.now) unit.now number }
{
    let number = past_resolution(walker, unit, number)?;
    let number = past_names(walker, unit, number)?;
    past_behaviour(walker, unit, number)
}

/// The number after the unit at a place and its block, if there is one.
fn past_numbered(walker: &Walker<'_, '_>, place: usize, number: u32) -> Result<u32, Stop>
    ensures { result ≡ numbered_walk (asked_of walker.now.question walker.now.tables.now) place (slice_get walker.now.tables.now.units place) number }
{
    match walker.tables.names().unit(place) {
        Some(unit) => {
            let head = FormRef::Unit(&unit.unit().name);
            let number = walker.past(ScopeRef::Top, place, head, number)?;
            past_unit(walker, unit, number)
        }
        None => Ok(number),
    }
}

#[tactic(auto, using(crate::proofs::NumberedWalks::unit_on))]
fn past_units(walker: &Walker<'_, '_>, number: u32) -> Result<u32, Stop>
    ensures { result ≡ units_walk (asked_of walker.now.question walker.now.tables.now) 0 walker.now.tables.now.units number }
{
    let mut next = number;
    for place in 0..walker.system().units.len() {
        next = past_numbered(walker, place, next)?;
    }
    Ok(next)
}

fn past_settings(walker: &Walker<'_, '_>, instance: &Instance, number: u32) -> Result<u32, Stop>
    ensures { result ≡ each (λ setting. past_from (asked_of walker.now.question walker.now.tables.now (InstanceScope instance.now)) number (form.Setting setting)) instance.now.settings number }
{
    let mut next = number;
    for setting in instance.settings.as_slice() {
        next = walker.past_from(
            ScopeRef::Instance(instance),
            number,
            FormRef::Setting(setting),
            next,
        )?;
    }
    Ok(next)
}

/// The number after the block of an instance.
fn past_instance(walker: &Walker<'_, '_>, instance: &Instance, number: u32) -> Result<u32, Stop>
    ensures { result ≡ instance_walk (asked_of walker.now.question walker.now.tables.now) instance.now number }
{
    let number = past_settings(walker, instance, number)?;
    walker.past(ScopeRef::Instance(instance), 0, FormRef::End, number)
}

fn past_instances(walker: &Walker<'_, '_>, number: u32) -> Result<u32, Stop>
    ensures { result ≡ instances_walk (asked_of walker.now.question walker.now.tables.now) 0 walker.now.tables.now.instances number }
{
    let mut next = number;
    for (place, instance) in walker.system().instances.as_slice().iter().enumerate() {
        next = walker.past(ScopeRef::Top, place, FormRef::Instance(instance), next)?;
        next = past_instance(walker, instance, next)?;
    }
    Ok(next)
}

fn past_wires(walker: &Walker<'_, '_>, number: u32) -> Result<u32, Stop>
    ensures { result ≡ each (λ wire. past_from (asked_of walker.now.question walker.now.tables.now TopScope) number (form.Connect wire)) walker.now.tables.now.wires number }
{
    let mut next = number;
    for wire in walker.system().wires.as_slice() {
        next = walker.past_from(ScopeRef::Top, number, FormRef::Connect(wire), next)?;
    }
    Ok(next)
}

fn past_samples(walker: &Walker<'_, '_>, number: u32) -> Result<u32, Stop>
    ensures { result ≡ each (λ port. past_from (asked_of walker.now.question walker.now.tables.now TopScope) number (form.Sample port)) walker.now.tables.now.samples number }
{
    let mut next = number;
    for port in walker.system().samples.as_slice() {
        next = walker.past_from(ScopeRef::Top, number, FormRef::Sample(port), next)?;
    }
    Ok(next)
}

/// The number after the units, the instances and the connections of a system.
fn past_parts(walker: &Walker<'_, '_>, number: u32) -> Result<u32, Stop>
    ensures { result ≡ parts_walk (asked_of walker.now.question walker.now.tables.now) walker.now.tables.now number }
{
    let number = past_units(walker, number)?;
    let number = past_instances(walker, number)?;
    past_wires(walker, number)
}

fn past_stop(walker: &Walker<'_, '_>, given: Option<Literal>, number: u32) -> Result<u32, Stop>
    ensures { result ≡ if_given (λ seconds. past (asked_of walker.now.question walker.now.tables.now TopScope 0 (form.Stop seconds))) given number }
{
    match given {
        Some(seconds) => walker.past(ScopeRef::Top, 0, FormRef::Stop(seconds), number),
        None => Ok(number),
    }
}

fn past_longest(walker: &Walker<'_, '_>, given: Option<Literal>, number: u32) -> Result<u32, Stop>
    ensures { result ≡ if_given (λ seconds. past (asked_of walker.now.question walker.now.tables.now TopScope 0 (form.Longest seconds))) given number }
{
    match given {
        Some(seconds) => walker.past(ScopeRef::Top, 0, FormRef::Longest(seconds), number),
        None => Ok(number),
    }
}

fn past_zero(walker: &Walker<'_, '_>, given: Option<u32>, number: u32) -> Result<u32, Stop>
    ensures { result ≡ if_given (λ count. past (asked_of walker.now.question walker.now.tables.now TopScope 0 (form.Zero count))) given number }
{
    match given {
        Some(count) => walker.past(ScopeRef::Top, 0, FormRef::Zero(count), number),
        None => Ok(number),
    }
}

fn past_rows(walker: &Walker<'_, '_>, given: Option<u32>, number: u32) -> Result<u32, Stop>
    ensures { result ≡ if_given (λ count. past (asked_of walker.now.question walker.now.tables.now TopScope 0 (form.Rows count))) given number }
{
    match given {
        Some(count) => walker.past(ScopeRef::Top, 0, FormRef::Rows(count), number),
        None => Ok(number),
    }
}

/// The number after the lines that set the limits of a run.
fn past_limits(walker: &Walker<'_, '_>, number: u32) -> Result<u32, Stop>
    ensures { result ≡ limits_walk (asked_of walker.now.question walker.now.tables.now TopScope 0) walker.now.tables.now number }
{
    let number = past_stop(walker, walker.system().stop, number)?;
    let number = past_longest(walker, walker.system().longest, number)?;
    let number = past_zero(walker, walker.system().zero, number)?;
    past_rows(walker, walker.system().rows, number)
}

/// The number after the last line.
fn past_system(walker: &Walker<'_, '_>) -> Result<u32, Stop>
    ensures { result ≡ system_walk (asked_of walker.now.question walker.now.tables.now) walker.now.tables.now 1 }
{
    let number = walker.past(
        ScopeRef::Top,
        0,
        FormRef::Header(walker.system().version),
        1,
    )?;
    let number = past_parts(walker, number)?;
    let number = past_limits(walker, number)?;
    past_samples(walker, number)
}

/// The number after the last line, or why a walk with this question stops.
pub(crate) fn past_all(question: Question<'_>, tables: &SystemTables<'_>) -> Result<u32, Stop>
    ensures { result ≡ system_walk (asked_of question.entry tables.now) tables.now 1 }
{
    let walker = Walker { question, tables };
    past_system(&walker)
}

/// Stops at the first line that breaks a rule; else the number after the last line.
pub(crate) fn first_broken_line(rule: SystemRule, tables: &SystemTables<'_>) -> Result<u32, Stop>
    requires ranged { IsRanged tables.now }
    ensures { Says result (lines_breaking (defined rule) tables.now) }
{
    past_all(Question::Breaks(rule), tables)
}
