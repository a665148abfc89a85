//! Rules on names: how they are declared and used.
ghost use Rattle.std.specs.Prelude.{◌≡◌, is_none};
ghost use Rattle.unit_check.specs.Places.{is_before, declares_again, redeclares_at};
ghost use Rattle.unit_check.specs.Walks.{scope_of, form_of};
ghost use Rattle.unit_tree.specs.Sites.{TopScope, UnitScope, StepScope, InstanceScope};
ghost use Rattle.unit_names.specs.Found.{first_place, declared_names};
ghost use Rattle.unit_tree.specs.Names.{unit_of_instance, input_at, output_at};
ghost use Rattle.unit_tree.specs.declared.line_form.LineForm.TheVariants as form;
ghost use Rattle.unit_tree.specs.WellFormed.{name_declared, misuses, misnames, is_param_of, assigns_read_only, hides_need};

use crate::walk::{FormRef, ScopeRef};
use unit_names::{Asker, SystemNames, UnitNames};
use unit_tree::{Expr, Instance, Name, PortName, Setting, Wire};

/// Whether there is a first place, and it is before another place.
pub(crate) fn is_before(place: usize, first: Option<usize>) -> bool
    ensures { result ≡ is_before place first }
{
    match first {
        Some(first) => first < place,
        None => false,
    }
}

/// Rule 8, outside blocks.
fn redeclares_on_top(names: &SystemNames<'_>, place: usize, line: FormRef<'_>) -> bool
    ensures { result ≡ redeclares_at names.now TopScope place (form_of line.entry) }
{
    match line {
        FormRef::Unit(name) => is_before(place, names.first_unit(name.as_slice())),
        FormRef::Instance(instance) => is_before(
            place,
            names.first_instance(instance.name.as_slice()),
        ),
        _ => false,
    }
}

fn declares_again(unit: &UnitNames<'_>, place: usize, name: &Name) -> bool
    ensures { result ≡ is_before place (first_place (declared_names unit.now) name.now) }
{
    is_before(place, unit.first_place(name.as_slice()))
}

/// Rule 8, in a unit.
fn redeclares_in_unit(unit: &UnitNames<'_>, place: usize, line: FormRef<'_>) -> bool
    ensures { result ≡ declares_again unit.now place (name_declared (form_of line.entry)) }
{
    match line {
        FormRef::Param(param) => declares_again(unit, place, &param.name),
        FormRef::State(state) => declares_again(unit, place, &state.name),
        FormRef::Local(local) => declares_again(unit, place, &local.name),
        FormRef::Input(input) => declares_again(unit, place, &input.name),
        FormRef::EventInput(event) => declares_again(unit, place, &event.name),
        FormRef::Output(output) => declares_again(unit, place, &output.name),
        FormRef::EventOutput(event) => declares_again(unit, place, &event.name),
        _ => false,
    }
}

/// Rule 8: whether a name is declared again.
pub(crate) fn redeclares(
    names: &SystemNames<'_>,
    scope: ScopeRef<'_, '_>,
    place: usize,
    line: FormRef<'_>,
) -> bool
    ensures { result ≡ redeclares_at names.now (scope_of scope.entry) place (form_of line.entry) }
{
    match scope {
        ScopeRef::Top => redeclares_on_top(names, place, line),
        ScopeRef::Unit(unit) => redeclares_in_unit(unit, place, line),
        _ => false,
    }
}

/// Whether an output uses a name that it may not use, or a need is not an input.
fn misuses(unit: &UnitNames<'_>, needs: &[Name], value: &Expr) -> bool
    ensures { result ≡ misuses unit.now needs.now value.now }
{
    !unit.keeps_to(Asker::Output, value) || !unit.has_inputs(needs)
}

/// Rule 9, in a unit.
fn misnames_in_unit(names: &SystemNames<'_>, unit: &UnitNames<'_>, line: FormRef<'_>) -> bool
    ensures { result ≡ misnames names.now (UnitScope unit.now) (form_of line.entry) }
{
    match line {
        FormRef::Output(output) => misuses(unit, output.needs.as_slice(), &output.value),
        FormRef::EventOutput(event) => misuses(unit, event.needs.as_slice(), &event.value),
        FormRef::Max(value) => !unit.keeps_to(Asker::Max, value),
        _ => false,
    }
}

/// Rule 9, in a step.
fn misnames_in_step(names: &SystemNames<'_>, unit: &UnitNames<'_>, line: FormRef<'_>) -> bool
    ensures { result ≡ misnames names.now (StepScope unit.now) (form_of line.entry) }
{
    match line {
        FormRef::Assign { target, value } => {
            unit.type_in(target.as_slice()).is_none() || !unit.keeps_to(Asker::Step, value)
        }
        FormRef::If(cond) => !unit.keeps_to(Asker::Step, cond),
        FormRef::Accept(value) => !unit.keeps_to(Asker::Step, value),
        _ => false,
    }
}

/// Whether a name is a parameter of an instance's unit.
fn is_param_of(names: &SystemNames<'_>, instance: &Instance, setting: &Setting) -> bool
    ensures { result ≡ is_param_of (unit_of_instance names.now instance.now) setting.now.name }
{
    match names.unit_of(instance) {
        Some(unit) => unit.is_param(setting.name.as_slice()),
        None => false,
    }
}

/// Rule 9, in an instance.
fn misnames_in_instance(names: &SystemNames<'_>, instance: &Instance, line: FormRef<'_>) -> bool
    ensures { result ≡ misnames names.now (InstanceScope instance.now) (form_of line.entry) }
{
    match line {
        FormRef::Setting(setting) => !is_param_of(names, instance, setting),
        _ => false,
    }
}

/// Whether a connection is not from an output to an input.
fn misconnects(names: &SystemNames<'_>, wire: &Wire) -> bool
    ensures { result ≡ misnames names.now TopScope (form.Connect wire.now) }
{
    is_no_output(names, &wire.from) || is_no_input(names, &wire.to)
}

/// Whether a port is not an output.
#[tactic(auto, using(crate::proofs::FoundPorts::no_output))]
fn is_no_output(names: &SystemNames<'_>, port: &PortName) -> bool
    ensures { result ≡ is_none (output_at names.now port.now) }
{
    names.output_at(port).is_none()
}

/// Whether a port is not an input.
#[tactic(auto, using(crate::proofs::FoundPorts::no_input))]
fn is_no_input(names: &SystemNames<'_>, port: &PortName) -> bool
    ensures { result ≡ is_none (input_at names.now port.now) }
{
    names.input_at(port).is_none()
}

/// Rule 9, outside blocks.
fn misnames_on_top(names: &SystemNames<'_>, line: FormRef<'_>) -> bool
    ensures { result ≡ misnames names.now TopScope (form_of line.entry) }
{
    match line {
        FormRef::Instance(instance) => names.unit_of(instance).is_none(),
        FormRef::Connect(wire) => misconnects(names, wire),
        FormRef::Sample(port) => is_no_output(names, port),
        _ => false,
    }
}

/// Rule 9: whether a name is not declared, or may not be used there.
pub(crate) fn misnames(names: &SystemNames<'_>, scope: ScopeRef<'_, '_>, line: FormRef<'_>) -> bool
    ensures { result ≡ misnames names.now (scope_of scope.entry) (form_of line.entry) }
{
    match scope {
        ScopeRef::Top => misnames_on_top(names, line),
        ScopeRef::Unit(unit) => misnames_in_unit(names, unit, line),
        ScopeRef::Step(unit) => misnames_in_step(names, unit, line),
        ScopeRef::Instance(instance) => misnames_in_instance(names, instance, line),
    }
}

/// Rule 12: whether an output uses an input that is not in its needs.
pub(crate) fn hides_need(scope: ScopeRef<'_, '_>, line: FormRef<'_>) -> bool
    ensures { result ≡ hides_need (scope_of scope.entry) (form_of line.entry) }
{
    match (scope, line) {
        (ScopeRef::Unit(unit), FormRef::Output(output)) => {
            unit.uses_other_input(output.needs.as_slice(), &output.value)
        }
        (ScopeRef::Unit(unit), FormRef::EventOutput(event)) => {
            unit.uses_other_input(event.needs.as_slice(), &event.value)
        }
        _ => false,
    }
}

/// Rule 22: whether a parameter, an input or an output is assigned.
pub(crate) fn assigns_read_only(scope: ScopeRef<'_, '_>, line: FormRef<'_>) -> bool
    ensures { result ≡ assigns_read_only (scope_of scope.entry) (form_of line.entry) }
{
    match (scope, line) {
        (ScopeRef::Step(unit), FormRef::Assign { target, value: _ }) => {
            unit.is_read_only(target.as_slice())
        }
        _ => false,
    }
}
