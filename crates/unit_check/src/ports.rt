//! Rules on connections and samples, and on items that occur twice.
ghost use Rattle.std.specs.Prelude.{◌≡◌, map};
ghost use Rattle.unit_check.specs.Joins.{differ_found};
ghost use Rattle.unit_check.specs.Places.{connects_again_at, repeats_at};
ghost use Rattle.unit_check.specs.Walks.{scope_of, form_of};
ghost use Rattle.unit_names.specs.Found.{first_place};
ghost use Rattle.fixed_words.specs.declared.types.Ty.TheVariants as form_ty;
ghost use Rattle.unit_tree.specs.declared.system.System.{System};
ghost use Rattle.unit_tree.specs.WellFormed.{same_type, joins_other_types};
ghost use Rattle.unit_tree.specs.declared.line_form.LineForm.TheVariants as form;

use crate::name_lines::is_before;
use crate::tables::SystemTables;
use crate::walk::{FormRef, ScopeRef};
use fixed_words::Ty;
use unit_names::{Declared, SystemNames, has_equals};
use unit_tree::{Name, Setting, Wire};

/// The first place of a parameter among those that are set.
fn first_setting(settings: &[Setting], name: &Name) -> Option<usize>
    ensures { result ≡ first_place (map (λ setting. setting.name) settings.now) name.now }
{
    for (place, setting) in settings.iter().enumerate() {
        if name.as_slice() == setting.name.as_slice() {
            return Some(place);
        }
    }
    None
}

/// Rule 13: whether the input of a connection is connected before.
pub(crate) fn connects_again(tables: &SystemTables<'_>, place: usize, line: FormRef<'_>) -> bool
    ensures { result ≡ connects_again_at tables.now place (form_of line.entry) }
{
    match line {
        FormRef::Connect(wire) => is_before(place, tables.first_connection(&wire.to)),
        _ => false,
    }
}

/// Whether two types are equal.
fn is_same_type(one: Ty, other: Ty) -> bool
    ensures { result ≡ same_type one other }
{
    match one {
        Ty::Int8 => matches!(other, Ty::Int8),
        Ty::UInt8 => matches!(other, Ty::UInt8),
        Ty::Int16 => matches!(other, Ty::Int16),
        Ty::UInt16 => matches!(other, Ty::UInt16),
        Ty::Int32 => matches!(other, Ty::Int32),
        Ty::UInt32 => matches!(other, Ty::UInt32),
        Ty::Int64 => matches!(other, Ty::Int64),
        Ty::Bool => matches!(other, Ty::Bool),
        Ty::Fixed(decimals) => is_fixed_of(decimals, other),
    }
}

fn is_fixed_of(decimals: u8, other: Ty) -> bool
    ensures { result ≡ same_type (form_ty.Fixed decimals) other }
{
    match other {
        Ty::Fixed(others) => decimals == others,
        _ => false,
    }
}

/// Whether the types of two ports are not equal, or only one is an event port.
fn differ(one: Option<Declared>, other: Option<Declared>) -> bool
    ensures { result ≡ differ_found one other }
{
    match (one, other) {
        (Some(one), Some(other)) => {
            !is_same_type(one.ty, other.ty) || one.is_event != other.is_event
        }
        _ => false,
    }
}

/// Whether the ends of a connection differ.
#[tactic(auto, using(crate::proofs::FoundPorts::ends_differ))]
fn joins_other_ports(names: &SystemNames<'_>, wire: &Wire) -> bool
    ensures { result ≡ joins_other_types names.now (form.Connect wire.now) }
{
    differ(names.output_at(&wire.from), names.input_at(&wire.to))
}

/// Rule 14: whether the ends of a connection have different types, or only one is an event port.
pub(crate) fn joins_other_types(names: &SystemNames<'_>, line: FormRef<'_>) -> bool
    ensures { result ≡ joins_other_types names.now (form_of line.entry) }
{
    match line {
        FormRef::Connect(wire) => joins_other_ports(names, wire),
        _ => false,
    }
}

/// Whether a parameter was set before.
fn sets_again(scope: ScopeRef<'_, '_>, place: usize, setting: &Setting) -> bool
    ensures { (system : System) → result ≡ repeats_at system (scope_of scope.entry) place (form.Setting setting.now) }
{
    match scope {
        ScopeRef::Instance(instance) => is_before(
            place,
            first_setting(instance.settings.as_slice(), &setting.name),
        ),
        _ => false,
    }
}

/// Rule 24: whether a parameter is set twice, a port sampled twice, or a need named twice.
pub(crate) fn repeats(
    tables: &SystemTables<'_>,
    scope: ScopeRef<'_, '_>,
    place: usize,
    line: FormRef<'_>,
) -> bool
    ensures { result ≡ repeats_at tables.now (scope_of scope.entry) place (form_of line.entry) }
{
    match line {
        FormRef::Setting(setting) => sets_again(scope, place, setting),
        FormRef::Sample(port) => is_before(place, tables.first_sample(port)),
        FormRef::Output(output) => has_equals(output.needs.as_slice()),
        FormRef::EventOutput(event) => has_equals(event.needs.as_slice()),
        _ => false,
    }
}
