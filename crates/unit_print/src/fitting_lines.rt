//! Tests of the lines of a printable system, a function for each kind, apart from their lengths.
//!
//! The test of a line with the same form in both versions is stated by its clause for version 1.
ghost use Rattle.std.specs.Prelude.{◌≡◌, ◌&&◌};
ghost use Rattle.std.specs.List.{list_all};
ghost use Rattle.unit_tree.specs.declared.line_form.LineForm.TheVariants as form;
ghost use Rattle.unit_print.specs.Fitting.{is_name, are_decimals, literal_fits, seconds_fit, line_fits};

use crate::fitting_expressions::expression_fits;
use crate::names::is_name;
use fixed_words::{Literal, Ty};
use model_rules::MOST_DECIMALS;
use unit_tree::{
    EventIn, EventOut, Input, Local, Name, Output, Param, PortName, Setting, State, Wire,
};

fn are_decimals(ty: Ty) -> bool
    ensures { result ≡ are_decimals ty }
{
    match ty {
        Ty::Fixed(decimals) => decimals <= MOST_DECIMALS,
        _ => true,
    }
}

fn literal_fits(value: Literal) -> bool
    ensures { result ≡ literal_fits value }
{
    match value {
        Literal::Truth(_) => true,
        Literal::Number { word: _, decimals } => decimals <= MOST_DECIMALS,
    }
}

/// Whether a literal is a number of seconds that may be written.
pub(crate) fn seconds_fit(value: Literal) -> bool
    ensures { result ≡ seconds_fit value }
{
    match value {
        Literal::Truth(_) => false,
        Literal::Number { word, decimals } => decimals <= MOST_DECIMALS && word >= 0,
    }
}

fn are_names(names: &[Name]) -> bool
    ensures { result ≡ list_all is_name names.now }
{
    names.iter().all(|name| is_name(name.as_slice()))
}

/// `param p : T = L`
pub(crate) fn param_fits(param: &Param) -> bool
    ensures { result ≡ line_fits 1 (form.Param param.now) }
{
    is_name(param.name.as_slice()) && are_decimals(param.ty) && literal_fits(param.start)
}

/// `state s : T = L`
pub(crate) fn state_fits(state: &State) -> bool
    ensures { result ≡ line_fits 1 (form.State state.now) }
{
    is_name(state.name.as_slice()) && are_decimals(state.ty) && literal_fits(state.start)
}

/// `local x : T`
pub(crate) fn local_fits(local: &Local) -> bool
    ensures { result ≡ line_fits 1 (form.Local local.now) }
{
    is_name(local.name.as_slice()) && are_decimals(local.ty)
}

/// `input u : T = L`
pub(crate) fn input_fits(input: &Input) -> bool
    ensures { result ≡ line_fits 1 (form.Input input.now) }
{
    is_name(input.name.as_slice()) && are_decimals(input.ty) && literal_fits(input.start)
}

/// `event input u : T`
pub(crate) fn event_input_fits(version: u8, event: &EventIn) -> bool
    ensures { result ≡ line_fits version (form.EventInput event.now) }
{
    is_name(event.name.as_slice()) && are_decimals(event.ty) && version == 2
}

/// `output y : T needs u, v = e`
pub(crate) fn output_fits(version: u8, output: &Output) -> bool
    ensures { result ≡ line_fits version (form.Output output.now) }
{
    is_name(output.name.as_slice())
        && are_names(output.needs.as_slice())
        && are_decimals(output.ty)
        && expression_fits(version, &output.value)
}

/// `event output y : T needs u, v = e`
pub(crate) fn event_output_fits(version: u8, event: &EventOut) -> bool
    ensures { result ≡ line_fits version (form.EventOutput event.now) }
{
    is_name(event.name.as_slice())
        && are_names(event.needs.as_slice())
        && are_decimals(event.ty)
        && expression_fits(version, &event.value)
        && version == 2
}

/// `p = L`
pub(crate) fn setting_fits(setting: &Setting) -> bool
    ensures { result ≡ line_fits 1 (form.Setting setting.now) }
{
    is_name(setting.name.as_slice()) && literal_fits(setting.value)
}

fn port_fits(port: &PortName) -> bool
    ensures { result ≡ (is_name port.now.instance && is_name port.now.port) }
{
    is_name(port.instance.as_slice()) && is_name(port.port.as_slice())
}

/// `connect a.y -> b.u`
pub(crate) fn wire_fits(wire: &Wire) -> bool
    ensures { result ≡ line_fits 1 (form.Connect wire.now) }
{
    port_fits(&wire.from) && port_fits(&wire.to)
}

/// `sample a.y`
pub(crate) fn sample_fits(port: &PortName) -> bool
    ensures { result ≡ line_fits 1 (form.Sample port.now) }
{
    port_fits(port)
}
