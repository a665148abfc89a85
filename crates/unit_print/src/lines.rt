//! Lines, a function for each kind.
ghost use Rattle.std.specs.Prelude.{◌≡◌, ◌++◌, ◌∷◌, [], OnOk};
ghost use Rattle.unit_tree.specs.Canonical.{literal_tokens};
ghost use Rattle.unit_tree.specs.LineForms.{type_tokens, port_tokens, declaration, needs_tokens};
ghost use Rattle.unit_tree.specs.declared.line_form.LineForm.TheVariants as form;
ghost use Rattle.unit_print.specs.Growing.{with_tokens, with_lines, others_tokens};

use crate::expressions::{expression, truth};
use crate::tokens::{keyword, name, number, symbol, whole};
use fixed_words::{Literal, NoMemory, Ty};
use unit_tree::{
    EventIn, EventOut, Expr, Input, Keyword, Local, Name, Output, Param, PortName, Setting, State,
    Symbol, Wire,
};

/// Appends a type.
fn type_name(text: &mut Vec<u8>, ty: Ty) -> Result<(), NoMemory>
    ensures { OnOk result (text.new.items ≡ with_tokens text.old.items (type_tokens ty)) }
{
    match ty {
        Ty::Int8 => name(text, b"Int8"),
        Ty::UInt8 => name(text, b"UInt8"),
        Ty::Int16 => name(text, b"Int16"),
        Ty::UInt16 => name(text, b"UInt16"),
        Ty::Int32 => name(text, b"Int32"),
        Ty::UInt32 => name(text, b"UInt32"),
        Ty::Int64 => name(text, b"Int64"),
        Ty::Bool => name(text, b"Bool"),
        Ty::Fixed(decimals) => {
            name(text, b"Fixed")?;
            whole(text, u32::from(decimals))
        }
    }
}

/// Appends a literal, with `-` only before a negative number.
fn literal(text: &mut Vec<u8>, value: Literal) -> Result<(), NoMemory>
    ensures { OnOk result (text.new.items ≡ with_tokens text.old.items (literal_tokens value)) }
{
    match value {
        Literal::Truth(told) => truth(text, told),
        Literal::Number { word, decimals } => {
            if word < 0 {
                symbol(text, Symbol::Minus)?;
            }
            number(text, word.unsigned_abs(), decimals)
        }
    }
}

/// Appends a port, `a.y`.
fn port_name(text: &mut Vec<u8>, port: &PortName) -> Result<(), NoMemory>
    ensures { OnOk result (text.new.items ≡ with_tokens text.old.items (port_tokens port.now)) }
{
    name(text, port.instance.as_slice())?;
    symbol(text, Symbol::Point)?;
    name(text, port.port.as_slice())
}

/// Appends a keyword and `p : T`.
fn declared(text: &mut Vec<u8>, word: Keyword, called: &Name, ty: Ty) -> Result<(), NoMemory>
    ensures { OnOk result (text.new.items ≡ with_tokens text.old.items (declaration word called.now ty)) }
{
    keyword(text, word)?;
    name(text, called.as_slice())?;
    symbol(text, Symbol::Colon)?;
    type_name(text, ty)
}

/// Appends names with a comma before each.
fn other_names(text: &mut Vec<u8>, names: &[Name]) -> Result<(), NoMemory>
    ensures { OnOk result (text.new.items ≡ with_tokens text.old.items (others_tokens names.now)) }
{
    for other in names {
        symbol(text, Symbol::Comma)?;
        name(text, other.as_slice())?;
    }
    Ok(())
}

/// Appends `needs u, v`, or nothing where there are no needs.
#[tactic(auto, using(crate::proofs::GrowingTexts::names_are))]
fn needed(text: &mut Vec<u8>, names: &[Name]) -> Result<(), NoMemory>
    ensures { OnOk result (text.new.items ≡ with_tokens text.old.items (needs_tokens names.now)) }
{
    match names {
        [] => Ok(()),
        [first, others @ ..] => {
            keyword(text, Keyword::Needs)?;
            name(text, first.as_slice())?;
            other_names(text, others)
        }
    }
}

/// Appends the end of a line.
fn end_line(text: &mut Vec<u8>) -> Result<(), NoMemory>
    ensures { OnOk result (text.new.items ≡ text.old.items ++ (10 ∷ [])) }
{
    text.push(b'\n')?;
    Ok(())
}

/// `param p : T = L`
#[tactic(auto, using(crate::proofs::GrowingTexts::tokens_append))]
pub(crate) fn param(text: &mut Vec<u8>, param: &Param) -> Result<(), NoMemory>
    ensures { OnOk result (text.new.items ≡ with_lines text.old.items (form.Param param.now ∷ [])) }
{
    declared(text, Keyword::Param, &param.name, param.ty)?;
    symbol(text, Symbol::Is)?;
    literal(text, param.start)?;
    end_line(text)
}

/// `state s : T = L`
#[tactic(auto, using(crate::proofs::GrowingTexts::tokens_append))]
pub(crate) fn state(text: &mut Vec<u8>, state: &State) -> Result<(), NoMemory>
    ensures { OnOk result (text.new.items ≡ with_lines text.old.items (form.State state.now ∷ [])) }
{
    declared(text, Keyword::State, &state.name, state.ty)?;
    symbol(text, Symbol::Is)?;
    literal(text, state.start)?;
    end_line(text)
}

/// `local x : T`
#[tactic(auto, using(crate::proofs::GrowingTexts::tokens_append))]
pub(crate) fn local(text: &mut Vec<u8>, local: &Local) -> Result<(), NoMemory>
    ensures { OnOk result (text.new.items ≡ with_lines text.old.items (form.Local local.now ∷ [])) }
{
    declared(text, Keyword::Local, &local.name, local.ty)?;
    end_line(text)
}

/// `input u : T = L`
#[tactic(auto, using(crate::proofs::GrowingTexts::tokens_append))]
pub(crate) fn input(text: &mut Vec<u8>, input: &Input) -> Result<(), NoMemory>
    ensures { OnOk result (text.new.items ≡ with_lines text.old.items (form.Input input.now ∷ [])) }
{
    declared(text, Keyword::Input, &input.name, input.ty)?;
    symbol(text, Symbol::Is)?;
    literal(text, input.start)?;
    end_line(text)
}

/// `event input u : T`
#[tactic(auto, using(crate::proofs::GrowingTexts::tokens_append))]
pub(crate) fn event_input(text: &mut Vec<u8>, event: &EventIn) -> Result<(), NoMemory>
    ensures { OnOk result (text.new.items ≡ with_lines text.old.items (form.EventInput event.now ∷ [])) }
{
    keyword(text, Keyword::Event)?;
    declared(text, Keyword::Input, &event.name, event.ty)?;
    end_line(text)
}

/// `output y : T needs u, v = e`
#[tactic(auto, using(crate::proofs::GrowingTexts::tokens_append))]
pub(crate) fn output(text: &mut Vec<u8>, output: &Output) -> Result<(), NoMemory>
    ensures { OnOk result (text.new.items ≡ with_lines text.old.items (form.Output output.now ∷ [])) }
{
    declared(text, Keyword::Output, &output.name, output.ty)?;
    needed(text, output.needs.as_slice())?;
    symbol(text, Symbol::Is)?;
    expression(text, &output.value)?;
    end_line(text)
}

/// `event output y : T needs u, v = e`
#[tactic(auto, using(crate::proofs::GrowingTexts::tokens_append))]
pub(crate) fn event_output(text: &mut Vec<u8>, event: &EventOut) -> Result<(), NoMemory>
    ensures { OnOk result (text.new.items ≡ with_lines text.old.items (form.EventOutput event.now ∷ [])) }
{
    keyword(text, Keyword::Event)?;
    declared(text, Keyword::Output, &event.name, event.ty)?;
    needed(text, event.needs.as_slice())?;
    symbol(text, Symbol::Is)?;
    expression(text, &event.value)?;
    end_line(text)
}

/// `max e`
#[tactic(auto, using(crate::proofs::GrowingTexts::tokens_append))]
pub(crate) fn max(text: &mut Vec<u8>, value: &Expr) -> Result<(), NoMemory>
    ensures { OnOk result (text.new.items ≡ with_lines text.old.items (form.Max value.now ∷ [])) }
{
    keyword(text, Keyword::Max)?;
    expression(text, value)?;
    end_line(text)
}

/// `accept e`
#[tactic(auto, using(crate::proofs::GrowingTexts::tokens_append))]
pub(crate) fn accept(text: &mut Vec<u8>, value: &Expr) -> Result<(), NoMemory>
    ensures { OnOk result (text.new.items ≡ with_lines text.old.items (form.Accept value.now ∷ [])) }
{
    keyword(text, Keyword::Accept)?;
    expression(text, value)?;
    end_line(text)
}

/// `if e`
#[tactic(auto, using(crate::proofs::GrowingTexts::tokens_append))]
pub(crate) fn head_of_if(text: &mut Vec<u8>, value: &Expr) -> Result<(), NoMemory>
    ensures { OnOk result (text.new.items ≡ with_lines text.old.items (form.If value.now ∷ [])) }
{
    keyword(text, Keyword::If)?;
    expression(text, value)?;
    end_line(text)
}

/// `step`
#[tactic(auto, using(crate::proofs::GrowingTexts::tokens_append))]
pub(crate) fn step(text: &mut Vec<u8>) -> Result<(), NoMemory>
    ensures { OnOk result (text.new.items ≡ with_lines text.old.items (form.Step ∷ [])) }
{
    keyword(text, Keyword::Step)?;
    end_line(text)
}

/// `end`
#[tactic(auto, using(crate::proofs::GrowingTexts::tokens_append))]
pub(crate) fn end(text: &mut Vec<u8>) -> Result<(), NoMemory>
    ensures { OnOk result (text.new.items ≡ with_lines text.old.items (form.End ∷ [])) }
{
    keyword(text, Keyword::End)?;
    end_line(text)
}

/// `else`
#[tactic(auto, using(crate::proofs::GrowingTexts::tokens_append))]
pub(crate) fn head_of_else(text: &mut Vec<u8>) -> Result<(), NoMemory>
    ensures { OnOk result (text.new.items ≡ with_lines text.old.items (form.Else ∷ [])) }
{
    keyword(text, Keyword::Else)?;
    end_line(text)
}

/// `cosim V`
#[tactic(auto, using(crate::proofs::GrowingTexts::tokens_append))]
pub(crate) fn header(text: &mut Vec<u8>, version: u8) -> Result<(), NoMemory>
    ensures { OnOk result (text.new.items ≡ with_lines text.old.items (form.Header version ∷ [])) }
{
    keyword(text, Keyword::Cosim)?;
    whole(text, u32::from(version))?;
    end_line(text)
}

/// `resolution E`
#[tactic(auto, using(crate::proofs::GrowingTexts::tokens_append))]
pub(crate) fn resolution(text: &mut Vec<u8>, decimals: u8) -> Result<(), NoMemory>
    ensures { OnOk result (text.new.items ≡ with_lines text.old.items (form.Resolution decimals ∷ [])) }
{
    keyword(text, Keyword::Resolution)?;
    whole(text, u32::from(decimals))?;
    end_line(text)
}

/// `repeat K`
#[tactic(auto, using(crate::proofs::GrowingTexts::tokens_append))]
pub(crate) fn repeat(text: &mut Vec<u8>, count: u32) -> Result<(), NoMemory>
    ensures { OnOk result (text.new.items ≡ with_lines text.old.items (form.Repeat count ∷ [])) }
{
    keyword(text, Keyword::Repeat)?;
    whole(text, count)?;
    end_line(text)
}

/// `zero Z`
#[tactic(auto, using(crate::proofs::GrowingTexts::tokens_append))]
pub(crate) fn zero(text: &mut Vec<u8>, count: u32) -> Result<(), NoMemory>
    ensures { OnOk result (text.new.items ≡ with_lines text.old.items (form.Zero count ∷ [])) }
{
    keyword(text, Keyword::Zero)?;
    whole(text, count)?;
    end_line(text)
}

/// `rows R`
#[tactic(auto, using(crate::proofs::GrowingTexts::tokens_append))]
pub(crate) fn rows(text: &mut Vec<u8>, count: u32) -> Result<(), NoMemory>
    ensures { OnOk result (text.new.items ≡ with_lines text.old.items (form.Rows count ∷ [])) }
{
    keyword(text, Keyword::Rows)?;
    whole(text, count)?;
    end_line(text)
}

/// `unit A`
#[tactic(auto, using(crate::proofs::GrowingTexts::tokens_append))]
pub(crate) fn unit_head(text: &mut Vec<u8>, unit: &Name) -> Result<(), NoMemory>
    ensures { OnOk result (text.new.items ≡ with_lines text.old.items (form.Unit unit.now ∷ [])) }
{
    keyword(text, Keyword::Unit)?;
    name(text, unit.as_slice())?;
    end_line(text)
}

/// `x := e`
#[tactic(auto, using(crate::proofs::GrowingTexts::tokens_append))]
pub(crate) fn assign(text: &mut Vec<u8>, target: &Name, value: &Expr) -> Result<(), NoMemory>
    ensures { OnOk result (text.new.items ≡ with_lines text.old.items (form.Assign target.now value.now ∷ [])) }
{
    name(text, target.as_slice())?;
    symbol(text, Symbol::Assign)?;
    expression(text, value)?;
    end_line(text)
}

/// `instance a : A`
#[tactic(auto, using(crate::proofs::GrowingTexts::tokens_append))]
pub(crate) fn instance_head(
    text: &mut Vec<u8>,
    instance: &Name,
    unit: &Name,
) -> Result<(), NoMemory>
    ensures { OnOk result (text.new.items ≡ with_lines text.old.items (form.Instance instance.now unit.now ∷ [])) }
{
    keyword(text, Keyword::Instance)?;
    name(text, instance.as_slice())?;
    symbol(text, Symbol::Colon)?;
    name(text, unit.as_slice())?;
    end_line(text)
}

/// `p = L`
#[tactic(auto, using(crate::proofs::GrowingTexts::tokens_append))]
pub(crate) fn setting(text: &mut Vec<u8>, setting: &Setting) -> Result<(), NoMemory>
    ensures { OnOk result (text.new.items ≡ with_lines text.old.items (form.Setting setting.now ∷ [])) }
{
    name(text, setting.name.as_slice())?;
    symbol(text, Symbol::Is)?;
    literal(text, setting.value)?;
    end_line(text)
}

/// `connect a.y -> b.u`
#[tactic(auto, using(crate::proofs::GrowingTexts::tokens_append))]
pub(crate) fn connect(text: &mut Vec<u8>, wire: &Wire) -> Result<(), NoMemory>
    ensures { OnOk result (text.new.items ≡ with_lines text.old.items (form.Connect wire.now ∷ [])) }
{
    keyword(text, Keyword::Connect)?;
    port_name(text, &wire.from)?;
    symbol(text, Symbol::Arrow)?;
    port_name(text, &wire.to)?;
    end_line(text)
}

/// `stop S`
#[tactic(auto, using(crate::proofs::GrowingTexts::tokens_append))]
pub(crate) fn stop(text: &mut Vec<u8>, seconds: Literal) -> Result<(), NoMemory>
    ensures { OnOk result (text.new.items ≡ with_lines text.old.items (form.Stop seconds ∷ [])) }
{
    keyword(text, Keyword::Stop)?;
    literal(text, seconds)?;
    end_line(text)
}

/// `longest S`
#[tactic(auto, using(crate::proofs::GrowingTexts::tokens_append))]
pub(crate) fn longest(text: &mut Vec<u8>, seconds: Literal) -> Result<(), NoMemory>
    ensures { OnOk result (text.new.items ≡ with_lines text.old.items (form.Longest seconds ∷ [])) }
{
    keyword(text, Keyword::Longest)?;
    literal(text, seconds)?;
    end_line(text)
}

/// `sample a.y`
#[tactic(auto, using(crate::proofs::GrowingTexts::tokens_append))]
pub(crate) fn sample(text: &mut Vec<u8>, port: &PortName) -> Result<(), NoMemory>
    ensures { OnOk result (text.new.items ≡ with_lines text.old.items (form.Sample port.now ∷ [])) }
{
    keyword(text, Keyword::Sample)?;
    port_name(text, port)?;
    end_line(text)
}
