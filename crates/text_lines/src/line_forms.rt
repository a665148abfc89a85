//! Reading of the form of a line.
ghost use Rattle.std.specs.Prelude.{◌≡◌, [], ◌∷◌, Some, None};
ghost use Rattle.text_tokens.specs.Scanning.{Gives, GivesWithRest, ReadsAs};
ghost use Rattle.unit_tree.specs.declared.token.Symbol.TheVariants as sign;
ghost use Rattle.unit_tree.specs.declared.token.Token.TheVariants as token;
ghost use Rattle.text_lines.specs.Expressions.{after_symbol, name_at, decimals_at};
ghost use Rattle.text_lines.specs.LineReading.{FormIs, LineHas, count_at, unsigned_type, plain_type, named_type, type_at, declaration_at, port_at, more_names, needs_at, number_literal, literal_of, seconds_of, last, started_of, output_of, header_form, unit_form, resolution_form, param_form, state_form, local_form, input_form, event_input_form, output_form, event_output_form, event_form, max_form, if_form, accept_form, repeat_form, instance_form, connect_form, stop_form, longest_form, zero_form, rows_form, sample_form, assign_form, setting_form, keyword_form, name_form, read_form};

use crate::expressions::{after_symbol, decimals_at, name_at, whole_expression};
use crate::lines::code;
use fixed_words::{List, Literal, Ty, signed_word};
use model_rules::{MOST_ROWS, MOST_TURNS, MOST_ZERO_STEPS};
use std::alloc::Global;
use text_tokens::{Unread, tokens};
use unit_tree::{
    EventIn, EventOut, Input, Keyword, LineForm, Local, Name, Output, Param, PortName, Setting,
    State, Symbol, Token, Wire,
};

/// The first number that does not fit a word of 64 bits.
const WORD_END: u64 = 1 << 63;

/// The newest version of the language.
const NEWEST_VERSION: u64 = 2;

/// The names of the unsigned integer types and of fixed point.
const UINT8: &[u8] = b"UInt8";

const UINT16: &[u8] = b"UInt16";

const UINT32: &[u8] = b"UInt32";

const FIXED: &[u8] = b"Fixed";

/// A whole number from `low` to `high`.
fn count_at(low: u32, high: u32, tokens: &[Token]) -> Result<(u32, &[Token]), Unread>
    ensures { GivesWithRest result (count_at low high tokens.now) }
{
    match tokens {
        [Token::Number { digits, decimals }, rest @ ..]
            if *decimals == 0 && u64::from(low) <= *digits && *digits <= u64::from(high) => {
            Ok((*digits as u32, rest))
        }
        _ => Err(Unread::NoForm),
    }
}

/// A version of the language.
fn version_at(tokens: &[Token]) -> Result<(u8, &[Token]), Unread>
    ensures { GivesWithRest result (count_at 1 2 tokens.now) }
{
    match tokens {
        [Token::Number { digits, decimals }, rest @ ..]
            if *decimals == 0 && 1 <= *digits && *digits <= NEWEST_VERSION => {
            Ok((*digits as u8, rest))
        }
        _ => Err(Unread::NoForm),
    }
}

/// The unsigned integer type with the name.
fn unsigned_type(name: &[u8]) -> Option<Ty>
    ensures { result ≡ unsigned_type name.now }
{
    if name == UINT8 {
        Some(Ty::UInt8)
    } else if name == UINT16 {
        Some(Ty::UInt16)
    } else if name == UINT32 {
        Some(Ty::UInt32)
    } else {
        None
    }
}

/// The type with the name, where it has no decimals.
fn plain_type(name: &[u8]) -> Option<Ty>
    ensures { result ≡ plain_type name.now }
{
    match name {
        b"Int8" => Some(Ty::Int8),
        b"Int16" => Some(Ty::Int16),
        b"Int32" => Some(Ty::Int32),
        b"Int64" => Some(Ty::Int64),
        b"Bool" => Some(Ty::Bool),
        _ => unsigned_type(name),
    }
}

/// The type with the name, with the decimals after it if it has them.
#[tactic(auto, unfolding(crate::specs::LineReading::named_type))]
fn named_type<'a>(name: &[u8], rest: &'a [Token]) -> Result<(Ty, &'a [Token]), Unread>
    ensures { GivesWithRest result (named_type name.now rest.now) }
{
    if name == FIXED {
        let (decimals, rest) = decimals_at(rest)?;
        return Ok((Ty::Fixed(decimals), rest));
    }
    match plain_type(name) {
        Some(ty) => Ok((ty, rest)),
        None => Err(Unread::NoForm),
    }
}

#[tactic(auto, unfolding(crate::specs::LineReading::type_at))]
fn type_at(tokens: &[Token]) -> Result<(Ty, &[Token]), Unread>
    ensures { GivesWithRest result (type_at tokens.now) }
{
    match tokens {
        [Token::Name(name), rest @ ..] => named_type(name.as_slice(), rest),
        _ => Err(Unread::NoForm),
    }
}

/// `p : T`
#[tactic(auto, unfolding(crate::specs::LineReading::declaration_at))]
fn declaration_at(alloc: Global, tokens: &[Token]) -> Result<(Local, &[Token]), Unread>
    ensures { GivesWithRest result (declaration_at tokens.now) }
{
    let (name, rest) = name_at(alloc, tokens)?;
    let rest = after_symbol(Symbol::Colon, rest)?;
    let (ty, rest) = type_at(rest)?;
    Ok((Local { name, ty }, rest))
}

/// `a.y`
#[tactic(auto, unfolding(crate::specs::LineReading::port_at))]
fn port_at(alloc: Global, tokens: &[Token]) -> Result<(PortName, &[Token]), Unread>
    ensures { GivesWithRest result (port_at tokens.now) }
{
    let (instance, rest) = name_at(alloc, tokens)?;
    let rest = after_symbol(Symbol::Point, rest)?;
    let (port, rest) = name_at(alloc, rest)?;
    Ok((PortName { instance, port }, rest))
}

/// The names and those that follow them, each after a comma.
#[cycle(naming)]
fn more_names(
    alloc: Global,
    names: List<Name>,
    tokens: &[Token],
) -> Result<(List<Name>, &[Token]), Unread>
    ensures { GivesWithRest result (more_names names tokens.now) }
{
    match tokens {
        [Token::Symbol(Symbol::Comma), rest @ ..] => next_names(alloc, names, rest),
        _ => Ok((names, tokens)),
    }
}

/// The names with one more, which has to come next, as after a comma, and those that follow it.
#[cycle(naming)]
#[tactic(auto, using(crate::proofs::NextNames::next_named, crate::proofs::NextNames::next_unnamed))]
fn next_names(
    alloc: Global,
    names: List<Name>,
    tokens: &[Token],
) -> Result<(List<Name>, &[Token]), Unread>
    ensures { GivesWithRest result (more_names names (token.Symbol sign.Comma ∷ tokens.now)) }
{
    let (name, rest) = name_at(alloc, tokens)?;
    let mut names = names;
    names.push(name)?;
    more_names(alloc, names, rest)
}

/// `needs u, v`, or nothing.
fn needs_at(alloc: Global, tokens: &[Token]) -> Result<(List<Name>, &[Token]), Unread>
    ensures { GivesWithRest result (needs_at tokens.now) }
{
    match tokens {
        [Token::Keyword(Keyword::Needs), rest @ ..] => next_names(alloc, List::new(alloc), rest),
        _ => Ok((List::new(alloc), tokens)),
    }
}

/// The literal of a number with or without a sign, where its word fits 64 bits.
fn number_literal(negative: bool, digits: u64, decimals: u8) -> Result<Literal, Unread>
    ensures { Gives result (number_literal negative digits decimals) }
{
    match signed_word(negative, digits) {
        Some(word) => Ok(Literal::Number { word, decimals }),
        None => Err(Unread::NoForm),
    }
}

/// The literal that all of the tokens write.
fn whole_literal(tokens: &[Token]) -> Result<Literal, Unread>
    ensures { Gives result (literal_of tokens.now) }
{
    match tokens {
        [Token::Keyword(Keyword::True)] => Ok(Literal::Truth(true)),
        [Token::Keyword(Keyword::False)] => Ok(Literal::Truth(false)),
        [Token::Number { digits, decimals }] => number_literal(false, *digits, *decimals),
        [
            Token::Symbol(Symbol::Minus),
            Token::Number { digits, decimals },
        ] => { number_literal(true, *digits, *decimals) }
        _ => Err(Unread::NoForm),
    }
}

/// The number of seconds, without a sign, that all of the tokens write.
fn whole_seconds(tokens: &[Token]) -> Result<Literal, Unread>
    ensures { Gives result (seconds_of tokens.now) }
{
    match tokens {
        [Token::Number { digits, decimals }] if *digits < WORD_END => Ok(Literal::Number {
            word: *digits as i64,
            decimals: *decimals,
        }),
        _ => Err(Unread::NoForm),
    }
}

/// The form, if no token is left.
fn last(form: LineForm, rest: &[Token]) -> Result<LineForm, Unread>
    ensures { Gives result (last form rest.now) }
{
    match rest {
        [] => Ok(form),
        _ => {
            drop(form);
            Err(Unread::NoForm)
        }
    }
}

/// `p : T = L`
#[tactic(auto, unfolding(crate::specs::LineReading::started_of))]
fn started(alloc: Global, tokens: &[Token]) -> Result<Param, Unread>
    ensures { Gives result (started_of tokens.now) }
{
    let (Local { name, ty }, rest) = declaration_at(alloc, tokens)?;
    let rest = after_symbol(Symbol::Is, rest)?;
    let start = whole_literal(rest)?;
    Ok(Param { name, ty, start })
}

/// `y : T = e`, or `y : T needs u, v = e`
#[tactic(auto, unfolding(crate::specs::LineReading::output_of))]
fn computed(alloc: Global, tokens: &[Token]) -> Result<Output, Unread>
    ensures { Gives result (output_of tokens.now) }
{
    let (Local { name, ty }, rest) = declaration_at(alloc, tokens)?;
    let (needs, rest) = needs_at(alloc, rest)?;
    let rest = after_symbol(Symbol::Is, rest)?;
    let value = whole_expression(alloc, rest)?;
    Ok(Output {
        name,
        ty,
        needs,
        value,
    })
}

#[tactic(auto, unfolding(crate::specs::LineReading::header_form))]
fn header(tokens: &[Token]) -> Result<LineForm, Unread>
    ensures { Gives result (header_form tokens.now) }
{
    let (version, rest) = version_at(tokens)?;
    last(LineForm::Header(version), rest)
}

#[tactic(auto, unfolding(crate::specs::LineReading::unit_form))]
fn unit(alloc: Global, tokens: &[Token]) -> Result<LineForm, Unread>
    ensures { Gives result (unit_form tokens.now) }
{
    let (name, rest) = name_at(alloc, tokens)?;
    last(LineForm::Unit(name), rest)
}

#[tactic(auto, unfolding(crate::specs::LineReading::resolution_form))]
fn resolution(tokens: &[Token]) -> Result<LineForm, Unread>
    ensures { Gives result (resolution_form tokens.now) }
{
    let (decimals, rest) = decimals_at(tokens)?;
    last(LineForm::Resolution(decimals), rest)
}

#[tactic(auto, unfolding(crate::specs::LineReading::param_form))]
fn param(alloc: Global, tokens: &[Token]) -> Result<LineForm, Unread>
    ensures { Gives result (param_form tokens.now) }
{
    Ok(LineForm::Param(started(alloc, tokens)?))
}

#[tactic(auto, unfolding(crate::specs::LineReading::state_form))]
fn state(alloc: Global, tokens: &[Token]) -> Result<LineForm, Unread>
    ensures { Gives result (state_form tokens.now) }
{
    let Param { name, ty, start } = started(alloc, tokens)?;
    Ok(LineForm::State(State { name, ty, start }))
}

#[tactic(auto, unfolding(crate::specs::LineReading::local_form))]
fn local(alloc: Global, tokens: &[Token]) -> Result<LineForm, Unread>
    ensures { Gives result (local_form tokens.now) }
{
    let (local, rest) = declaration_at(alloc, tokens)?;
    last(LineForm::Local(local), rest)
}

#[tactic(auto, unfolding(crate::specs::LineReading::input_form))]
fn input(alloc: Global, tokens: &[Token]) -> Result<LineForm, Unread>
    ensures { Gives result (input_form tokens.now) }
{
    let Param { name, ty, start } = started(alloc, tokens)?;
    Ok(LineForm::Input(Input { name, ty, start }))
}

#[tactic(auto, unfolding(crate::specs::LineReading::event_input_form))]
fn event_input(alloc: Global, tokens: &[Token]) -> Result<LineForm, Unread>
    ensures { Gives result (event_input_form tokens.now) }
{
    let (Local { name, ty }, rest) = declaration_at(alloc, tokens)?;
    last(LineForm::EventInput(EventIn { name, ty }), rest)
}

#[tactic(auto, unfolding(crate::specs::LineReading::output_form))]
fn output(alloc: Global, tokens: &[Token]) -> Result<LineForm, Unread>
    ensures { Gives result (output_form tokens.now) }
{
    Ok(LineForm::Output(computed(alloc, tokens)?))
}

#[tactic(auto, unfolding(crate::specs::LineReading::event_output_form))]
fn event_output(alloc: Global, tokens: &[Token]) -> Result<LineForm, Unread>
    ensures { Gives result (event_output_form tokens.now) }
{
    let Output {
        name,
        ty,
        needs,
        value,
    } = computed(alloc, tokens)?;
    Ok(LineForm::EventOutput(EventOut {
        name,
        ty,
        needs,
        value,
    }))
}

/// A line of an event port, after `event`.
fn event_port(alloc: Global, tokens: &[Token]) -> Result<LineForm, Unread>
    ensures { Gives result (event_form tokens.now) }
{
    match tokens {
        [Token::Keyword(Keyword::Input), rest @ ..] => event_input(alloc, rest),
        [Token::Keyword(Keyword::Output), rest @ ..] => event_output(alloc, rest),
        _ => Err(Unread::NoForm),
    }
}

#[tactic(auto, unfolding(crate::specs::LineReading::max_form))]
fn max(alloc: Global, tokens: &[Token]) -> Result<LineForm, Unread>
    ensures { Gives result (max_form tokens.now) }
{
    Ok(LineForm::Max(whole_expression(alloc, tokens)?))
}

#[tactic(auto, unfolding(crate::specs::LineReading::if_form))]
fn condition(alloc: Global, tokens: &[Token]) -> Result<LineForm, Unread>
    ensures { Gives result (if_form tokens.now) }
{
    Ok(LineForm::If(whole_expression(alloc, tokens)?))
}

#[tactic(auto, unfolding(crate::specs::LineReading::accept_form))]
fn accept(alloc: Global, tokens: &[Token]) -> Result<LineForm, Unread>
    ensures { Gives result (accept_form tokens.now) }
{
    Ok(LineForm::Accept(whole_expression(alloc, tokens)?))
}

#[tactic(auto, unfolding(crate::specs::LineReading::repeat_form))]
fn repeat(tokens: &[Token]) -> Result<LineForm, Unread>
    ensures { Gives result (repeat_form tokens.now) }
{
    let (count, rest) = count_at(1, MOST_TURNS, tokens)?;
    last(LineForm::Repeat(count), rest)
}

#[tactic(auto, unfolding(crate::specs::LineReading::instance_form))]
fn instance(alloc: Global, tokens: &[Token]) -> Result<LineForm, Unread>
    ensures { Gives result (instance_form tokens.now) }
{
    let (name, rest) = name_at(alloc, tokens)?;
    let rest = after_symbol(Symbol::Colon, rest)?;
    let (unit, rest) = name_at(alloc, rest)?;
    last(LineForm::Instance { name, unit }, rest)
}

#[tactic(auto, unfolding(crate::specs::LineReading::connect_form))]
fn connect(alloc: Global, tokens: &[Token]) -> Result<LineForm, Unread>
    ensures { Gives result (connect_form tokens.now) }
{
    let (from, rest) = port_at(alloc, tokens)?;
    let rest = after_symbol(Symbol::Arrow, rest)?;
    let (to, rest) = port_at(alloc, rest)?;
    last(LineForm::Connect(Wire { from, to }), rest)
}

#[tactic(auto, unfolding(crate::specs::LineReading::stop_form))]
fn stop(tokens: &[Token]) -> Result<LineForm, Unread>
    ensures { Gives result (stop_form tokens.now) }
{
    Ok(LineForm::Stop(whole_seconds(tokens)?))
}

#[tactic(auto, unfolding(crate::specs::LineReading::longest_form))]
fn longest(tokens: &[Token]) -> Result<LineForm, Unread>
    ensures { Gives result (longest_form tokens.now) }
{
    Ok(LineForm::Longest(whole_seconds(tokens)?))
}

#[tactic(auto, unfolding(crate::specs::LineReading::zero_form))]
fn zero(tokens: &[Token]) -> Result<LineForm, Unread>
    ensures { Gives result (zero_form tokens.now) }
{
    let (count, rest) = count_at(0, MOST_ZERO_STEPS, tokens)?;
    last(LineForm::Zero(count), rest)
}

#[tactic(auto, unfolding(crate::specs::LineReading::rows_form))]
fn rows(tokens: &[Token]) -> Result<LineForm, Unread>
    ensures { Gives result (rows_form tokens.now) }
{
    let (count, rest) = count_at(1, MOST_ROWS, tokens)?;
    last(LineForm::Rows(count), rest)
}

#[tactic(auto, unfolding(crate::specs::LineReading::sample_form))]
fn sample(alloc: Global, tokens: &[Token]) -> Result<LineForm, Unread>
    ensures { Gives result (sample_form tokens.now) }
{
    let (port, rest) = port_at(alloc, tokens)?;
    last(LineForm::Sample(port), rest)
}

#[tactic(auto, unfolding(crate::specs::LineReading::assign_form))]
fn assignment(alloc: Global, target: Name, tokens: &[Token]) -> Result<LineForm, Unread>
    ensures { Gives result (assign_form target tokens.now) }
{
    let value = whole_expression(alloc, tokens)?;
    Ok(LineForm::Assign { target, value })
}

#[tactic(auto, unfolding(crate::specs::LineReading::setting_form))]
fn setting(name: Name, tokens: &[Token]) -> Result<LineForm, Unread>
    ensures { Gives result (setting_form name tokens.now) }
{
    let value = whole_literal(tokens)?;
    Ok(LineForm::Setting(Setting { name, value }))
}

/// A line that begins with the keyword, from the tokens after it.
fn keyword_line(alloc: Global, keyword: Keyword, rest: &[Token]) -> Result<LineForm, Unread>
    ensures { Gives result (keyword_form keyword rest.now) }
{
    match keyword {
        Keyword::Cosim => header(rest),
        Keyword::Unit => unit(alloc, rest),
        Keyword::Resolution => resolution(rest),
        Keyword::Param => param(alloc, rest),
        Keyword::State => state(alloc, rest),
        Keyword::Local => local(alloc, rest),
        Keyword::Input => input(alloc, rest),
        Keyword::Output => output(alloc, rest),
        Keyword::Event => event_port(alloc, rest),
        Keyword::Max => max(alloc, rest),
        Keyword::Step => last(LineForm::Step, rest),
        Keyword::End => last(LineForm::End, rest),
        Keyword::If => condition(alloc, rest),
        Keyword::Else => last(LineForm::Else, rest),
        Keyword::Repeat => repeat(rest),
        Keyword::Accept => accept(alloc, rest),
        Keyword::Instance => instance(alloc, rest),
        Keyword::Connect => connect(alloc, rest),
        Keyword::Stop => stop(rest),
        Keyword::Longest => longest(rest),
        Keyword::Zero => zero(rest),
        Keyword::Rows => rows(rest),
        Keyword::Sample => sample(alloc, rest),
        _ => Err(Unread::NoForm),
    }
}

/// A line that begins with the name, from the tokens after it: an assignment or a setting.
fn name_line(alloc: Global, name: Name, rest: &[Token]) -> Result<LineForm, Unread>
    ensures { Gives result (name_form name rest.now) }
{
    match rest {
        [Token::Symbol(Symbol::Assign), rest @ ..] => assignment(alloc, name, rest),
        [Token::Symbol(Symbol::Is), rest @ ..] => setting(name, rest),
        _ => Err(Unread::NoForm),
    }
}

/// The form of a line, from its first token and those after it.
#[tactic(auto, unfolding(crate::specs::LineReading::read_form))]
fn whole_line(alloc: Global, tokens: &[Token]) -> Result<LineForm, Unread>
    ensures { Gives result (read_form tokens.now) }
{
    match tokens {
        [Token::Keyword(keyword), rest @ ..] => keyword_line(alloc, *keyword, rest),
        [Token::Name(name), rest @ ..] => {
            let name = List::from_slice(alloc, name.as_slice())?;
            name_line(alloc, name, rest)
        }
        _ => Err(Unread::NoForm),
    }
}

/// The form that the tokens of a line write. The forms of both versions of the language are read here; the layer above
/// judges which of them a text may have.
pub fn line_form(alloc: Global, tokens: &[Token]) -> Result<LineForm, Unread>
    ensures { ReadsAs result (FormIs tokens.now) }
{
    whole_line(alloc, tokens)
}

/// The form of a line, which is given without its end. [`Unread::NoForm`] where it has none.
#[tactic(auto, using(crate::proofs::FormsOfLines::line_reads, crate::proofs::FormsOfLines::line_unspelled))]
pub fn form_of_line(alloc: Global, line: &[u8]) -> Result<LineForm, Unread>
    ensures { ReadsAs result (LineHas line.now) }
{
    let tokens = tokens(alloc, code(line))?;
    line_form(alloc, tokens.as_slice())
}
