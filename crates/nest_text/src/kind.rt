//! The kinds of lines of a nested text.
ghost use Rattle.std.specs.Prelude.{◌≡◌, ◌==◌, IfOk};
ghost use Rattle.nest_text.specs.NestLines.{IsKind};
ghost use Rattle.nest_text.specs.Nests.{is_main};
ghost use Rattle.nest_text.specs.Reading.{begins_group, connects, group_kind, in_kind, keyword_kind, kind_of, main_kind, name_begun, named_kind, opens, out_kind};

use crate::nest::Bind;
use fixed_words::{List, NoMemory};
use std::alloc::{AllocError, Global};
use text_lines::code;
use text_tokens::{Unread, tokens};
use unit_tree::{Keyword, Name, PortName, Symbol, Token};

/// The names that the lines of parts begin with.
const GROUP: &[u8] = b"group";

const MAIN: &[u8] = b"main";

const IN: &[u8] = b"in";

const OUT: &[u8] = b"out";

/// The kind of a line of a nested text, by which parts are found.
#[derive(Debug, Drop)]
pub enum LineKind {
    /// `group G`, which begins a group.
    Begins(Name),
    /// `main`, which begins the last part.
    Main,
    /// `in u -> a.v`
    In(Bind),
    /// `out y = a.w`
    Out(Bind),
    /// `instance a : A`, which opens a block.
    Opens,
    /// `end`
    Ends,
    /// `connect a.y -> b.u`
    Connects,
    /// Nothing but spaces, tabs and a comment.
    Blank,
    /// Any other line.
    Other,
}

impl LineKind {
    pub(crate) fn begins_group(&self) -> bool
        ensures { result ≡ begins_group self.now }
    {
        matches!(self, LineKind::Begins(_))
    }

    /// The name of the group that the line begins.
    pub(crate) fn group_name(self) -> Option<Name>
        ensures { result ≡ name_begun self }
    {
        match self {
            LineKind::Begins(name) => Some(name),
            other => {
                drop(other);
                None
            }
        }
    }

    pub(crate) fn is_main(&self) -> bool
        ensures { result ≡ is_main self.now }
    {
        matches!(self, LineKind::Main)
    }
}

fn copied(alloc: Global, name: &Name) -> Result<Name, NoMemory>
    ensures { IfOk result (λ made. made ≡ name.now) }
{
    Ok(List::from_slice(alloc, name.as_slice())?)
}

fn bind(alloc: Global, port: &Name, instance: &Name, inner: &Name) -> Result<Bind, NoMemory>
    ensures { IfOk result (λ made. made ≡ record { port = port.now; inner = record { instance = instance.now; port = inner.now } }) }
{
    let port = copied(alloc, port)?;
    let instance = copied(alloc, instance)?;
    let inner = copied(alloc, inner)?;
    Ok(Bind {
        port,
        inner: PortName {
            instance,
            port: inner,
        },
    })
}

/// A line that begins with `group`, from the tokens after it.
fn group_kind(alloc: Global, rest: &[Token]) -> Result<LineKind, NoMemory>
    ensures { IfOk result (λ kind. kind ≡ group_kind rest.now) }
{
    match rest {
        [Token::Name(name)] => Ok(LineKind::Begins(copied(alloc, name)?)),
        _ => Ok(LineKind::Other),
    }
}

/// A line that begins with `main`, from the tokens after it.
fn main_kind(rest: &[Token]) -> LineKind
    ensures { result ≡ main_kind rest.now }
{
    match rest {
        [] => LineKind::Main,
        _ => LineKind::Other,
    }
}

/// A line that begins with `in`, from the tokens after it.
fn in_kind(alloc: Global, rest: &[Token]) -> Result<LineKind, NoMemory>
    ensures { IfOk result (λ kind. kind ≡ in_kind rest.now) }
{
    match rest {
        [
            Token::Name(port),
            Token::Symbol(Symbol::Arrow),
            Token::Name(instance),
            Token::Symbol(Symbol::Point),
            Token::Name(inner),
        ] => Ok(LineKind::In(bind(alloc, port, instance, inner)?)),
        _ => Ok(LineKind::Other),
    }
}

/// A line that begins with `out`, from the tokens after it.
fn out_kind(alloc: Global, rest: &[Token]) -> Result<LineKind, NoMemory>
    ensures { IfOk result (λ kind. kind ≡ out_kind rest.now) }
{
    match rest {
        [
            Token::Name(port),
            Token::Symbol(Symbol::Is),
            Token::Name(instance),
            Token::Symbol(Symbol::Point),
            Token::Name(inner),
        ] => Ok(LineKind::Out(bind(alloc, port, instance, inner)?)),
        _ => Ok(LineKind::Other),
    }
}

/// A line that begins with a name, from the name and the tokens after it.
fn named_kind(alloc: Global, word: &[u8], rest: &[Token]) -> Result<LineKind, NoMemory>
    ensures { IfOk result (λ kind. kind ≡ named_kind word.now rest.now) }
{
    if word == GROUP {
        group_kind(alloc, rest)
    } else if word == MAIN {
        Ok(main_kind(rest))
    } else if word == IN {
        in_kind(alloc, rest)
    } else if word == OUT {
        out_kind(alloc, rest)
    } else {
        Ok(LineKind::Other)
    }
}

/// The kind of a line that begins with `instance`, from the tokens after it.
fn opens(rest: &[Token]) -> LineKind
    ensures { result ≡ opens rest.now }
{
    match rest {
        [Token::Name(_), Token::Symbol(Symbol::Colon), Token::Name(_)] => LineKind::Opens,
        _ => LineKind::Other,
    }
}

/// The kind of a line that begins with `connect`, from the tokens after it.
fn connects(rest: &[Token]) -> LineKind
    ensures { result ≡ connects rest.now }
{
    match rest {
        [
            Token::Name(_),
            Token::Symbol(Symbol::Point),
            Token::Name(_),
            Token::Symbol(Symbol::Arrow),
            Token::Name(_),
            Token::Symbol(Symbol::Point),
            Token::Name(_),
        ] => LineKind::Connects,
        _ => LineKind::Other,
    }
}

/// A line that begins with a keyword, from the keyword and the tokens after it.
fn keyword_kind(keyword: Keyword, rest: &[Token]) -> LineKind
    ensures { result ≡ keyword_kind keyword rest.now }
{
    match keyword {
        Keyword::End => match rest {
            [] => LineKind::Ends,
            _ => LineKind::Other,
        },
        Keyword::Instance => opens(rest),
        Keyword::Connect => connects(rest),
        _ => LineKind::Other,
    }
}

/// The kind of a line with these tokens.
fn kind_of(alloc: Global, tokens: &[Token]) -> Result<LineKind, NoMemory>
    ensures { IfOk result (λ kind. kind ≡ kind_of tokens.now) }
{
    match tokens {
        [] => Ok(LineKind::Blank),
        [Token::Keyword(keyword), rest @ ..] => Ok(keyword_kind(*keyword, rest)),
        [Token::Name(word), rest @ ..] => named_kind(alloc, word.as_slice(), rest),
        _ => Ok(LineKind::Other),
    }
}

/// The kind of a line without its end.
#[tactic(auto, using(crate::proofs::KindLaws::kind_spelled, crate::proofs::KindLaws::kind_unspelled))]
pub(crate) fn kind_of_line(alloc: Global, line: &[u8]) -> Result<LineKind, NoMemory>
    ensures { IfOk result (IsKind line.now) }
{
    match tokens(alloc, code(line)) {
        Ok(tokens) => kind_of(alloc, tokens.as_slice()),
        Err(Unread::NoForm) => Ok(LineKind::Other),
        Err(Unread::NoMemory) => Err(AllocError),
    }
}
