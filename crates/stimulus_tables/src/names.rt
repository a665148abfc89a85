//! The names of a table's columns.
ghost use Rattle.std.specs.Prelude.{◌≡◌, ◌∷◌, [], List, IfOk};
ghost use Rattle.std.specs.Option.{option_map};
ghost use Rattle.csv.specs.Records.{fields_of};
ghost use Rattle.stimulus_tables.specs.Tables.{IsHead, IsTaken};
ghost use Rattle.stimulus_tables.specs.TableFields.{IsNextName, behind_s};
ghost use Rattle.unit_tree.specs.Names.{is_among};
ghost use Rattle.unit_tree.specs.Tokens.{IsName};
ghost use Rattle.text_tokens.specs.Results.{Decides, Tells};

use crate::fields::time_in;
use csv::ByteRecord;
use fixed_words::{List, NoMemory};
use std::alloc::{AllocError, Global};
use text_tokens::{Unread, tokens};
use unit_tree::{Name, Token};

/// The greatest number of names of a table.
const MOST_NAMES: usize = 16;

/// Returns the bytes after an `s`, where the name begins with one.
fn behind_s(name: &[u8]) -> Option<&[u8]>
    ensures { option_map (λ digits. digits.now) result ≡ behind_s name.now }
{
    match name {
        [] => None,
        [first, digits @ ..] => { if *first == b's' { Some(digits) } else { None } }
    }
}

/// Returns whether a name is reserved for a state: `s` and a number below 16.
fn is_taken(name: &[u8]) -> bool
    ensures { Decides result (IsTaken name.now) }
{
    let Some(digits) = behind_s(name) else {
        return false;
    };
    match time_in(digits) {
        Some(number) => number < 16,
        None => false,
    }
}

/// Returns the only token of some, if there is exactly one.
fn only(tokens: &[Token]) -> Option<&Token>
    ensures { Tells (option_map (λ token. token.now) result) (λ token. tokens.now ≡ token ∷ []) }
{
    match tokens {
        [token] => Some(token),
        _ => None,
    }
}

/// Returns whether a token is this name.
fn is_token(token: &Token, name: &[u8]) -> bool
    ensures { Decides result (token.now ≡ Token.Name name.now) }
{
    match token {
        Token::Name(text) => text.as_slice() == name,
        _ => false,
    }
}

/// Returns whether tokens are only this name.
fn are_name(tokens: &[Token], name: &[u8]) -> bool
    ensures { Decides result (tokens.now ≡ Token.Name name.now ∷ []) }
{
    match only(tokens) {
        Some(token) => is_token(token, name),
        None => false,
    }
}

/// Returns whether bytes are a name of the language.
fn is_name(alloc: Global, bytes: &[u8]) -> Result<bool, NoMemory>
    ensures { IfOk result (λ told. Decides told (IsName bytes.now)) }
{
    match tokens(alloc, bytes) {
        Ok(tokens) => Ok(are_name(tokens.as_slice(), bytes)),
        Err(Unread::NoForm) => Ok(false),
        Err(Unread::NoMemory) => Err(AllocError),
    }
}

/// Returns whether a name is one of some.
fn is_among(names: &[Name], name: &[u8]) -> bool
    ensures { result ≡ is_among names.now name.now }
{
    names.iter().any(|other| name == other.as_slice())
}

/// Returns whether a head may have a name after these.
fn is_next_name(alloc: Global, name: &[u8], before: &[Name]) -> Result<bool, NoMemory>
    ensures { IfOk result (λ told. Decides told (IsNextName before.now name.now)) }
{
    if before.len() >= MOST_NAMES {
        return Ok(false);
    }
    if is_taken(name) || is_among(before, name) {
        return Ok(false);
    }
    is_name(alloc, name)
}

/// Returns the names of a head.
pub(crate) fn names_in(alloc: Global, fields: &ByteRecord) -> Result<Option<List<Name>>, NoMemory>
    ensures { IfOk result (λ told. Tells told (IsHead (fields_of fields.now))) }
{
    let Some(first) = fields.get(0) else {
        return Ok(None);
    };
    if first != b"time".as_slice() {
        return Ok(None);
    }
    let mut names = List::new(alloc);
    let mut place = 1;
    while let Some(name) = fields.get(place) {
        if !is_next_name(alloc, name, names.as_slice())? {
            return Ok(None);
        }
        names.push(List::from_slice(alloc, name)?)?;
        place += 1;
    }
    if names.is_empty() {
        return Ok(None);
    }
    Ok(Some(names))
}
