ghost use Rattle.std.specs.Prelude.{◌≡◌, ◌≤◌, ◌<◌, ◌+◌, ◌-◌, ◌*◌, ◌^◌, length, take, drop, IfOk};
ghost use Rattle.std.specs.List.{prefix_len};
ghost use Rattle.unit_tree.specs.Tokens.{is_blank, is_digit, is_word_byte};
ghost use Rattle.text_tokens.specs.Scanning.{Gives, GivesWithRest, ReadsAs, keywords_from, symbols_from, keywords_like, symbols_like, keyword_of, symbol_of, word_token, word_at, bounded_number, fraction_of, number_token, number_at, symbol_at, token_at, TokensAre};

use crate::fault::Unread;
use fixed_words::List;
use model_rules::{LONGEST_NAME, MOST_DECIMALS};
use std::alloc::Global;
use unit_tree::{Keyword, Symbol, Token, begins_with_word_byte, is_letter, is_word_byte};

/// The greatest number of a token.
const GREATEST_NUMBER: u64 = 1 << 63;

/// The keywords that begin with this byte: at most four.
fn keywords_from(first: u8) -> &'static [Keyword]
    ensures { result.now ≡ keywords_from first }
{
    match first {
        b'a' => &[Keyword::Accept, Keyword::And, Keyword::Abs, Keyword::Absent],
        b'c' => &[Keyword::Cosim, Keyword::Connect, Keyword::Clamp],
        b'd' => &[Keyword::Div],
        b'e' => &[Keyword::End, Keyword::Else, Keyword::Event],
        b'f' => &[Keyword::Fix, Keyword::False],
        b'h' => &[Keyword::Length],
        b'i' => &[Keyword::Input, Keyword::Instance, Keyword::If, Keyword::Int],
        b'l' => &[Keyword::Local, Keyword::Longest],
        b'm' => &[Keyword::Max, Keyword::Mod, Keyword::Min],
        b'n' => &[Keyword::Needs, Keyword::Not],
        b'o' => &[Keyword::Output, Keyword::Or],
        b'p' => &[Keyword::Param, Keyword::Present],
        b'r' => &[Keyword::Resolution, Keyword::Repeat, Keyword::Rows],
        b's' => &[
            Keyword::State,
            Keyword::Step,
            Keyword::Stop,
            Keyword::Sample,
        ],
        b't' => &[Keyword::Then, Keyword::True, Keyword::Time],
        b'u' => &[Keyword::Unit],
        b'z' => &[Keyword::Zero],
        _ => &[],
    }
}

/// The symbols that begin with this byte: at most two.
fn symbols_from(first: u8) -> &'static [Symbol]
    ensures { result.now ≡ symbols_from first }
{
    match first {
        b'!' => &[Symbol::Differs],
        b'(' => &[Symbol::Open],
        b')' => &[Symbol::Close],
        b'*' => &[Symbol::Star],
        b'+' => &[Symbol::Plus],
        b',' => &[Symbol::Comma],
        b'-' => &[Symbol::Arrow, Symbol::Minus],
        b'.' => &[Symbol::Point],
        b'/' => &[Symbol::Slash],
        b':' => &[Symbol::Assign, Symbol::Colon],
        b'<' => &[Symbol::AtMost, Symbol::Less],
        b'=' => &[Symbol::Equals, Symbol::Is],
        b'>' => &[Symbol::AtLeast, Symbol::Greater],
        _ => &[],
    }
}

/// The keywords that begin with the text's first byte.
fn keywords_like(text: &[u8]) -> &'static [Keyword]
    ensures { result.now ≡ keywords_like text.now }
{
    match text {
        [] => &[],
        [first, ..] => keywords_from(*first),
    }
}

/// The keyword that the text spells: one of the few that begin with its first byte.
#[tactic(auto, unfolding(crate::specs::Scanning::keyword_of))]
fn keyword_of(text: &[u8]) -> Option<Keyword>
    ensures { result ≡ keyword_of text.now }
{
    keywords_like(text)
        .iter()
        .copied()
        .find(|keyword| keyword.text() == text)
}

/// The symbols that begin with the text's first byte.
fn symbols_like(text: &[u8]) -> &'static [Symbol]
    ensures { result.now ≡ symbols_like text.now }
{
    match text {
        [] => &[],
        [first, ..] => symbols_from(*first),
    }
}

/// The symbol that the text spells: one of the few that begin with its first byte.
#[tactic(auto, unfolding(crate::specs::Scanning::symbol_of))]
fn symbol_of(text: &[u8]) -> Option<Symbol>
    ensures { result ≡ symbol_of text.now }
{
    symbols_like(text)
        .iter()
        .copied()
        .find(|symbol| symbol.text() == text)
}

fn is_blank(byte: u8) -> bool
    ensures { result ≡ is_blank byte }
{
    byte == b' ' || byte == b'\t'
}

fn is_digit(byte: u8) -> bool
    ensures { result ≡ is_digit byte }
{
    byte.is_ascii_digit()
}

/// How many blanks the bytes begin with.
fn blanks_length(bytes: &[u8]) -> usize
    ensures length { result ≡ prefix_len is_blank bytes.now }
    ensures within { result ≤ length bytes.now }
{
    bytes.iter().take_while(|byte| is_blank(**byte)).count()
}

/// How many bytes of a word the bytes begin with.
fn word_length(bytes: &[u8]) -> usize
    ensures length { result ≡ prefix_len is_word_byte bytes.now }
    ensures within { result ≤ length bytes.now }
{
    bytes.iter().take_while(|byte| is_word_byte(**byte)).count()
}

/// How many digits the bytes begin with.
fn digits_length(bytes: &[u8]) -> usize
    ensures length { result ≡ prefix_len is_digit bytes.now }
    ensures within { result ≤ length bytes.now }
{
    bytes.iter().take_while(|byte| is_digit(**byte)).count()
}

fn word_token(alloc: Global, text: &[u8]) -> Result<Token, Unread>
    ensures { Gives result (word_token text.now) }
{
    match keyword_of(text) {
        Some(keyword) => Ok(Token::Keyword(keyword)),
        None if text.len() > LONGEST_NAME => Err(Unread::NoForm),
        None => Ok(Token::Name(List::from_slice(alloc, text)?)),
    }
}

#[tactic(auto, unfolding(crate::specs::Scanning::word_at))]
fn word_at(alloc: Global, bytes: &[u8]) -> Result<(Token, &[u8]), Unread>
    ensures { GivesWithRest result (word_at bytes.now) }
{
    let (text, rest) = bytes.split_at(word_length(bytes));
    Ok((word_token(alloc, text)?, rest))
}

/// The number of the digits, after `before`, the number of the digits before them. `NoForm` above
/// 2^63.
#[tactic(auto, unfolding(crate::specs::Scanning::bounded_number), using(crate::proofs::NumberLemmas::bounded_number_at))]
fn bounded_number(before: u64, digits: &[u8]) -> Result<u64, Unread>
    requires { before ≤ 2 ^ 63 }
    ensures number { Gives result (bounded_number before digits.now) }
    ensures bound { IfOk result (λ number. number ≤ 2 ^ 63) }
{
    let mut number = before;
    for digit in digits {
        let value = u128::from(digit.saturating_sub(b'0'));
        let longer = 10 * u128::from(number) + value;
        if longer > u128::from(GREATEST_NUMBER) {
            return Err(Unread::NoForm);
        }
        number = longer as u64;
    }
    Ok(number)
}

/// The digits of the fraction after a point that comes first, and the rest. No digits where no
/// fraction comes first.
fn fraction_of(bytes: &[u8]) -> (&[u8], &[u8])
    ensures digits { result.0.now ≡ (fraction_of bytes.now).0 }
    ensures rest { result.1.now ≡ (fraction_of bytes.now).1 }
{
    match bytes {
        [b'.', behind @ ..] => {
            let length = digits_length(behind);
            if length == 0 {
                (&[], bytes)
            } else {
                behind.split_at(length)
            }
        }
        _ => (&[], bytes),
    }
}

#[tactic(auto, unfolding(crate::specs::Scanning::number_token))]
fn number_token(whole: &[u8], fraction: &[u8]) -> Result<Token, Unread>
    ensures { Gives result (number_token whole.now fraction.now) }
{
    if fraction.len() > MOST_DECIMALS as usize {
        return Err(Unread::NoForm);
    }
    let before = bounded_number(0, whole)?;
    let digits = bounded_number(before, fraction)?;
    let decimals = fraction.len() as u8;
    Ok(Token::Number { digits, decimals })
}

#[tactic(auto, unfolding(crate::specs::Scanning::number_at))]
fn number_at(bytes: &[u8]) -> Result<(Token, &[u8]), Unread>
    ensures { GivesWithRest result (number_at bytes.now) }
{
    let (whole, behind) = bytes.split_at(digits_length(bytes));
    let (fraction, rest) = fraction_of(behind);
    if begins_with_word_byte(rest) {
        return Err(Unread::NoForm);
    }
    Ok((number_token(whole, fraction)?, rest))
}

/// The first bytes, at most `count` of them, and the rest.
#[tactic(auto, using(std::proofs::lemmas::List::take_min, std::proofs::lemmas::List::drop_min))]
fn cut(bytes: &[u8], count: usize) -> (&[u8], &[u8])
    ensures front { result.0.now ≡ take count bytes.now }
    ensures rest { result.1.now ≡ drop count bytes.now }
{
    bytes.split_at(count.min(bytes.len()))
}

#[tactic(auto, unfolding(crate::specs::Scanning::symbol_at))]
fn symbol_at(bytes: &[u8]) -> Result<(Token, &[u8]), Unread>
    ensures { GivesWithRest result (symbol_at bytes.now) }
{
    let (pair, behind) = cut(bytes, 2);
    if let Some(symbol) = symbol_of(pair) {
        return Ok((Token::Symbol(symbol), behind));
    }
    let (single, behind) = cut(bytes, 1);
    match symbol_of(single) {
        Some(symbol) => Ok((Token::Symbol(symbol), behind)),
        None => Err(Unread::NoForm),
    }
}

/// The token at the beginning of bytes that don't begin with a blank, and the rest.
#[tactic(auto, unfolding(crate::specs::Scanning::token_at))]
fn token_at(alloc: Global, bytes: &[u8]) -> Result<(Token, &[u8]), Unread>
    ensures { GivesWithRest result (token_at bytes.now) }
{
    match bytes {
        [] => Err(Unread::NoForm),
        [first, ..] if is_letter(*first) => word_at(alloc, bytes),
        [first, ..] if is_digit(*first) => number_at(bytes),
        _ => symbol_at(bytes),
    }
}

/// The tokens of a line. [`Unread::NoForm`] where the line spells no tokens.
#[tactic(auto, using(crate::proofs::TokenLemmas::completes_none, crate::proofs::TokenLemmas::completes_more, crate::proofs::TokenLemmas::completes_end, crate::proofs::TokenLemmas::completes_fail, crate::proofs::TokenLemmas::token_at_shorter))]
pub fn tokens(alloc: Global, line: &[u8]) -> Result<List<Token>, Unread>
    ensures { ReadsAs result (TokensAre line.now) }
{
    let mut tokens = List::new(alloc);
    let mut rest = line;
    loop {
        rest = rest.split_at(blanks_length(rest)).1;
        if rest.is_empty() {
            return Ok(tokens);
        }
        let (token, behind) = token_at(alloc, rest)?;
        tokens.push(token)?;
        rest = behind;
    }
}
