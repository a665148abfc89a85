//! Tokens, appended to a text with a space exactly where letters, digits or `_` would be next to
//! each other.
ghost use Rattle.std.specs.Prelude.{◌≡◌, ◌++◌, ◌<◌, ◌≤◌, ◌∷◌, [], length, replicate, if◌then◌else◌, OnOk};
ghost use Rattle.fixed_words.specs.Texts.{fixed_text, padded, pointed_before};
ghost use Rattle.unit_tree.specs.Canonical.{ends_in_word, spaced};
ghost use Rattle.unit_tree.specs.Phrases.{keyword, symbol, whole};
ghost use Rattle.unit_tree.specs.declared.token.Token.TheVariants as token;
ghost use Rattle.unit_print.specs.Growing.{with_token};

use fixed_words::NoMemory;
use itoa::Buffer;
use unit_tree::{Keyword, Symbol, begins_with_word_byte, is_word_byte};

#[tactic(auto, using(crate::proofs::GrowingTexts::ends_by_last))]
fn ends_in_word(text: &[u8]) -> bool
    ensures { result ≡ ends_in_word text.now }
{
    match text.last() {
        None => false,
        Some(last) => is_word_byte(*last),
    }
}

/// Appends bytes to a text.
fn put(text: &mut Vec<u8>, bytes: &[u8]) -> Result<(), NoMemory>
    ensures { OnOk result (text.new.items ≡ spaced text.old.items bytes.now) }
{
    if ends_in_word(text.as_slice()) && begins_with_word_byte(bytes) {
        text.push(b' ')?;
    }
    text.extend_from_slice(bytes)?;
    Ok(())
}

#[tactic(auto, unfolding(crate::specs::Growing::with_token))]
pub(crate) fn keyword(text: &mut Vec<u8>, word: Keyword) -> Result<(), NoMemory>
    ensures { OnOk result (text.new.items ≡ with_token text.old.items (keyword word)) }
{
    put(text, word.text())
}

#[tactic(auto, unfolding(crate::specs::Growing::with_token))]
pub(crate) fn symbol(text: &mut Vec<u8>, spelled: Symbol) -> Result<(), NoMemory>
    ensures { OnOk result (text.new.items ≡ with_token text.old.items (symbol spelled)) }
{
    put(text, spelled.text())
}

#[tactic(auto, unfolding(crate::specs::Growing::with_token))]
pub(crate) fn name(text: &mut Vec<u8>, name: &[u8]) -> Result<(), NoMemory>
    ensures { OnOk result (text.new.items ≡ with_token text.old.items (token.Name name.now)) }
{
    put(text, name)
}

/// Appends zeros to a text.
fn zeros(text: &mut Vec<u8>, count: usize) -> Result<(), NoMemory>
    ensures { OnOk result (text.new.items ≡ text.old.items ++ replicate count 48) }
{
    for _ in 0..count {
        text.push(b'0')?;
    }
    Ok(())
}

/// Appends digits of which all are decimals, with zeros before them.
fn below_one(text: &mut Vec<u8>, digits: &[u8], decimals: usize) -> Result<(), NoMemory>
    requires all_decimals { length digits.now ≤ decimals }
    requires some_decimals { 0 < decimals }
    ensures { OnOk result (text.new.items ≡ text.old.items ++ pointed_before decimals (padded decimals digits.now)) }
{
    text.extend_from_slice(b"0.")?;
    zeros(text, decimals - digits.len())?;
    text.extend_from_slice(digits)?;
    Ok(())
}

/// Appends digits of which some are before the point.
fn from_one(text: &mut Vec<u8>, digits: &[u8], decimals: usize) -> Result<(), NoMemory>
    requires { decimals < length digits.now }
    ensures { OnOk result (text.new.items ≡ text.old.items ++ pointed_before decimals (padded decimals digits.now)) }
{
    let whole = digits.len() - decimals;
    text.extend_from_slice(&digits[..whole])?;
    if decimals > 0 {
        text.push(b'.')?;
        text.extend_from_slice(&digits[whole..])?;
    }
    Ok(())
}

/// Appends the digits of a number.
fn digits(text: &mut Vec<u8>, number: u64, decimals: u8) -> Result<(), NoMemory>
    ensures { OnOk result (text.new.items ≡ text.old.items ++ fixed_text decimals number) }
{
    let mut buffer = Buffer::new();
    let digits = buffer.format(number).as_bytes();
    let decimals = usize::from(decimals);
    if digits.len() <= decimals {
        below_one(text, digits, decimals)?;
    } else {
        from_one(text, digits, decimals)?;
    }
    Ok(())
}

/// Appends a space to a text that ends in a letter, a digit or `_`.
fn space(text: &mut Vec<u8>) -> Result<(), NoMemory>
    ensures { OnOk result (text.new.items ≡ (if ends_in_word text.old.items then text.old.items ++ (32 ∷ []) else text.old.items)) }
{
    if ends_in_word(text.as_slice()) {
        text.push(b' ')?;
    }
    Ok(())
}

/// Appends a number by all its digits and how many of them follow the point.
#[tactic(auto, using(crate::proofs::GrowingTexts::number_behind), unfolding(crate::specs::Growing::with_token))]
pub(crate) fn number(text: &mut Vec<u8>, number: u64, decimals: u8) -> Result<(), NoMemory>
    ensures { OnOk result (text.new.items ≡ with_token text.old.items (token.Number number decimals)) }
{
    space(text)?;
    digits(text, number, decimals)
}

/// Appends a whole number.
pub(crate) fn whole(text: &mut Vec<u8>, digits: u32) -> Result<(), NoMemory>
    ensures { OnOk result (text.new.items ≡ with_token text.old.items (whole digits)) }
{
    number(text, u64::from(digits), 0)
}
