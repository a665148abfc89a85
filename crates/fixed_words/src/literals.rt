ghost use Rattle.std.specs.Prelude.{◌≡◌, ◌≢◌, ◌≤◌, ◌∷◌, ◌++◌, ℤ, ℕ, Bool, List, IfSome, IfNone, if◌then◌else◌};
ghost use Rattle.std.specs.Bool.{OnFalse};
ghost use Rattle.fixed_words.specs.declared.types.Ty.TheVariants.{Fixed, Int64};
ghost use Rattle.fixed_words.specs.declared.types.Literal.{Literal};
ghost use Rattle.fixed_words.specs.Types.{AreDecimals, is_word_of};
ghost use Rattle.fixed_words.specs.Texts.{sign_text, truth_text};
ghost use Rattle.fixed_words.specs.Literals.{IsLiteralText, IsSignedNumber, with_sign, scaled_number, word_of_literal, within_type};

use crate::digits::{Unsigned, read_number};
use crate::operations::{mul, unit_word};
use crate::types::{Literal, LiteralFault, Ty, fits};

/// The truth value that the text names, if it names one.
fn read_truth(text: &[u8]) -> Option<bool>
    ensures some { IfSome result (λ told. text.now ≡ truth_text told) }
    ensures only { (told : Bool) → text.now ≡ truth_text told → result ≡ Some told }
{
    match text {
        b"true" => Some(true),
        b"false" => Some(false),
        _ => None,
    }
}

/// The number with or without a sign as a word, if it fits 64 bits.
pub fn signed_word(negative: bool, digits: u64) -> Option<i64>
    ensures { result
        ≡ (if is_word_of Int64 (with_sign negative digits) then Some (with_sign negative digits) else None) }
{
    let number = i128::from(digits);
    i64::try_from(if negative { -number } else { number }).ok()
}

/// Whether the text begins with `-`, and the text after that sign.
fn split_sign(text: &[u8]) -> (bool, &[u8])
    ensures spelled { text.now ≡ sign_text result.0 ++ result.1.now }
    ensures no_sign { OnFalse result.0 ((rest : List ℕ) → text.now ≢ 45 ∷ rest) }
{
    match text {
        [b'-', rest @ ..] => (true, rest),
        _ => (false, text),
    }
}

/// The number that the text spells with its sign, if it spells one and its word fits.
fn read_signed(text: &[u8]) -> Option<Literal>
    ensures some { IfSome result (IsLiteralText text.now) }
    ensures only { (word : ℤ) (decimals : ℕ) → IsSignedNumber word decimals text.now
        → result ≡ Some (Literal.Number word decimals) }
{
    let (negative, number) = split_sign(text);
    let Unsigned { digits, decimals } = read_number(number)?;
    let word = signed_word(negative, digits)?;
    Some(Literal::Number { word, decimals })
}

/// The literal that the text spells, or `None` where it spells none. It takes no memory.
///
/// A literal is `true`, `false`, or a number, without blanks. A number may have a `-` directly before it. It
/// is digits, leading zeros allowed, or digits, a point and one to nine digits. Its digits without the point
/// make a word from 0 to 2^63 - 1, or with the sign down to -2^63. The literal keeps that word and the count
/// of decimals: `-0.50` has the word -50 and two decimals, and `-0` the word 0.
pub fn read_literal(text: &[u8]) -> Option<Literal>
    ensures some { IfSome result (IsLiteralText text.now) }
    ensures none { IfNone result ((literal : Literal) → IsLiteralText text.now literal → ⊥) }
    ensures only { (literal : Literal) → IsLiteralText text.now literal → result ≡ Some literal }
{
    match read_truth(text) {
        Some(told) => Some(Literal::Truth(told)),
        None => read_signed(text),
    }
}

/// A number as a fixed-point word of `has` decimals.
fn fixed_word(has: u8, word: i64, decimals: u8) -> Result<i64, LiteralFault>
    requires { has ≤ 9 }
    ensures { within_type (Fixed has) result ≡ within_type (Fixed has) (scaled_number (Fixed has) word decimals) }
{
    if decimals > has {
        return Err(LiteralFault::Form);
    }
    mul(word, unit_word(has - decimals)).map_err(|_| LiteralFault::Range)
}

/// The word of a literal as a value of the type.
///
/// [`LiteralFault::Form`] for a truth value of a number type, a number of type Bool, decimals of an integer
/// type, or more decimals than a fixed-point type has. Else [`LiteralFault::Range`] where the scaled word is
/// not one of the type's.
pub fn literal_word(ty: Ty, literal: Literal) -> Result<i64, LiteralFault>
    requires { AreDecimals ty }
    ensures { result ≡ word_of_literal ty literal }
{
    let word = match (ty, literal) {
        (Ty::Bool, Literal::Truth(told)) => i64::from(told),
        (Ty::Bool, _) | (_, Literal::Truth(_)) => return Err(LiteralFault::Form),
        (Ty::Fixed(has), Literal::Number { word, decimals }) => fixed_word(has, word, decimals)?,
        (_, Literal::Number { word, decimals: 0 }) => word,
        _ => return Err(LiteralFault::Form),
    };
    if fits(ty, word) {
        Ok(word)
    } else {
        Err(LiteralFault::Range)
    }
}
