//! Numbers and words in the lines of a saved text.
ghost use Rattle.std.specs.Prelude.{◌≡◌, ◌≤◌, ℕ, ℤ, length, decimal, true, Some};
ghost use Rattle.std.specs.Fmt.{signed_decimal};
ghost use Rattle.std.specs.List.{prefix_len};
ghost use Rattle.std.specs.Option.{option_map};
ghost use Rattle.fixed_words.specs.Types.{is_word_of};
ghost use Rattle.fixed_words.specs.declared.types.Ty.TheVariants.{Int64};
ghost use Rattle.save_point.specs.Reading.{IsNumberText, first_part, is_inside, other_parts, word_in};
ghost use Rattle.save_point.specs.SavedTexts.{number_limit};
ghost use Rattle.text_tokens.specs.Results.{Tells};

use itoa::Buffer;

/// The greatest number that a saved text may have.
const GREATEST_NUMBER: u64 = 1_000_000_000_000_000;

/// Returns the number that bytes spell, perhaps with a sign or zeros before it. `None` where they spell none.
fn parse_number(bytes: &[u8]) -> Option<u64>
    ensures { (number : ℕ) → number ≤ number_limit → bytes.now ≡ decimal number → result ≡ Some number }
{
    str::from_utf8(bytes).ok()?.parse().ok()
}

/// Returns the number that bytes spell in its canonical form, or `None` where they spell none.
pub(crate) fn number_in(bytes: &[u8]) -> Option<u64>
    ensures { Tells result (IsNumberText bytes.now) }
{
    let number = parse_number(bytes)?;
    let mut buffer = Buffer::new();
    if number <= GREATEST_NUMBER && buffer.format(number).as_bytes() == bytes {
        Some(number)
    } else {
        None
    }
}

/// Returns the word that bytes spell, perhaps with a sign or zeros before it. `None` where they spell none.
fn parse_word(bytes: &[u8]) -> Option<i64>
    ensures { (word : ℤ) → is_word_of Int64 word ≡ true → bytes.now ≡ signed_decimal word → result ≡ Some word }
{
    str::from_utf8(bytes).ok()?.parse().ok()
}

/// Returns the word that bytes spell in its canonical form, or `None` where they spell none.
pub(crate) fn word_in(bytes: &[u8]) -> Option<i64>
    ensures { result ≡ word_in bytes.now }
{
    let word = parse_word(bytes)?;
    let mut buffer = Buffer::new();
    if buffer.format(word).as_bytes() == bytes {
        Some(word)
    } else {
        None
    }
}

/// Returns how many bytes come before the first space.
fn part_length(bytes: &[u8]) -> usize
    ensures length { result ≡ prefix_len is_inside bytes.now }
    ensures within { result ≤ length bytes.now }
{
    bytes.iter().take_while(|byte| **byte != b' ').count()
}

/// Returns the bytes up to the first space and, where there is one, those after it.
pub(crate) fn cut_part(bytes: &[u8]) -> (&[u8], Option<&[u8]>)
    ensures first { result.0.now ≡ first_part bytes.now }
    ensures others { option_map (λ others. others.now) result.1 ≡ other_parts bytes.now }
{
    let (part, behind) = bytes.split_at(part_length(bytes));
    match behind {
        [] => (part, None),
        [_, others @ ..] => (part, Some(others)),
    }
}
