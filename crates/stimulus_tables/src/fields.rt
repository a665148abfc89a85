//! Numbers in a table's fields.
ghost use Rattle.std.specs.Prelude.{◌≡◌, ℤ, true, Some};
ghost use Rattle.std.specs.Fmt.{signed_decimal};
ghost use Rattle.fixed_words.specs.Types.{is_word_of};
ghost use Rattle.fixed_words.specs.declared.types.Ty.TheVariants.{Int64};
ghost use Rattle.stimulus_tables.specs.TableFields.{IsEntryText, IsTimeText, IsWordText};
ghost use Rattle.text_tokens.specs.Results.{Tells};

use itoa::Buffer;

/// The greatest time of a table, in seconds.
const LAST_TIME: i64 = 1_000_000_000;

/// The greatest absolute value of a word of a table.
const LARGEST_WORD: i64 = 1_000_000_000_000_000;

/// Returns the word that bytes spell, perhaps with a sign or zeros before it. `None` where they spell none.
fn parse_word(bytes: &[u8]) -> Option<i64>
    ensures { (word : ℤ) → is_word_of Int64 word ≡ true → bytes.now ≡ signed_decimal word → result ≡ Some word }
{
    str::from_utf8(bytes).ok()?.parse().ok()
}

/// Returns the word that bytes spell in its canonical form, or `None` where they spell none.
fn word_in(bytes: &[u8]) -> Option<i64>
    ensures { Tells result (IsWordText bytes.now) }
{
    let word = parse_word(bytes)?;
    let mut buffer = Buffer::new();
    if buffer.format(word).as_bytes() == bytes {
        Some(word)
    } else {
        None
    }
}

/// Returns the time that bytes spell, or `None` where they spell none.
pub(crate) fn time_in(bytes: &[u8]) -> Option<u64>
    ensures { Tells result (IsTimeText bytes.now) }
{
    let word = word_in(bytes)?;
    if 0 <= word && word <= LAST_TIME {
        Some(word as u64)
    } else {
        None
    }
}

/// Returns the word that bytes spell, where a table may have it.
pub(crate) fn entry_in(bytes: &[u8]) -> Option<i64>
    ensures { Tells result (IsEntryText bytes.now) }
{
    let word = word_in(bytes)?;
    if -LARGEST_WORD <= word && word <= LARGEST_WORD {
        Some(word)
    } else {
        None
    }
}
