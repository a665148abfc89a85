ghost use Rattle.std.specs.Prelude.{◌≡◌, ◌≤◌, ◌<◌, ◌++◌, length, take, unsigned_abs, OnOk, OnErr, IsTrue};
ghost use Rattle.std.specs.Int.{is_negative};
ghost use Rattle.fixed_words.specs.Texts.{text_of, sign_text, fixed_text, padded, pointed_before};
ghost use Rattle.fixed_words.specs.Types.{is_word_of, AreDecimals};

use crate::NoMemory;
use crate::types::Ty;
use itoa::Buffer;

/// The most zeros that may be between the point and the digits.
const ZEROS: [u8; 9] = *b"000000000";

/// Appends digits of which all are decimals, with zeros before them. Where there is no memory, a part may have been
/// appended.
fn append_below_one(digits: &[u8], decimals: usize, out: &mut Vec<u8>) -> Result<(), NoMemory>
    requires all_decimals { length digits.now ≤ decimals }
    requires some_decimals { 0 < decimals }
    requires few { decimals ≤ 9 }
    ensures ok { OnOk result (out.new.items ≡ out.old.items ++ pointed_before decimals (padded decimals digits.now)) }
    ensures err { OnErr result (take (length out.old.items) out.new.items ≡ out.old.items) }
{
    out.extend_from_slice(b"0.")?;
    out.extend_from_slice(&ZEROS[..decimals - digits.len()])?;
    out.extend_from_slice(digits)?;
    Ok(())
}

/// Appends digits of which some are before the point. Where there is no memory, a part may have been appended.
fn append_from_one(digits: &[u8], decimals: usize, out: &mut Vec<u8>) -> Result<(), NoMemory>
    requires { decimals < length digits.now }
    ensures ok { OnOk result (out.new.items ≡ out.old.items ++ pointed_before decimals (padded decimals digits.now)) }
    ensures err { OnErr result (take (length out.old.items) out.new.items ≡ out.old.items) }
{
    let whole = digits.len() - decimals;
    out.extend_from_slice(&digits[..whole])?;
    if decimals > 0 {
        out.push(b'.')?;
        out.extend_from_slice(&digits[whole..])?;
    }
    Ok(())
}

/// Appends the sign of a negative word, and nothing for any other.
fn append_sign(word: i64, out: &mut Vec<u8>) -> Result<(), NoMemory>
    ensures ok { OnOk result (out.new.items ≡ out.old.items ++ sign_text (is_negative word)) }
    ensures err { OnErr result (out.new.items ≡ out.old.items) }
{
    if word < 0 {
        out.push(b'-')?;
    }
    Ok(())
}

/// Appends a magnitude with this many decimals. Where there is no memory, a part may have been appended.
fn append_magnitude(decimals: u8, magnitude: u64, out: &mut Vec<u8>) -> Result<(), NoMemory>
    requires { decimals ≤ 9 }
    ensures ok { OnOk result (out.new.items ≡ out.old.items ++ fixed_text decimals magnitude) }
    ensures err { OnErr result (take (length out.old.items) out.new.items ≡ out.old.items) }
{
    let mut buffer = Buffer::new();
    let digits = buffer.format(magnitude).as_bytes();
    let decimals = usize::from(decimals);
    if digits.len() <= decimals {
        append_below_one(digits, decimals, out)
    } else {
        append_from_one(digits, decimals, out)
    }
}

/// Appends a fixed-point word. Where there is no memory, a part may have been appended.
fn append_fixed(decimals: u8, word: i64, out: &mut Vec<u8>) -> Result<(), NoMemory>
    requires { decimals ≤ 9 }
    ensures ok { OnOk result (out.new.items
        ≡ out.old.items ++ (sign_text (is_negative word) ++ fixed_text decimals (unsigned_abs word))) }
    ensures err { OnErr result (take (length out.old.items) out.new.items ≡ out.old.items) }
{
    append_sign(word, out)?;
    append_magnitude(decimals, word.unsigned_abs(), out)?;
    Ok(())
}

/// Appends a fixed-point word, or nothing where there is no memory.
fn fixed_word_text(decimals: u8, word: i64, out: &mut Vec<u8>) -> Result<(), NoMemory>
    requires { decimals ≤ 9 }
    ensures ok { OnOk result (out.new.items
        ≡ out.old.items ++ (sign_text (is_negative word) ++ fixed_text decimals (unsigned_abs word))) }
    ensures err { OnErr result (out.new.items ≡ out.old.items) }
{
    let before = out.len();
    let written = append_fixed(decimals, word, out);
    if written.is_err() {
        out.truncate(before);
    }
    written
}

/// Appends a magnitude as a decimal number with exactly this many decimals, without a point where there are none.
/// Only the growth of `out` takes memory; where there is none, `out` is unchanged.
pub fn magnitude_text(decimals: u8, magnitude: u64, out: &mut Vec<u8>) -> Result<(), NoMemory>
    requires { decimals ≤ 9 }
    ensures ok { OnOk result (out.new.items ≡ out.old.items ++ fixed_text decimals magnitude) }
    ensures err { OnErr result (out.new.items ≡ out.old.items) }
{
    let before = out.len();
    let written = append_magnitude(decimals, magnitude, out);
    if written.is_err() {
        out.truncate(before);
    }
    written
}

/// Appends the text of a word of the type: `true` or `false`, an integer in decimal, or a fixed-point number with
/// exactly its decimals. Only the growth of `out` takes memory; where there is none, `out` is unchanged.
pub fn word_text(ty: Ty, word: i64, out: &mut Vec<u8>) -> Result<(), NoMemory>
    requires of_type { IsTrue (is_word_of ty word) }
    requires decimals { AreDecimals ty }
    ensures ok { OnOk result (out.new.items ≡ out.old.items ++ text_of ty word) }
    ensures err { OnErr result (out.new.items ≡ out.old.items) }
{
    match ty {
        Ty::Bool if word == 0 => out.extend_from_slice(b"false"),
        Ty::Bool => out.extend_from_slice(b"true"),
        Ty::Fixed(decimals) => fixed_word_text(decimals, word, out),
        _ => out.extend_from_slice(Buffer::new().format(word).as_bytes()),
    }
}
