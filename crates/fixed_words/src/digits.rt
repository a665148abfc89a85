ghost use Rattle.std.specs.Prelude.{◌≡◌, ◌==◌, ◌+◌, ◌≤◌, ◌<◌, ◌^◌, ℕ, [], ◌∷◌, length, drop, IfSome, IfNone};
ghost use Rattle.std.specs.List.{position_or_len};
ghost use Rattle.fixed_words.specs.Digits.{IsNumber, number_of_digits};

use model_rules::MOST_DECIMALS;

/// The greatest number that digits may have: with a `-` before it, it is the least word.
const GREATEST: u64 = 1 << 63;

/// The most digits after the point.
const LONGEST_FRACTION: usize = MOST_DECIMALS as usize;

/// A number without a sign: the number of all its digits without the point, and how many of them follow the
/// point.
#[derive(Clone, Copy)]
pub(crate) struct Unsigned {
    pub(crate) digits: u64,
    pub(crate) decimals: u8,
}

/// The number with one digit more, if the byte is a digit and the number is not too large.
fn with_digit(number: u64, byte: u8) -> Option<u64>
    ensures { result ≡ number_of_digits number (byte ∷ []) }
{
    if !byte.is_ascii_digit() {
        return None;
    }
    let longer = 10 * u128::from(number) + u128::from(byte - b'0');
    if longer <= u128::from(GREATEST) {
        Some(longer as u64)
    } else {
        None
    }
}

/// The number of the digits before and these bytes, if all bytes are digits and it is not too large.
fn read_digits(before: u64, bytes: &[u8]) -> Option<u64>
    requires { before ≤ 2 ^ 63 }
    ensures { result ≡ number_of_digits before bytes.now }
{
    let mut number = before;
    for byte in bytes {
        number = with_digit(number, *byte)?;
    }
    Some(number)
}

/// The place of the first point, or the length where there is none.
fn point_place(text: &[u8]) -> usize
    ensures { result ≡ position_or_len (λ byte. byte == 46) text.now }
{
    text.iter()
        .position(|&byte| byte == b'.')
        .unwrap_or(text.len())
}

/// The digits after the point at this place, which are empty where there is no point. `None` where the text
/// ends with its point.
fn fraction_behind(text: &[u8], point: usize) -> Option<&[u8]>
    requires { point ≤ length text.now }
    ensures some { IfSome result (λ fraction. fraction.now ≡ drop (point + 1) text.now) }
    ensures not_empty { IfSome result (λ fraction. point < length text.now → 0 < length fraction.now) }
    ensures none { IfNone result (point + 1 ≡ length text.now) }
{
    if point == text.len() {
        Some(&[])
    } else if point + 1 == text.len() {
        None
    } else {
        Some(&text[point + 1..])
    }
}

/// The number that the text spells, or `None` if it spells none.
pub(crate) fn read_number(text: &[u8]) -> Option<Unsigned>
    ensures some { IfSome result (λ number. IsNumber number.digits number.decimals text.now) }
    ensures only { (digits decimals : ℕ) → IsNumber digits decimals text.now
        → result ≡ Some (record { digits = digits; decimals = decimals }) }
{
    let point = point_place(text);
    let fraction = fraction_behind(text, point)?;
    if point == 0 || fraction.len() > LONGEST_FRACTION {
        return None;
    }
    let digits = read_digits(read_digits(0, &text[..point])?, fraction)?;
    Some(Unsigned {
        digits,
        decimals: fraction.len() as u8,
    })
}
