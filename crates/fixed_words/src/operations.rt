ghost use Rattle.std.specs.Prelude.{◌≡◌, ◌≢◌, ◌*ℤ◌, unsigned_abs, if◌then◌else◌, ◌≤◌, ◌^◌, pos, negsuc, ◌-ℤ◌, ◌≤ℤ◌, ◌<ℤ◌};
ghost use Rattle.fixed_words.specs.declared.types.Fault.TheVariants.{ZeroDivisor};
ghost use Rattle.fixed_words.specs.Operations.{word_of, is_zero, floor_quotient, sum, difference, product, quotient, remainder, fixed_product, fixed_quotient, negated, magnitude, scaled_up, scaled_down, ten_to};

use crate::types::Fault;

/// The power of ten, for at most 9 decimals.
pub fn ten_to_the(decimals: u8) -> u32
    requires { decimals ≤ 9 }
    ensures power { result ≡ 10 ^ decimals }
    ensures least { 1 ≤ result }
    ensures greatest { result ≤ 10 ^ 9 }
{
    match decimals {
        0 => 1,
        1 => 10,
        2 => 100,
        3 => 1_000,
        4 => 10_000,
        5 => 100_000,
        6 => 1_000_000,
        7 => 10_000_000,
        8 => 100_000_000,
        _ => 1_000_000_000,
    }
}

/// The word of one, as fixed point of at most 9 decimals.
pub(crate) fn unit_word(decimals: u8) -> i64
    requires { decimals ≤ 9 }
    ensures power { result ≡ ten_to decimals }
    ensures positive { pos 1 ≤ℤ result }
{
    i64::from(ten_to_the(decimals))
}

/// The sum, or [`Fault::Overflow`] where it does not fit 64 bits.
#[inline]
pub fn add(a: i64, b: i64) -> Result<i64, Fault>
    ensures { result ≡ sum a b }
{
    a.checked_add(b).ok_or(Fault::Overflow)
}

/// The difference, or [`Fault::Overflow`] where it does not fit 64 bits.
#[inline]
pub fn sub(a: i64, b: i64) -> Result<i64, Fault>
    ensures { result ≡ difference a b }
{
    a.checked_sub(b).ok_or(Fault::Overflow)
}

/// The product of two integers, or [`Fault::Overflow`] where it does not fit 64 bits.
#[inline]
pub fn mul(a: i64, b: i64) -> Result<i64, Fault>
    ensures { result ≡ product a b }
{
    a.checked_mul(b).ok_or(Fault::Overflow)
}

/// `-a`, or [`Fault::Overflow`] for the least word.
#[inline]
pub fn neg(a: i64) -> Result<i64, Fault>
    ensures { result ≡ negated a }
{
    a.checked_neg().ok_or(Fault::Overflow)
}

/// The absolute value, or [`Fault::Overflow`] for the least word.
#[inline]
pub fn abs(a: i64) -> Result<i64, Fault>
    ensures { result ≡ magnitude a }
{
    a.checked_abs().ok_or(Fault::Overflow)
}

/// The quotient rounded towards minus infinity, and the remainder. Both fit, since the divisor is not -1 here.
#[inline]
fn floor_and_rest(dividend: i64, divisor: i64) -> (i64, i64)
    requires not_zero { divisor ≢ pos 0 }
    requires not_minus_one { divisor ≢ negsuc 0 }
    ensures floor { result.0 ≡ floor_quotient dividend divisor }
    ensures rest { result.1 ≡ dividend -ℤ (divisor *ℤ floor_quotient dividend divisor) }
{
    let quotient = dividend / divisor;
    let left = dividend % divisor;
    if left != 0 && (left < 0) != (divisor < 0) {
        (quotient - 1, left + divisor)
    } else {
        (quotient, left)
    }
}

/// `div`: the quotient rounded towards minus infinity. [`Fault::ZeroDivisor`] where `b` is zero, and
/// [`Fault::Overflow`] for the least word divided by -1.
#[inline]
pub fn div(a: i64, b: i64) -> Result<i64, Fault>
    ensures { result ≡ quotient a b }
{
    match b {
        0 => Err(Fault::ZeroDivisor),
        -1 => neg(a),
        _ => Ok(floor_and_rest(a, b).0),
    }
}

/// `mod`: the remainder of [`div`], with the divisor's sign. [`Fault::ZeroDivisor`] where `b` is zero.
#[inline]
pub fn rem(a: i64, b: i64) -> Result<i64, Fault>
    ensures { result ≡ remainder a b }
{
    match b {
        0 => Err(Fault::ZeroDivisor),
        -1 => Ok(0),
        _ => Ok(floor_and_rest(a, b).1),
    }
}

/// The integer as a word, or [`Fault::Overflow`].
fn fitting(exact: i128) -> Result<i64, Fault>
    ensures { result ≡ word_of exact }
{
    i64::try_from(exact).map_err(|_| Fault::Overflow)
}

/// The quotient rounded towards minus infinity, where the dividend is wider than a word.
fn wide_floor(dividend: i128, divisor: i128) -> i128
    requires divisible { divisor ≢ pos 0 }
    requires dividend_within { unsigned_abs dividend ≤ 2 ^ 126 }
    requires divisor_within { unsigned_abs divisor ≤ 2 ^ 126 }
    ensures { result ≡ floor_quotient dividend divisor }
{
    if divisor < 0 {
        (-dividend).div_euclid(-divisor)
    } else {
        dividend.div_euclid(divisor)
    }
}

/// The product of two words, in 128 bits.
#[tactic(auto, using(crate::proofs::Products::product_within, std::proofs::lemmas::Int::ints))]
fn product_of(a: i64, b: i64) -> i128
    ensures exact { result ≡ a *ℤ b }
    ensures within { unsigned_abs result ≤ 2 ^ 126 }
{
    i128::from(a) * i128::from(b)
}

/// The quotient of a product by a word, rounded towards minus infinity, where the product does not fit a word.
#[cold]
fn wide_quotient(a: i64, b: i64, divisor: i64) -> Result<i64, Fault>
    requires { divisor ≢ pos 0 }
    ensures { result ≡ word_of (floor_quotient (a *ℤ b) divisor) }
{
    fitting(wide_floor(product_of(a, b), i128::from(divisor)))
}

/// `*` of two fixed-point words of `n` decimals, rounded towards minus infinity. [`Fault::Overflow`] where the result
/// does not fit 64 bits.
#[inline(always)]
pub fn fix_mul(a: i64, b: i64, n: u8) -> Result<i64, Fault>
    requires { n ≤ 9 }
    ensures { result ≡ fixed_product n a b }
{
    match a.checked_mul(b) {
        Some(product) => scale_down(product, n),
        None => wide_quotient(a, b, unit_word(n)),
    }
}

/// `/` of two fixed-point words of `n` decimals, rounded towards minus infinity. [`Fault::ZeroDivisor`] where `b` is
/// zero, and [`Fault::Overflow`] where the result does not fit 64 bits.
#[inline(always)]
pub fn fix_div(a: i64, b: i64, n: u8) -> Result<i64, Fault>
    requires { n ≤ 9 }
    ensures { result ≡ fixed_quotient n a b }
{
    let unit = unit_word(n);
    match a.checked_mul(unit) {
        Some(scaled) => div(scaled, b),
        None if b == 0 => Err(Fault::ZeroDivisor),
        None => wide_quotient(a, unit, b),
    }
}

/// The word with `n` more decimals. [`Fault::Overflow`] where it does not fit 64 bits.
#[inline(always)]
pub fn scale_up(word: i64, n: u8) -> Result<i64, Fault>
    requires { n ≤ 9 }
    ensures { result ≡ scaled_up n word }
{
    mul(word, unit_word(n))
}

/// The word divided by a positive number and rounded towards minus infinity. Each caller passes a constant, so that it
/// is compiled as a multiplication.
#[inline(always)]
fn floor_by(word: i64, divisor: i64) -> i64
    requires { pos 1 <ℤ divisor }
    ensures { result ≡ floor_quotient word divisor }
{
    floor_and_rest(word, divisor).0
}

/// The word divided by a power of ten and rounded towards minus infinity.
#[inline]
fn without_decimals(word: i64, n: u8) -> i64
    requires { n ≤ 9 }
    ensures { result ≡ floor_quotient word (ten_to n) }
{
    match n {
        0 => word,
        1 => floor_by(word, 10),
        2 => floor_by(word, 100),
        3 => floor_by(word, 1_000),
        4 => floor_by(word, 10_000),
        5 => floor_by(word, 100_000),
        6 => floor_by(word, 1_000_000),
        7 => floor_by(word, 10_000_000),
        8 => floor_by(word, 100_000_000),
        _ => floor_by(word, 1_000_000_000),
    }
}

/// The word with `n` fewer decimals, rounded towards minus infinity. It is never a fault.
#[inline(always)]
pub fn scale_down(word: i64, n: u8) -> Result<i64, Fault>
    requires { n ≤ 9 }
    ensures { result ≡ scaled_down n word }
{
    Ok(without_decimals(word, n))
}
