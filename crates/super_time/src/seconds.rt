//! Seconds as ticks, and ticks as seconds.
ghost use Rattle.std.specs.Prelude.{◌≡◌, ◌≤◌, ◌<◌, ◌*◌, ◌/◌, ◌%◌, ◌^◌, ◌==◌, ◌++◌, Some, None, if◌then◌else◌, OnOk, OnErr};
ghost use Rattle.super_time.specs.Seconds.{AreDecimalsOf, seconds_of, seconds_text_of, within_run};

use fixed_words::{Literal, NoMemory, magnitude_text, ten_to_the};

/// Why a literal is not a number of ticks that a run may have.
#[derive(Clone, Copy, Debug, PartialEq, Eq)]
pub enum SecondsFault {
    /// It is a truth value, or negative.
    NotDecimal,
    /// It is a number of seconds, but not a whole number of ticks.
    NotMultiple,
    /// It is a whole number of ticks above 10^15.
    TooLarge,
}

/// `number` times a power of ten.
fn product(number: u64, unit: u32) -> u128
    requires { unit ≤ 10 ^ 9 }
    ensures { result ≡ number * unit }
{
    u128::from(number) * u128::from(unit)
}

/// Returns ticks that a run may have: at most 10^15. Else `TooLarge`.
fn of_run(ticks: u128) -> Result<u64, SecondsFault>
    ensures { result ≡ within_run (Some ticks) }
{
    if ticks > 1_000_000_000_000_000 {
        Err(SecondsFault::TooLarge)
    } else {
        Ok(ticks as u64)
    }
}

/// The ticks in `number` times 10^-`decimals` seconds.
fn ticks(resolution: u8, number: u64, decimals: u8) -> Result<u64, SecondsFault>
    requires resolution { resolution ≤ 9 }
    requires decimals { decimals ≤ 9 }
    ensures { result
        ≡ within_run (if (number * 10 ^ resolution) % 10 ^ decimals == 0 then Some (number * 10 ^ resolution / 10 ^ decimals) else None) }
{
    let parts = product(number, ten_to_the(resolution));
    let unit = u128::from(ten_to_the(decimals));
    if parts % unit == 0 {
        of_run(parts / unit)
    } else {
        Err(SecondsFault::NotMultiple)
    }
}

/// The ticks of a literal as a number of seconds, where a tick is 10^-`resolution` seconds. Where the literal is not a
/// number of ticks that a run may have, the error states why: first its form is judged, then its value. It takes no
/// memory.
pub fn read_seconds(resolution: u8, literal: Literal) -> Result<u64, SecondsFault>
    requires resolution { resolution ≤ 9 }
    requires decimals { AreDecimalsOf literal }
    ensures { result ≡ seconds_of resolution literal }
{
    match literal {
        Literal::Truth(_) => Err(SecondsFault::NotDecimal),
        Literal::Number { word, decimals } => {
            if word < 0 {
                Err(SecondsFault::NotDecimal)
            } else {
                ticks(resolution, word.unsigned_abs(), decimals)
            }
        }
    }
}

/// Appends a time in ticks as seconds, with exactly `resolution` decimals, and without a point where that is 0. Only
/// the growth of `out` takes memory; where there is none, `out` is unchanged.
pub fn seconds_text(resolution: u8, t: u64, out: &mut Vec<u8>) -> Result<(), NoMemory>
    requires { resolution ≤ 9 }
    ensures ok { OnOk result (out.new.items ≡ out.old.items ++ seconds_text_of resolution t) }
    ensures err { OnErr result (out.new.items ≡ out.old.items) }
{
    magnitude_text(resolution, t, out)
}
