//! The clock of a component whose local tick is `factor` ticks of the system. All times are in ticks.
ghost use Rattle.std.specs.Prelude.{◌≡◌, ◌≤◌, ◌+◌, ◌^◌};
ghost use Rattle.super_time.specs.LocalTime.{local_time, local_step, limit_of};

/// The local time at `t`, in local ticks. Where a local tick is one tick of the system, this needs no division.
#[inline]
pub fn local_time(factor: u64, t: u64) -> u64
    requires factor { 1 ≤ factor }
    ensures { result ≡ local_time factor t }
{
    if factor == 1 { t } else { t / factor }
}

/// How many local ticks begin in a step of length `h` from `t`.
#[inline]
pub fn local_step(factor: u64, t: u64, h: u64) -> u64
    requires factor { 1 ≤ factor }
    requires end { t + h ≤ 10 ^ 15 }
    ensures { result ≡ local_step factor t h }
{
    if factor == 1 {
        h
    } else {
        local_time(factor, t + h) - local_time(factor, t)
    }
}

/// The ticks from `t` until `local` local ticks have passed; 0 for none.
pub fn limit(factor: u64, t: u64, local: u64) -> u128
    requires factor { 1 ≤ factor }
    requires coarsest { factor ≤ 10 ^ 9 }
    requires time { t ≤ 10 ^ 15 }
    ensures { result ≡ limit_of factor t local }
{
    if local == 0 {
        return 0;
    }
    let passed = u128::from(local_time(factor, t)) + u128::from(local);
    passed * u128::from(factor) - u128::from(t)
}
