//! Draws: numbers that look random and are the same on every machine. They choose the systems that are generated, and
//! the events of worlds.
//!
//! A draw is the one before it times 48271, modulo the prime 2147483647. [`draw_start`] gives the number before the
//! first draw of a seed. A caller makes the next draw by [`next_draw`] before it uses it. The layers above use these
//! two calls and the definitions in `specs/Draws.antt`. No call takes memory, and none fails. The public function
//! without a body is a law.
#![tactic(auto)]

ghost use Rattle.std.specs.Prelude.{◌≡◌, ◌≤◌, ◌<◌};
ghost use Rattle.draw_numbers.specs.Draws.{next_draw, draw_start, DrawsAreWorked};

const FACTOR: u128 = 48_271;

const MODULUS: u128 = 2_147_483_647;

/// The number before the first draw of a seed.
pub fn draw_start(seed: u64) -> u64
    ensures value { result ≡ draw_start seed }
    ensures least { 1 ≤ result }
    ensures below { result < 2147483647 }
{
    seed % 2_147_483_646 + 1
}

/// The draw after `x`, which may be any number.
pub fn next_draw(x: u64) -> u64
    ensures value { result ≡ next_draw x }
    ensures below { result < 2147483647 }
{
    (FACTOR * u128::from(x) % MODULUS) as u64
}

/// A law: the definitions give the draws that were worked out by hand.
pub fn draws_are_worked()
    ensures { DrawsAreWorked }
{}

#[cfg(test)]
mod tests;
