//! Two kernels over lists of words, on std's vectors of lanes. They go over whole vectors first,
//! and then over the words that are left.
//!
//! - [`first_mismatch`]: the first place at which two lists differ.
//! - [`extrapolate`]: the next word of each line by linear extrapolation, within its bounds.
//!
//! The layer above uses these two calls and their meaning for lists of integers of every length.
//! `specs/Mismatch.antt` and `specs/Guess.antt` have the definitions, which don't mention lanes. No
//! call takes memory, and none fails.
#![tactic(auto)]

ghost use Rattle.std.specs.Prelude.{◌≡◌, ◌<◌, ◌≤◌, ◌≤ℤ◌, ◌↔◌, length, take, IsNone, IfNone, IfSome, FitsSigned};
ghost use Rattle.std.specs.Int.{w64};
ghost use Rattle.std.specs.Simd.Lanes.{Each1};
ghost use Rattle.word_lanes.specs.Guess.{guess, guesses, EachAtMost};
ghost use Rattle.word_lanes.specs.Mismatch.{IsFirstMismatch};

use std::simd::prelude::*;

// How many words a vector holds.
const LANES: usize = 8;

/// The first place at which two lists of one length differ, or `None` where they are equal.
pub fn first_mismatch(a: &[i64], b: &[i64]) -> Option<usize>
    requires same_length { length a.now ≡ length b.now }
    ensures equal { IsNone result ↔ (a.now ≡ b.now) }
    ensures within { IfSome result (λ place. place < length a.now) }
    ensures least { IfSome result (IsFirstMismatch a.now b.now) }
{
    let mut at = 0;
    'vectors: while a.len() - at >= LANES {
        if let Some(lane) = differing_lane(&a[at..], &b[at..]) {
            return Some(at + lane);
        }
        at += LANES;
    }
    match differing_word(&a[at..], &b[at..]) {
        Some(place) => Some(at + place),
        None => None,
    }
}

/// Writes the next word of each line into `out`: the word after `last`, which came after `before`,
/// is guessed to be `2 * last - before`, wrapped to 64 bits and then brought into the interval from
/// `low` to `high`. The five lists have one word for each line.
pub fn extrapolate(last: &[i64], before: &[i64], low: &[i64], high: &[i64], out: &mut [i64])
    requires before_length { length before.now ≡ length last.now }
    requires low_length { length low.now ≡ length last.now }
    requires high_length { length high.now ≡ length last.now }
    requires out_length { length out.old ≡ length last.now }
    requires intervals { EachAtMost low.now high.now }
    ensures guesses { out.new ≡ guesses last.now before.now low.now high.now }
    ensures from_low { EachAtMost low.now out.new }
    ensures to_high { EachAtMost out.new high.now }
{
    let mut at = 0;
    'vectors: while out.len() - at >= LANES {
        guess_lanes(
            &last[at..],
            &before[at..],
            &low[at..],
            &high[at..],
            &mut out[at..],
        );
        at += LANES;
    }
    guess_words(
        &last[at..],
        &before[at..],
        &low[at..],
        &high[at..],
        &mut out[at..],
    );
}

// The first lane at which the first vectors of two lists differ.
fn differing_lane(a: &[i64], b: &[i64]) -> Option<usize>
    requires a_lanes { LANES ≤ length a.now }
    requires b_lanes { LANES ≤ length b.now }
    ensures equal { IfNone result (take LANES a.now ≡ take LANES b.now) }
    ensures within { IfSome result (λ lane. lane < LANES) }
    ensures least { IfSome result (IsFirstMismatch a.now b.now) }
{
    let differing = load(a).simd_ne(load(b)).to_bitmask();
    if differing == 0 {
        None
    } else {
        Some(differing.trailing_zeros() as usize)
    }
}

// `first_mismatch`, word by word.
fn differing_word(a: &[i64], b: &[i64]) -> Option<usize>
    requires same_length { length a.now ≡ length b.now }
    ensures equal { IsNone result ↔ (a.now ≡ b.now) }
    ensures within { IfSome result (λ place. place < length a.now) }
    ensures least { IfSome result (IsFirstMismatch a.now b.now) }
{
    for place in 0..a.len() {
        if a[place] != b[place] {
            return Some(place);
        }
    }
    None
}

// The guesses for the first vectors of five lists.
fn guess_lanes(last: &[i64], before: &[i64], low: &[i64], high: &[i64], out: &mut [i64])
    requires last_lanes { LANES ≤ length last.now }
    requires before_lanes { LANES ≤ length before.now }
    requires low_lanes { LANES ≤ length low.now }
    requires high_lanes { LANES ≤ length high.now }
    requires out_lanes { LANES ≤ length out.old }
    ensures { take LANES out.new ≡ take LANES (guesses last.now before.now low.now high.now) }
{
    let last = load(last);
    let straight = last + last - load(before);
    straight
        .simd_min(load(high))
        .simd_max(load(low))
        .copy_to_slice(out);
}

// `extrapolate`, word by word.
fn guess_words(last: &[i64], before: &[i64], low: &[i64], high: &[i64], out: &mut [i64])
    requires before_length { length before.now ≡ length last.now }
    requires low_length { length low.now ≡ length last.now }
    requires high_length { length high.now ≡ length last.now }
    requires out_length { length out.old ≡ length last.now }
    requires intervals { EachAtMost low.now high.now }
    ensures { out.new ≡ guesses last.now before.now low.now high.now }
{
    for place in 0..out.len() {
        out[place] = guess_word(last[place], before[place], low[place], high[place]);
    }
}

fn guess_word(last: i64, before: i64, low: i64, high: i64) -> i64
    requires { low ≤ℤ high }
    ensures { result ≡ guess last before low high }
{
    last.wrapping_add(last)
        .wrapping_sub(before)
        .clamp(low, high)
}

// The first vector of a list. The proof knows that a word which is read by its index fits 64 bits,
// but not that the words of a vector which is loaded whole do. The compiler makes one load of the
// eight.
fn load(words: &[i64]) -> i64x8
    requires { LANES ≤ length words.now }
    ensures value { result ≡ take LANES words.now }
    ensures lanes { length result ≡ LANES }
    ensures fits { Each1 (FitsSigned w64) result }
{
    i64x8::from_array([
        words[0], words[1], words[2], words[3], words[4], words[5], words[6], words[7],
    ])
}

#[cfg(test)]
mod tests;
