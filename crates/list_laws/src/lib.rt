//! Lemmas about lists, pairs of lists, options and truth values that several crates use.
//!
//! There is no code: other crates use the lemmas of `proofs/`. The lemmas of std are in std's own library. A lemma is
//! here where std doesn't have it and more than one crate would state it.
#![tactic(auto)]
