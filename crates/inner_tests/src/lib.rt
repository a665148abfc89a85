//! Tests of what no command reaches:
//!
//! - words that are not valid code, a row that is written alone, the sum of the words of a trace with events
//! - a nest that is kept when it is made flat, or when it is refused
//! - a system without a plan, and a saved text after other bytes
//! - pairs of nodes, and bytes near those of facts
//!
//! The expected results were worked out by hand. All other tests are of the built program, by the texts of `tests/`.
#![tactic(auto)]

#[cfg(test)]
mod codes;
#[cfg(test)]
mod facts;
#[cfg(test)]
mod nests;
#[cfg(test)]
mod pairs;
#[cfg(test)]
mod plans;
#[cfg(test)]
mod rows;
