//! Tests of the base: sources and sinks in memory and over std's streams, and what threads share, the progress cell and the
//! deques.
//!
//! The expected results were worked out by hand.
#![tactic(auto)]

#[cfg(test)]
mod adapters;
#[cfg(test)]
mod cells;
#[cfg(test)]
mod deques;
#[cfg(test)]
mod streams;
