//! Tests of runs with workers: calls whose run waits for them, a wait in vain, the locks and offers of lanes, and whether and for how
//! many rows a lane is published.
//!
//! The expected results were worked out by hand. All other tests are of the built program.
#![tactic(auto)]

#[cfg(test)]
mod calls;
#[cfg(test)]
mod lanes;
#[cfg(test)]
mod patience;
#[cfg(test)]
mod waits;
